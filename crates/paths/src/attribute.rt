// Attributes: format.rs 64 to 84. Each stands on a line of its own.
ghost use Rattle.walk.specs.Stream.{tree};
ghost use Rattle.walk.specs.Flow.{Walked};
ghost use Rattle.paths.specs.Attribute.{on_lines, inner_attributes, attributes};

use calls::nl;
use kinds::Kind;
use lent::formatter::Formatter;
use lent::ring::Queue;
use walk::stream::Stream;
use walk::tokens::any;

// Those of one kind that are next.
fn on_lines(
    src: &[u8],
    table: &[u32],
    fmt: &mut Formatter,
    queue: &mut Queue,
    out: &mut [u8],
    p: &mut Stream,
    kind: Kind,
)
    ensures { Walked src table fmt queue out p (on_lines (tree table) kind) }
{
    while p.next_is(table, kind) {
        any(src, table, fmt, queue, out, p);
        nl(src, table, fmt, queue, out, 1);
    }
}

// format.rs 64 to 71.
#[tactic(auto, unfolding(crate::specs::Attribute::inner_attributes))]
pub fn inner_attributes(
    src: &[u8],
    table: &[u32],
    fmt: &mut Formatter,
    queue: &mut Queue,
    out: &mut [u8],
    p: &mut Stream,
)
    ensures { Walked src table fmt queue out p (inner_attributes (tree table)) }
{
    on_lines(src, table, fmt, queue, out, p, Kind::InnerAttribute);
}

// format.rs 73 to 83.
#[tactic(auto, unfolding(crate::specs::Attribute::attributes))]
pub fn attributes(
    src: &[u8],
    table: &[u32],
    fmt: &mut Formatter,
    queue: &mut Queue,
    out: &mut [u8],
    p: &mut Stream,
)
    ensures { Walked src table fmt queue out p (attributes (tree table)) }
{
    on_lines(src, table, fmt, queue, out, p, Kind::Attribute);
}
