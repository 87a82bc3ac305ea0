// Labels, and all that may stand in front of an expression: format.rs 54 to 62, 560 to 573.
ghost use Rattle.std.specs.Prelude.{◌≡◌};
ghost use Rattle.walk.specs.Stream.{tree, stream_here};
ghost use Rattle.walk.specs.Flow.{Walked};
ghost use Rattle.parts.specs.Labels.{expr_labels, preceded, before_expr};

use calls::ws;
use kinds::Kind;
use lent::formatter::Formatter;
use lent::ring::Queue;
use paths::modifier::modifiers;
use patterns::pat_parts::pat_attributes;
use steps::remaining::{Mark, put_remaining};
use walk::stream::Stream;
use walk::tokens::any;

// Each with its colon.
fn expr_labels(
    src: &[u8],
    table: &[u32],
    fmt: &mut Formatter,
    queue: &mut Queue,
    out: &mut [u8],
    p: &mut Stream,
)
    ensures { Walked src table fmt queue out p (expr_labels (tree table)) }
{
    while p.next_is(table, Kind::Label) {
        any(src, table, fmt, queue, out, p);
        put_remaining(src, table, fmt, queue, out, p, Mark::Colon);
        ws(src, table, fmt, queue, out);
    }
}

// Whether an attribute, modifiers or a label is next.
fn preceded(table: &[u32], p: &Stream) -> bool
    ensures { result ≡ preceded (tree table) (stream_here table p) }
{
    p.next_is(table, Kind::Attribute)
        || (p.next_is(table, Kind::Modifiers) || p.next_is(table, Kind::Label))
}

// Attributes, modifiers, labels. Before most expressions there is none, and one look tells.
pub fn before_expr(
    src: &[u8],
    table: &[u32],
    fmt: &mut Formatter,
    queue: &mut Queue,
    out: &mut [u8],
    p: &mut Stream,
)
    ensures { Walked src table fmt queue out p (before_expr (tree table)) }
{
    if !preceded(table, p) {
        return;
    }
    pat_attributes(src, table, fmt, queue, out, p);
    modifiers(src, table, fmt, queue, out, p);
    expr_labels(src, table, fmt, queue, out, p);
}
