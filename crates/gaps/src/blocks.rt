// The block behind an item's head: format.rs 1441 to 1462, 1544 to 1573.
ghost use Rattle.std.specs.Prelude.{◌≡◌};
ghost use Rattle.lent.specs.Loans.{Made};
ghost use Rattle.walk.specs.Stream.{tree, stream_here};
ghost use Rattle.gaps.specs.Blocks.{is_mod, asks_block, before_block, no_block};

use calls::{lit, nl, ws};
use kinds::{Kind, bytes};
use lent::formatter::Formatter;
use lent::ring::Queue;
use meaning::call::Literal;
use walk::stream::Stream;

// A module, in a file of its own or not.
#[tactic(auto, unfolding(crate::specs::Blocks::is_mod, kinds::specs::Facts::byte_of, kinds::specs::Facts::facts_of))]
fn is_mod(kind: u8) -> bool
    ensures { result ≡ is_mod kind }
{
    kind == bytes::ITEM_MOD || kind == bytes::ITEM_FILE_MOD
}

// Whether one stands there, or must.
#[tactic(auto, unfolding(crate::specs::Blocks::asks_block, kinds::specs::Facts::byte_of, kinds::specs::Facts::facts_of))]
pub fn asks_block(table: &[u32], p: &Stream, kind: u8) -> bool
    ensures { result ≡ asks_block (tree table) kind (stream_here table p) }
{
    kind == bytes::ITEM_IMPL
        || (kind == bytes::ITEM_FN || is_mod(kind)) && p.next_is(table, Kind::Block)
}

// The space in front of a module's; other heads end with one.
pub fn before_block(
    src: &[u8],
    table: &[u32],
    fmt: &mut Formatter,
    queue: &mut Queue,
    out: &mut [u8],
    kind: u8,
)
    ensures { Made src table fmt queue out (before_block kind) }
{
    if is_mod(kind) {
        ws(src, table, fmt, queue, out);
    }
}

// A function that has none gets one.
pub fn no_block(
    src: &[u8],
    table: &[u32],
    fmt: &mut Formatter,
    queue: &mut Queue,
    out: &mut [u8],
    kind: u8,
)
    ensures { Made src table fmt queue out (no_block kind) }
{
    if kind == bytes::ITEM_FN {
        lit(src, table, fmt, queue, out, Literal::OpenBrace);
        nl(src, table, fmt, queue, out, 1);
        lit(src, table, fmt, queue, out, Literal::CloseBrace);
    }
}
