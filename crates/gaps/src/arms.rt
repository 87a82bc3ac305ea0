// The arms of `select` and `match`: format.rs 1029 to 1135. An arm's body is its last record, and an expression's own node the last of its.
ghost use Rattle.std.specs.Prelude.{◌≡◌};
ghost use Rattle.lent.specs.Loans.{Made};
ghost use Rattle.walk.specs.Stream.{tree};
ghost use Rattle.walk.specs.Flow.{Walked};
ghost use Rattle.gaps.specs.Arms.{last_of, is_block_arm, arm_comma, open_select, open_match, open_arm, close_arms, close_select};

use calls::{comments, indent, nl, ws};
use kinds::{Kind, bytes};
use lent::formatter::Formatter;
use lent::ring::Queue;
use meaning::call::Hint;
use steps::remaining::{Mark, take_remaining, write_only_if};
use tree::record::RecordNo;
use tree::table::kind_at;
use walk::stream::{Stream, records_of};
use walk::tokens::{any, token};

// The last record of node k.
fn last(table: &[u32], k: RecordNo) -> Option<RecordNo>
    ensures { result ≡ last_of (tree table) k }
{
    let mut p = records_of(table, k);
    let mut n = None;
    while p.has_next(table) {
        n = p.take(table);
    }
    n
}

// Whether the body of arm k is a block.
pub fn is_block_arm(table: &[u32], k: RecordNo) -> bool
    ensures { result ≡ is_block_arm (tree table) k }
{
    let Some(body) = last(table, k) else {
        return false;
    };
    let Some(inner) = last(table, body) else {
        return false;
    };
    kind_at(table, inner) == bytes::BLOCK
}

// The comma behind an arm is not written where its body is a block.
pub fn arm_comma(
    src: &[u8],
    table: &[u32],
    fmt: &mut Formatter,
    queue: &mut Queue,
    out: &mut [u8],
    p: &mut Stream,
    block: bool,
)
    ensures { Walked src table fmt queue out p (arm_comma (tree table) block) }
{
    let comma = take_remaining(table, fmt, p, Mark::Comma);
    write_only_if(src, table, fmt, queue, out, comma, Mark::Comma, !block);
}

// In front of the arms of a select: the brace, one level in.
pub fn open_select(
    src: &[u8],
    table: &[u32],
    fmt: &mut Formatter,
    queue: &mut Queue,
    out: &mut [u8],
    p: &mut Stream,
)
    ensures { Walked src table fmt queue out p open_select }
{
    indent(src, table, fmt, queue, out, 1);
    any(src, table, fmt, queue, out, p);
}

// In front of those of a match.
pub fn open_match(
    src: &[u8],
    table: &[u32],
    fmt: &mut Formatter,
    queue: &mut Queue,
    out: &mut [u8],
    p: &mut Stream,
)
    ensures { Walked src table fmt queue out p (open_match (tree table)) }
{
    ws(src, table, fmt, queue, out);
    token(src, table, fmt, queue, out, p, Kind::OpenBrace);
}

// The first arm of a match indents.
#[tactic(auto, unfolding(crate::specs::Arms::open_arm))]
pub fn open_arm(
    src: &[u8],
    table: &[u32],
    fmt: &mut Formatter,
    queue: &mut Queue,
    out: &mut [u8],
    any: bool,
)
    ensures { Made src table fmt queue out (open_arm any) }
{
    if !any {
        indent(src, table, fmt, queue, out, 1);
    }
}

// The end of a match: on a line of its own, if there was an arm.
pub fn close_arms(
    src: &[u8],
    table: &[u32],
    fmt: &mut Formatter,
    queue: &mut Queue,
    out: &mut [u8],
    any: bool,
)
    ensures { Made src table fmt queue out (close_arms any) }
{
    if any {
        comments(src, table, fmt, queue, out, Hint::Line);
        nl(src, table, fmt, queue, out, 1);
        indent(src, table, fmt, queue, out, 255);
        return;
    }
    comments(src, table, fmt, queue, out, Hint::Infix);
}

// The end of a select, on a line of its own.
pub fn close_select(
    src: &[u8],
    table: &[u32],
    fmt: &mut Formatter,
    queue: &mut Queue,
    out: &mut [u8],
    p: &mut Stream,
)
    ensures { Walked src table fmt queue out p (close_select (tree table)) }
{
    close_arms(src, table, fmt, queue, out, true);
    token(src, table, fmt, queue, out, p, Kind::CloseBrace);
}
