// Uses: format.rs 1464 to 1542. A cycle, in which the depth that is left falls.
ghost use Rattle.lent.specs.Loans.{Made};
ghost use Rattle.walk.specs.Stream.{tree};
ghost use Rattle.walk.specs.Flow.{Walked, parse};
ghost use Rattle.uses.specs.Use.{use_part, use_path, use_group, item_use};

use crate::use_parts::{as_name, before_as, brace, is_single};
use calls::{write_owned, ws};
use kinds::{Kind, bytes};
use lent::formatter::Formatter;
use lent::ring::Queue;
use meaning::answer::Refusal;
use steps::items::{before_item, behind_item, close_list};
use steps::remaining::Remaining;
use tree::record::RecordNo;
use tree::table::kind_at;
use walk::stream::{Stream, records_of};
use walk::tokens::token;

// format.rs 1496 to 1542.
#[cycle(uses)]
pub fn item_use_group(
    src: &[u8],
    table: &[u32],
    fmt: &mut Formatter,
    queue: &mut Queue,
    out: &mut [u8],
    k: RecordNo,
    depth: u32,
)
    ensures { Made src table fmt queue out (use_group (tree table) depth k) }
{
    let mut p = records_of(table, k);
    let one = is_single(table, k);
    brace(src, table, fmt, queue, out, &mut p, Kind::OpenBrace, one);
    let mut comma = Remaining::Fresh;
    while p.next_is(table, Kind::ItemUsePath) {
        before_item(src, table, fmt, queue, out, comma);
        let n = p.pump(table, fmt);
        use_node(src, table, fmt, queue, out, n, depth);
        comma = behind_item(src, table, fmt, queue, out, &mut p);
    }
    close_list(src, table, fmt, queue, out, comma);
    brace(src, table, fmt, queue, out, &mut p, Kind::CloseBrace, one);
    p.left_over(table, fmt);
}

// A group by its rule, any other node whole.
#[cycle(uses)]
fn use_part(
    src: &[u8],
    table: &[u32],
    fmt: &mut Formatter,
    queue: &mut Queue,
    out: &mut [u8],
    k: RecordNo,
    depth: u32,
)
    ensures { Made src table fmt queue out (use_part (tree table) (use_group (tree table) depth) k) }
{
    if kind_at(table, k) == bytes::ITEM_USE_GROUP {
        item_use_group(src, table, fmt, queue, out, k, depth);
        return;
    }
    write_owned(src, table, fmt, queue, out, k);
}

// As far as `as`.
#[cycle(uses)]
pub fn item_use_path(
    src: &[u8],
    table: &[u32],
    fmt: &mut Formatter,
    queue: &mut Queue,
    out: &mut [u8],
    p: &mut Stream,
    depth: u32,
)
    ensures { Walked src table fmt queue out p (use_path (tree table) depth) }
{
    if depth == 0 {
        fmt.refuse(Refusal::TreeDeep(p.node_of(table)));
        return;
    }
    while before_as(table, p) {
        let n = p.pump(table, fmt);
        use_part(src, table, fmt, queue, out, n, depth - 1);
    }
    as_name(src, table, fmt, queue, out, p);
}

// A path that is a node of its own.
#[cycle(uses)]
pub fn use_node(
    src: &[u8],
    table: &[u32],
    fmt: &mut Formatter,
    queue: &mut Queue,
    out: &mut [u8],
    k: RecordNo,
    depth: u32,
)
    ensures { Made src table fmt queue out (parse (tree table) (use_path (tree table) depth) k) }
{
    let mut p = records_of(table, k);
    item_use_path(src, table, fmt, queue, out, &mut p, depth);
    p.left_over(table, fmt);
}

// format.rs 1464 to 1468.
pub fn item_use(
    src: &[u8],
    table: &[u32],
    fmt: &mut Formatter,
    queue: &mut Queue,
    out: &mut [u8],
    p: &mut Stream,
)
    ensures { Walked src table fmt queue out p (item_use (tree table)) }
{
    token(src, table, fmt, queue, out, p, Kind::Use);
    ws(src, table, fmt, queue, out);
    item_use_path(src, table, fmt, queue, out, p, 64);
}
