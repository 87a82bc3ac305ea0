// Paths and their generics: format.rs 281 to 319. A cycle, in which the depth that is left falls.
ghost use Rattle.kinds.specs.declared.Kind.{Kind};
ghost use Rattle.lent.specs.Loans.{Made};
ghost use Rattle.walk.specs.Stream.{tree};
ghost use Rattle.walk.specs.Flow.{Walked, expect};
ghost use Rattle.paths.specs.Path.{path, path_part, path_generics};

use calls::write_owned;
use kinds::{Kind, bytes};
use lent::formatter::Formatter;
use lent::ring::Queue;
use meaning::answer::Refusal;
use steps::items::{before_item, behind_item, close_list};
use steps::remaining::Remaining;
use tree::record::RecordNo;
use tree::table::kind_at;
use walk::stream::{Stream, records_of};
use walk::tokens::token;

// Its parts, one behind the other.
#[cycle(path)]
pub fn path(
    src: &[u8],
    table: &[u32],
    fmt: &mut Formatter,
    queue: &mut Queue,
    out: &mut [u8],
    k: RecordNo,
    depth: u32,
)
    ensures { Made src table fmt queue out (path (tree table) depth k) }
{
    if depth == 0 {
        fmt.refuse(Refusal::TreeDeep(k));
        return;
    }
    let mut p = records_of(table, k);
    while p.has_next(table) {
        let n = p.pump(table, fmt);
        path_part(src, table, fmt, queue, out, n, depth - 1);
    }
    p.left_over(table, fmt);
}

// Generics by their rule, any other node whole.
#[cycle(path)]
fn path_part(
    src: &[u8],
    table: &[u32],
    fmt: &mut Formatter,
    queue: &mut Queue,
    out: &mut [u8],
    k: RecordNo,
    depth: u32,
)
    ensures { Made src table fmt queue out (path_part (tree table) (path_generics (tree table) depth) k) }
{
    if kind_at(table, k) == bytes::PATH_GENERICS {
        path_generics(src, table, fmt, queue, out, k, depth);
        return;
    }
    write_owned(src, table, fmt, queue, out, k);
}

// `<a, b>`.
#[cycle(path)]
pub fn path_generics(
    src: &[u8],
    table: &[u32],
    fmt: &mut Formatter,
    queue: &mut Queue,
    out: &mut [u8],
    k: RecordNo,
    depth: u32,
)
    ensures { Made src table fmt queue out (path_generics (tree table) depth k) }
{
    let mut p = records_of(table, k);
    token(src, table, fmt, queue, out, &mut p, Kind::Lt);
    let mut comma = Remaining::Fresh;
    while p.next_is(table, Kind::Path) {
        before_item(src, table, fmt, queue, out, comma);
        let n = p.pump(table, fmt);
        path(src, table, fmt, queue, out, n, depth);
        comma = behind_item(src, table, fmt, queue, out, &mut p);
    }
    close_list(src, table, fmt, queue, out, comma);
    token(src, table, fmt, queue, out, &mut p, Kind::Gt);
    p.left_over(table, fmt);
}

// The path that must stand next.
pub fn next_path(
    src: &[u8],
    table: &[u32],
    fmt: &mut Formatter,
    queue: &mut Queue,
    out: &mut [u8],
    p: &mut Stream,
)
    ensures { Walked src table fmt queue out p (expect (tree table) Kind.Path (path (tree table) 64)) }
{
    let k = p.expect(table, fmt, Kind::Path);
    path(src, table, fmt, queue, out, k, 64);
}
