// The bodies of structs and variants: format.rs 1389 to 1439.
ghost use Rattle.lent.specs.Loans.{Made};
ghost use Rattle.walk.specs.Stream.{tree};
ghost use Rattle.walk.specs.Flow.{parse};
ghost use Rattle.bodies.specs.Body.{field, struct_body, tuple_body};

use crate::lines::{before_line, end_lines};
use calls::{comments, indent};
use kinds::Kind;
use lent::formatter::Formatter;
use lent::ring::Queue;
use meaning::call::Hint;
use steps::items::{before_item, behind_item, close_list};
use steps::remaining::{Mark, Remaining, put_remaining};
use tree::record::RecordNo;
use walk::stream::records_of;
use walk::tokens::{any, token};

// A field's one node.
fn field(
    src: &[u8],
    table: &[u32],
    fmt: &mut Formatter,
    queue: &mut Queue,
    out: &mut [u8],
    k: RecordNo,
)
    ensures { Made src table fmt queue out (field (tree table) k) }
{
    let mut p = records_of(table, k);
    any(src, table, fmt, queue, out, &mut p);
    p.left_over(table, fmt);
}

// Fields on lines of their own.
pub fn struct_body(
    src: &[u8],
    table: &[u32],
    fmt: &mut Formatter,
    queue: &mut Queue,
    out: &mut [u8],
    k: RecordNo,
)
    ensures { Made src table fmt queue out (parse (tree table) (struct_body (tree table)) k) }
{
    let mut p = records_of(table, k);
    token(src, table, fmt, queue, out, &mut p, Kind::OpenBrace);
    indent(src, table, fmt, queue, out, 1);
    comments(src, table, fmt, queue, out, Hint::Line);
    let mut seen = false;
    while p.next_is(table, Kind::Field) {
        before_line(src, table, fmt, queue, out);
        let n = p.pump(table, fmt);
        field(src, table, fmt, queue, out, n);
        put_remaining(src, table, fmt, queue, out, &mut p, Mark::Comma);
        seen = true;
    }
    end_lines(src, table, fmt, queue, out, seen);
    token(src, table, fmt, queue, out, &mut p, Kind::CloseBrace);
    p.left_over(table, fmt);
}

// Fields in parentheses.
pub fn tuple_body(
    src: &[u8],
    table: &[u32],
    fmt: &mut Formatter,
    queue: &mut Queue,
    out: &mut [u8],
    k: RecordNo,
)
    ensures { Made src table fmt queue out (parse (tree table) (tuple_body (tree table)) k) }
{
    let mut p = records_of(table, k);
    token(src, table, fmt, queue, out, &mut p, Kind::OpenParenthesis);
    let mut comma = Remaining::Fresh;
    while p.next_is(table, Kind::Field) {
        before_item(src, table, fmt, queue, out, comma);
        let n = p.pump(table, fmt);
        field(src, table, fmt, queue, out, n);
        comma = behind_item(src, table, fmt, queue, out, &mut p);
    }
    close_list(src, table, fmt, queue, out, comma);
    token(src, table, fmt, queue, out, &mut p, Kind::CloseParenthesis);
    comments(src, table, fmt, queue, out, Hint::Suffix);
    p.left_over(table, fmt);
}
