// Structs and enums: format.rs 1305 to 1387.
ghost use Rattle.lent.specs.Loans.{Made};
ghost use Rattle.walk.specs.Stream.{tree};
ghost use Rattle.walk.specs.Flow.{Walked, pump, parse};
ghost use Rattle.bodies.specs.Body.{body, item_struct, variant, variants, item_enum};

use crate::fields::{struct_body, tuple_body};
use crate::lines::{before_line, end_lines};
use calls::{comments, indent, lit, ws};
use kinds::{Kind, bytes};
use lent::formatter::Formatter;
use lent::ring::Queue;
use meaning::answer::Refusal;
use meaning::call::{Hint, Literal};
use steps::remaining::{Mark, put_remaining};
use tree::record::RecordNo;
use tree::table::kind_at;
use walk::stream::{Stream, records_of};
use walk::tokens::{any, spaced_if, token, token_if};

// The body of a struct or of a variant; an empty one is not walked.
fn body(
    src: &[u8],
    table: &[u32],
    fmt: &mut Formatter,
    queue: &mut Queue,
    out: &mut [u8],
    p: &mut Stream,
)
    ensures { Walked src table fmt queue out p (pump (body (tree table))) }
{
    let k = p.pump(table, fmt);
    let kind = kind_at(table, k);
    match kind {
        bytes::STRUCT_BODY => {
            ws(src, table, fmt, queue, out);
            struct_body(src, table, fmt, queue, out, k);
        }
        bytes::TUPLE_BODY => tuple_body(src, table, fmt, queue, out, k),
        bytes::EMPTY_BODY => {}
        _ => fmt.refuse(Refusal::WrongKind(k)),
    }
}

// format.rs 1305 to 1330.
pub fn item_struct(
    src: &[u8],
    table: &[u32],
    fmt: &mut Formatter,
    queue: &mut Queue,
    out: &mut [u8],
    p: &mut Stream,
)
    ensures { Walked src table fmt queue out p (item_struct (tree table)) }
{
    token(src, table, fmt, queue, out, p, Kind::Struct);
    spaced_if(src, table, fmt, queue, out, p, Kind::Ident);
    body(src, table, fmt, queue, out, p);
}

// format.rs 1367 to 1391.
pub fn variant(
    src: &[u8],
    table: &[u32],
    fmt: &mut Formatter,
    queue: &mut Queue,
    out: &mut [u8],
    k: RecordNo,
)
    ensures { Made src table fmt queue out (parse (tree table) (variant (tree table)) k) }
{
    let mut p = records_of(table, k);
    comments(src, table, fmt, queue, out, Hint::Line);
    token_if(src, table, fmt, queue, out, &mut p, Kind::Ident);
    body(src, table, fmt, queue, out, &mut p);
    p.left_over(table, fmt);
}

// The variants of an enum, from its brace to the other.
fn variants(
    src: &[u8],
    table: &[u32],
    fmt: &mut Formatter,
    queue: &mut Queue,
    out: &mut [u8],
    p: &mut Stream,
)
    ensures { Walked src table fmt queue out p (variants (tree table)) }
{
    any(src, table, fmt, queue, out, p);
    indent(src, table, fmt, queue, out, 1);
    let mut seen = false;
    while p.next_is(table, Kind::Variant) {
        before_line(src, table, fmt, queue, out);
        let n = p.pump(table, fmt);
        variant(src, table, fmt, queue, out, n);
        put_remaining(src, table, fmt, queue, out, p, Mark::Comma);
        seen = true;
    }
    end_lines(src, table, fmt, queue, out, seen);
    token(src, table, fmt, queue, out, p, Kind::CloseBrace);
}

// An enum without a brace gets both.
pub fn item_enum(
    src: &[u8],
    table: &[u32],
    fmt: &mut Formatter,
    queue: &mut Queue,
    out: &mut [u8],
    p: &mut Stream,
)
    ensures { Walked src table fmt queue out p (item_enum (tree table)) }
{
    token(src, table, fmt, queue, out, p, Kind::Enum);
    spaced_if(src, table, fmt, queue, out, p, Kind::Ident);
    ws(src, table, fmt, queue, out);
    if p.next_is(table, Kind::OpenBrace) {
        variants(src, table, fmt, queue, out, p);
        return;
    }
    lit(src, table, fmt, queue, out, Literal::Braces);
}
