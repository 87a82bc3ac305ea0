// The links of a chain that lead to no expression, and the line breaks between links: format.rs 1231 to 1281.
ghost use Rattle.lent.specs.Loans.{Made};
ghost use Rattle.walk.specs.Stream.{tree};
ghost use Rattle.walk.specs.Flow.{Walked, parse};
ghost use Rattle.parts.specs.Links.{tried, awaited, field_of, open_index, close_index, indent_first, break_link, chain_end};

use calls::{comments, indent, nl};
use kinds::Kind;
use lent::formatter::Formatter;
use lent::ring::Queue;
use loose::chain::is_dot;
use meaning::call::Hint;
use paths::path::next_path;
use tree::record::RecordNo;
use tree::table::kind_at;
use walk::stream::{Stream, records_of};
use walk::tokens::{any, token};

// `?`.
pub fn try_link(
    src: &[u8],
    table: &[u32],
    fmt: &mut Formatter,
    queue: &mut Queue,
    out: &mut [u8],
    k: RecordNo,
)
    ensures { Made src table fmt queue out (parse (tree table) (tried (tree table)) k) }
{
    let mut p = records_of(table, k);
    token(src, table, fmt, queue, out, &mut p, Kind::QuestionMark);
    p.left_over(table, fmt);
}

// `.await`.
pub fn await_link(
    src: &[u8],
    table: &[u32],
    fmt: &mut Formatter,
    queue: &mut Queue,
    out: &mut [u8],
    k: RecordNo,
)
    ensures { Made src table fmt queue out (parse (tree table) (awaited (tree table)) k) }
{
    let mut p = records_of(table, k);
    token(src, table, fmt, queue, out, &mut p, Kind::Dot);
    token(src, table, fmt, queue, out, &mut p, Kind::Await);
    p.left_over(table, fmt);
}

// `.` and a number or a path.
pub fn field_link(
    src: &[u8],
    table: &[u32],
    fmt: &mut Formatter,
    queue: &mut Queue,
    out: &mut [u8],
    k: RecordNo,
)
    ensures { Made src table fmt queue out (parse (tree table) (field_of (tree table)) k) }
{
    let mut p = records_of(table, k);
    token(src, table, fmt, queue, out, &mut p, Kind::Dot);
    if p.next_is(table, Kind::Number) {
        any(src, table, fmt, queue, out, &mut p);
        p.left_over(table, fmt);
        return;
    }
    next_path(src, table, fmt, queue, out, &mut p);
    p.left_over(table, fmt);
}

// `[` of an index.
pub fn open_index(
    src: &[u8],
    table: &[u32],
    fmt: &mut Formatter,
    queue: &mut Queue,
    out: &mut [u8],
    p: &mut Stream,
)
    ensures { Walked src table fmt queue out p (open_index (tree table)) }
{
    token(src, table, fmt, queue, out, p, Kind::OpenBracket);
    comments(src, table, fmt, queue, out, Hint::Prefix);
}

// `]` behind it.
pub fn close_index(
    src: &[u8],
    table: &[u32],
    fmt: &mut Formatter,
    queue: &mut Queue,
    out: &mut [u8],
    p: &mut Stream,
)
    ensures { Walked src table fmt queue out p (close_index (tree table)) }
{
    comments(src, table, fmt, queue, out, Hint::Suffix);
    token(src, table, fmt, queue, out, p, Kind::CloseBracket);
}

// The first link on a new line indents.
fn indent_first(
    src: &[u8],
    table: &[u32],
    fmt: &mut Formatter,
    queue: &mut Queue,
    out: &mut [u8],
    from: u32,
    n: u32,
)
    ensures { Made src table fmt queue out (indent_first from n) }
{
    if n == from {
        indent(src, table, fmt, queue, out, 1);
    }
}

// Before link n of a chain that breaks from a link on: a field or an await stands on a line of its own.
pub fn break_link(
    src: &[u8],
    table: &[u32],
    fmt: &mut Formatter,
    queue: &mut Queue,
    out: &mut [u8],
    k: RecordNo,
    from: u32,
    n: u32,
)
    ensures { Made src table fmt queue out (break_link (tree table) from n k) }
{
    if n < from {
        return;
    }
    indent_first(src, table, fmt, queue, out, from, n);
    if is_dot(kind_at(table, k)) {
        nl(src, table, fmt, queue, out, 1);
    }
}

// Behind the last of n links: back out, where one indented.
pub fn end_chain(
    src: &[u8],
    table: &[u32],
    fmt: &mut Formatter,
    queue: &mut Queue,
    out: &mut [u8],
    from: u32,
    n: u32,
)
    ensures { Made src table fmt queue out (chain_end from n) }
{
    if from < n {
        indent(src, table, fmt, queue, out, 255);
    }
}
