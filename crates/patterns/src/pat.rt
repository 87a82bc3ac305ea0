// Patterns: format.rs 238 to 279, 321 to 385, 507 to 552. A cycle, in which the depth that is left falls.
ghost use Rattle.lent.specs.Loans.{Made};
ghost use Rattle.walk.specs.Stream.{tree};
ghost use Rattle.walk.specs.Flow.{Walked, parse};
ghost use Rattle.patterns.specs.Pattern.{pat, pat_child, pat_item, pat_array, pat_tuple, pat_object, object_item, colon_pat};

use crate::pat_parts::{
    close_object, close_tuple, key_or_dots, object_name, pat_attributes, pat_lit, pat_or_dots,
    path_if,
};
use calls::{write_owned, ws};
use kinds::{Kind, bytes};
use lent::formatter::Formatter;
use lent::ring::Queue;
use meaning::answer::Refusal;
use paths::path::path;
use steps::items::{Few, before_item, behind_item, close_list};
use steps::remaining::{Mark, Remaining, put, put_remaining, take_remaining};
use tree::record::RecordNo;
use tree::table::kind_at;
use walk::stream::{Stream, records_of};
use walk::tokens::{any, token};

// A pattern: its attributes, then its one child.
#[cycle(pat)]
pub fn pat(
    src: &[u8],
    table: &[u32],
    fmt: &mut Formatter,
    queue: &mut Queue,
    out: &mut [u8],
    k: RecordNo,
    depth: u32,
)
    ensures { Made src table fmt queue out (pat (tree table) depth k) }
{
    if depth == 0 {
        fmt.refuse(Refusal::TreeDeep(k));
        return;
    }
    let mut p = records_of(table, k);
    pat_attributes(src, table, fmt, queue, out, &mut p);
    let n = p.pump(table, fmt);
    pat_child(src, table, fmt, queue, out, n, depth - 1);
    p.left_over(table, fmt);
}

// The child's kind names the rule.
#[cycle(pat)]
fn pat_child(
    src: &[u8],
    table: &[u32],
    fmt: &mut Formatter,
    queue: &mut Queue,
    out: &mut [u8],
    k: RecordNo,
    depth: u32,
)
    ensures { Made src table fmt queue out (pat_child (tree table) (pat (tree table) depth) k) }
{
    let kind = kind_at(table, k);
    match kind {
        bytes::LIT => pat_lit(src, table, fmt, queue, out, k),
        bytes::PAT_IGNORE | bytes::DOTDOT => write_owned(src, table, fmt, queue, out, k),
        bytes::PATH => path(src, table, fmt, queue, out, k, 64),
        bytes::PAT_ARRAY => pat_array(src, table, fmt, queue, out, k, depth),
        bytes::PAT_TUPLE => pat_tuple(src, table, fmt, queue, out, k, depth),
        bytes::PAT_OBJECT => pat_object(src, table, fmt, queue, out, k, depth),
        _ => fmt.refuse(Refusal::WrongKind(k)),
    }
}

// `..` is written, another is a pattern.
#[cycle(pat)]
fn pat_item(
    src: &[u8],
    table: &[u32],
    fmt: &mut Formatter,
    queue: &mut Queue,
    out: &mut [u8],
    k: RecordNo,
    depth: u32,
)
    ensures { Made src table fmt queue out (pat_item (tree table) (pat (tree table) depth) k) }
{
    if kind_at(table, k) == bytes::DOTDOT {
        write_owned(src, table, fmt, queue, out, k);
        return;
    }
    pat(src, table, fmt, queue, out, k, depth);
}

// `[a, b, ..]`.
#[cycle(pat)]
pub fn pat_array(
    src: &[u8],
    table: &[u32],
    fmt: &mut Formatter,
    queue: &mut Queue,
    out: &mut [u8],
    k: RecordNo,
    depth: u32,
)
    ensures { Made src table fmt queue out (parse (tree table) (pat_array (tree table) (pat (tree table) depth)) k) }
{
    let mut p = records_of(table, k);
    token(src, table, fmt, queue, out, &mut p, Kind::OpenBracket);
    let mut comma = Remaining::Fresh;
    while pat_or_dots(table, &p) {
        before_item(src, table, fmt, queue, out, comma);
        let n = p.pump(table, fmt);
        pat_item(src, table, fmt, queue, out, n, depth);
        comma = behind_item(src, table, fmt, queue, out, &mut p);
    }
    close_list(src, table, fmt, queue, out, comma);
    token(src, table, fmt, queue, out, &mut p, Kind::CloseBracket);
    p.left_over(table, fmt);
}

// `(a, b)`, with its path, if it has one.
#[cycle(pat)]
pub fn pat_tuple(
    src: &[u8],
    table: &[u32],
    fmt: &mut Formatter,
    queue: &mut Queue,
    out: &mut [u8],
    k: RecordNo,
    depth: u32,
)
    ensures { Made src table fmt queue out (parse (tree table) (pat_tuple (tree table) (pat (tree table) depth)) k) }
{
    let mut p = records_of(table, k);
    let trailing = !p.next_is(table, Kind::Path);
    path_if(src, table, fmt, queue, out, &mut p);
    token(src, table, fmt, queue, out, &mut p, Kind::OpenParenthesis);
    let mut count = Few::Zero;
    let mut comma = Remaining::Fresh;
    while pat_or_dots(table, &p) {
        before_item(src, table, fmt, queue, out, comma);
        let n = p.pump(table, fmt);
        pat_item(src, table, fmt, queue, out, n, depth);
        comma = behind_item(src, table, fmt, queue, out, &mut p);
        count = count.more();
    }
    close_tuple(src, table, fmt, queue, out, comma, count, trailing);
    token(src, table, fmt, queue, out, &mut p, Kind::CloseParenthesis);
    p.left_over(table, fmt);
}

// `#{ a, b: c }`, or with a path in place of `#`.
#[cycle(pat)]
pub fn pat_object(
    src: &[u8],
    table: &[u32],
    fmt: &mut Formatter,
    queue: &mut Queue,
    out: &mut [u8],
    k: RecordNo,
    depth: u32,
)
    ensures { Made src table fmt queue out (parse (tree table) (pat_object (tree table) (pat (tree table) depth)) k) }
{
    let mut p = records_of(table, k);
    object_name(src, table, fmt, queue, out, &mut p);
    token(src, table, fmt, queue, out, &mut p, Kind::OpenBrace);
    let mut comma = Remaining::Fresh;
    while key_or_dots(table, &p) {
        put(src, table, fmt, queue, out, comma, Mark::Comma);
        ws(src, table, fmt, queue, out);
        object_item(src, table, fmt, queue, out, &mut p, depth);
        comma = take_remaining(table, fmt, &mut p, Mark::Comma);
    }
    close_object(src, table, fmt, queue, out, comma);
    put_remaining(src, table, fmt, queue, out, &mut p, Mark::CloseBrace);
    p.left_over(table, fmt);
}

// A key with its pattern, or `..`.
#[cycle(pat)]
fn object_item(
    src: &[u8],
    table: &[u32],
    fmt: &mut Formatter,
    queue: &mut Queue,
    out: &mut [u8],
    p: &mut Stream,
    depth: u32,
)
    ensures { Walked src table fmt queue out p (object_item (tree table) (pat (tree table) depth)) }
{
    if p.next_is(table, Kind::ObjectKey) {
        any(src, table, fmt, queue, out, p);
        colon_pat(src, table, fmt, queue, out, p, depth);
        return;
    }
    token(src, table, fmt, queue, out, p, Kind::DotDot);
}

// A colon and a pattern behind a key.
#[cycle(pat)]
fn colon_pat(
    src: &[u8],
    table: &[u32],
    fmt: &mut Formatter,
    queue: &mut Queue,
    out: &mut [u8],
    p: &mut Stream,
    depth: u32,
)
    ensures { Walked src table fmt queue out p (colon_pat (tree table) (pat (tree table) depth)) }
{
    if p.next_is(table, Kind::Colon) {
        any(src, table, fmt, queue, out, p);
        ws(src, table, fmt, queue, out);
        let k = p.expect(table, fmt, Kind::Pat);
        pat(src, table, fmt, queue, out, k, depth);
    }
}
