// What stands in patterns and leads to no pattern.
ghost use Rattle.std.specs.Prelude.{◌≡◌};
ghost use Rattle.kinds.specs.declared.Kind.{Kind};
ghost use Rattle.lent.specs.Loans.{Made};
ghost use Rattle.walk.specs.Stream.{tree, stream_here, next_is};
ghost use Rattle.walk.specs.Flow.{Walked, eat, parse};
ghost use Rattle.steps.specs.Remaining.{remaining_of};
ghost use Rattle.paths.specs.Path.{path};
ghost use Rattle.patterns.specs.Pattern.{pat_attributes, pat_lit, pat_or_dots, tuple_end, object_name, key_or_dots, object_closing};

use calls::{comments, ws};
use kinds::Kind;
use lent::formatter::Formatter;
use lent::ring::Queue;
use meaning::call::Hint;
use paths::path::{next_path, path};
use steps::items::Few;
use steps::remaining::{Mark, Remaining, pass, write_only_if};
use tree::record::RecordNo;
use walk::stream::{Stream, records_of};
use walk::tokens::{any, token, token_if};

// Attributes in front of a pattern stay on its line. Inlined: every pattern asks, and most have none.
#[inline(always)]
pub fn pat_attributes(
    src: &[u8],
    table: &[u32],
    fmt: &mut Formatter,
    queue: &mut Queue,
    out: &mut [u8],
    p: &mut Stream,
)
    ensures { Walked src table fmt queue out p (pat_attributes (tree table)) }
{
    while p.next_is(table, Kind::Attribute) {
        any(src, table, fmt, queue, out, p);
        ws(src, table, fmt, queue, out);
    }
}

// A literal, with the dash that may stand before it.
pub fn pat_lit(
    src: &[u8],
    table: &[u32],
    fmt: &mut Formatter,
    queue: &mut Queue,
    out: &mut [u8],
    k: RecordNo,
)
    ensures { Made src table fmt queue out (parse (tree table) (pat_lit (tree table)) k) }
{
    let mut p = records_of(table, k);
    token_if(src, table, fmt, queue, out, &mut p, Kind::Dash);
    any(src, table, fmt, queue, out, &mut p);
    p.left_over(table, fmt);
}

// A pattern or `..` is next.
pub fn pat_or_dots(table: &[u32], p: &Stream) -> bool
    ensures { result ≡ next_is (pat_or_dots (tree table)) (stream_here table p) }
{
    p.next_is(table, Kind::Pat) || p.next_is(table, Kind::DotDot)
}

// The path in front of a tuple, if it has one.
pub fn path_if(
    src: &[u8],
    table: &[u32],
    fmt: &mut Formatter,
    queue: &mut Queue,
    out: &mut [u8],
    p: &mut Stream,
)
    ensures { Walked src table fmt queue out p (eat (tree table) Kind.Path (path (tree table) 64)) }
{
    if let Some(k) = p.eat(table, Kind::Path) {
        path(src, table, fmt, queue, out, k, 64);
    }
}

// Behind the last item: the comma of a single one may stay.
pub fn close_tuple(
    src: &[u8],
    table: &[u32],
    fmt: &mut Formatter,
    queue: &mut Queue,
    out: &mut [u8],
    comma: Remaining,
    count: Few,
    trailing: bool,
)
    ensures { Made src table fmt queue out (tuple_end trailing count (remaining_of Mark.Comma comma)) }
{
    match count {
        Few::Zero => {
            pass(src, table, fmt, queue, out, comma);
            comments(src, table, fmt, queue, out, Hint::Infix);
        }
        Few::One => write_only_if(src, table, fmt, queue, out, comma, Mark::Comma, trailing),
        Few::Many => pass(src, table, fmt, queue, out, comma),
    }
}

// `#`, or a path and a space.
pub fn object_name(
    src: &[u8],
    table: &[u32],
    fmt: &mut Formatter,
    queue: &mut Queue,
    out: &mut [u8],
    p: &mut Stream,
)
    ensures { Walked src table fmt queue out p (object_name (tree table)) }
{
    if p.next_is(table, Kind::AnonymousObjectKey) {
        token(src, table, fmt, queue, out, p, Kind::AnonymousObjectKey);
        return;
    }
    next_path(src, table, fmt, queue, out, p);
    ws(src, table, fmt, queue, out);
}

// A key or `..` is next.
pub fn key_or_dots(table: &[u32], p: &Stream) -> bool
    ensures { result ≡ next_is (key_or_dots (tree table)) (stream_here table p) }
{
    p.next_is(table, Kind::ObjectKey) || p.next_is(table, Kind::DotDot)
}

// Behind the last key: a space, or comments where there is none.
pub fn close_object(
    src: &[u8],
    table: &[u32],
    fmt: &mut Formatter,
    queue: &mut Queue,
    out: &mut [u8],
    comma: Remaining,
)
    ensures { Made src table fmt queue out (object_closing (remaining_of Mark.Comma comma)) }
{
    pass(src, table, fmt, queue, out, comma);
    if comma.says() {
        ws(src, table, fmt, queue, out);
        return;
    }
    comments(src, table, fmt, queue, out, Hint::Infix);
}
