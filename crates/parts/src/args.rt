// The arguments of closures and functions, and what a `let` binds: format.rs 227 to 231, 968 to 972, 1044 to 1051, 1138 to 1167, 1449 to 1451.
ghost use Rattle.std.specs.Prelude.{◌≡◌};
ghost use Rattle.kinds.specs.declared.Kind.{Kind};
ghost use Rattle.lent.specs.Loans.{Made};
ghost use Rattle.walk.specs.Stream.{tree};
ghost use Rattle.walk.specs.Flow.{Walked, expect, parse};
ghost use Rattle.patterns.specs.Pattern.{pat};
ghost use Rattle.parts.specs.Args.{default_or_pat, case_pat, arm_pat, guard_kind, barred, closure_args, args_of, let_pat, for_in};

use crate::spaced::{between, word};
use calls::{comments, lit, nl};
use kinds::{Kind, bytes};
use lent::formatter::Formatter;
use lent::ring::Queue;
use meaning::call::{Hint, Literal};
use patterns::fn_args::fn_args;
use patterns::pat::pat;
use steps::items::{before_item, behind_item, close_list};
use steps::remaining::Remaining;
use tree::record::RecordNo;
use walk::stream::{Stream, records_of};
use walk::tokens::{any, token};

// The pattern that must stand next.
fn next_pat(
    src: &[u8],
    table: &[u32],
    fmt: &mut Formatter,
    queue: &mut Queue,
    out: &mut [u8],
    p: &mut Stream,
)
    ensures { Walked src table fmt queue out p (expect (tree table) Kind.Pat (pat (tree table) 64)) }
{
    let k = p.expect(table, fmt, Kind::Pat);
    pat(src, table, fmt, queue, out, k, 64);
}

// `default`, or a pattern.
fn default_or_pat(
    src: &[u8],
    table: &[u32],
    fmt: &mut Formatter,
    queue: &mut Queue,
    out: &mut [u8],
    p: &mut Stream,
)
    ensures { Walked src table fmt queue out p (default_or_pat (tree table)) }
{
    if p.next_is(table, Kind::Default) {
        token(src, table, fmt, queue, out, p, Kind::Default);
        return;
    }
    next_pat(src, table, fmt, queue, out, p);
}

// The pattern of a match arm, on a line of its own.
fn case_pat(
    src: &[u8],
    table: &[u32],
    fmt: &mut Formatter,
    queue: &mut Queue,
    out: &mut [u8],
    p: &mut Stream,
)
    ensures { Walked src table fmt queue out p (case_pat (tree table)) }
{
    nl(src, table, fmt, queue, out, 1);
    comments(src, table, fmt, queue, out, Hint::Line);
    next_pat(src, table, fmt, queue, out, p);
}

// What an arm begins with, of a match or of a select.
pub fn arm_pat(
    src: &[u8],
    table: &[u32],
    fmt: &mut Formatter,
    queue: &mut Queue,
    out: &mut [u8],
    p: &mut Stream,
    in_match: bool,
)
    ensures { Walked src table fmt queue out p (arm_pat (tree table) in_match) }
{
    if in_match {
        case_pat(src, table, fmt, queue, out, p);
        return;
    }
    default_or_pat(src, table, fmt, queue, out, p);
}

// The token between an arm's pattern and its value or guard; a byte, since a function of the cycle hands it on, and none has a type parameter.
#[tactic(auto, unfolding(kinds::specs::Facts::byte_of, kinds::specs::Facts::facts_of))]
pub fn guard_kind(in_match: bool) -> u8
    ensures { result ≡ guard_kind in_match }
{
    if in_match { bytes::KW_IF } else { bytes::EQ }
}

// `||` or `|a, b|`.
fn bars(
    src: &[u8],
    table: &[u32],
    fmt: &mut Formatter,
    queue: &mut Queue,
    out: &mut [u8],
    k: RecordNo,
)
    ensures { Made src table fmt queue out (parse (tree table) (barred (tree table)) k) }
{
    let mut p = records_of(table, k);
    if p.next_is(table, Kind::PipePipe) {
        any(src, table, fmt, queue, out, &mut p);
        p.left_over(table, fmt);
        return;
    }
    token(src, table, fmt, queue, out, &mut p, Kind::Pipe);
    let mut comma = Remaining::Fresh;
    while p.next_is(table, Kind::Pat) {
        before_item(src, table, fmt, queue, out, comma);
        let n = p.pump(table, fmt);
        pat(src, table, fmt, queue, out, n, 64);
        comma = behind_item(src, table, fmt, queue, out, &mut p);
    }
    close_list(src, table, fmt, queue, out, comma);
    token(src, table, fmt, queue, out, &mut p, Kind::Pipe);
    p.left_over(table, fmt);
}

// Those of a closure; `||` where there are none.
pub fn closure_args(
    src: &[u8],
    table: &[u32],
    fmt: &mut Formatter,
    queue: &mut Queue,
    out: &mut [u8],
    p: &mut Stream,
)
    ensures { Walked src table fmt queue out p (closure_args (tree table)) }
{
    if p.next_is(table, Kind::ClosureArguments) {
        let k = p.pump(table, fmt);
        bars(src, table, fmt, queue, out, k);
        return;
    }
    lit(src, table, fmt, queue, out, Literal::Bars);
}

// Those of a function; `()` where there are none.
pub fn args_of(
    src: &[u8],
    table: &[u32],
    fmt: &mut Formatter,
    queue: &mut Queue,
    out: &mut [u8],
    p: &mut Stream,
)
    ensures { Walked src table fmt queue out p (args_of (tree table)) }
{
    if p.next_is(table, Kind::FnArgs) {
        let k = p.pump(table, fmt);
        fn_args(src, table, fmt, queue, out, k);
        return;
    }
    lit(src, table, fmt, queue, out, Literal::Parens);
}

// `let`, a pattern, `=`.
pub fn let_pat(
    src: &[u8],
    table: &[u32],
    fmt: &mut Formatter,
    queue: &mut Queue,
    out: &mut [u8],
    p: &mut Stream,
)
    ensures { Walked src table fmt queue out p (let_pat (tree table)) }
{
    word(src, table, fmt, queue, out, p, Kind::Let);
    next_pat(src, table, fmt, queue, out, p);
    between(src, table, fmt, queue, out, p, Kind::Eq);
}

// `for`, a pattern, `in`.
pub fn for_in(
    src: &[u8],
    table: &[u32],
    fmt: &mut Formatter,
    queue: &mut Queue,
    out: &mut [u8],
    p: &mut Stream,
)
    ensures { Walked src table fmt queue out p (for_in (tree table)) }
{
    word(src, table, fmt, queue, out, p, Kind::For);
    next_pat(src, table, fmt, queue, out, p);
    between(src, table, fmt, queue, out, p, Kind::In);
}
