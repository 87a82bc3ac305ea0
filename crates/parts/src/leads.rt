// What leads to a value that may be missing, closures and jumps: format.rs 980 to 1027, 1137 to 1179.
ghost use Rattle.std.specs.Prelude.{◌≡◌};
ghost use Rattle.lent.specs.Loans.{Made};
ghost use Rattle.walk.specs.Stream.{tree, stream_here, next_is};
ghost use Rattle.walk.specs.Flow.{Walked};
ghost use Rattle.parts.specs.Leads.{jump_labels, jump_word, lead_head, lead_takes, before_value, no_value};

use crate::args::closure_args;
use crate::spaced::next_expr;
use calls::{lit, ws};
use kinds::{Kind, bytes};
use lent::formatter::Formatter;
use lent::ring::Queue;
use meaning::call::Literal;
use walk::stream::Stream;
use walk::tokens::{any, token};

// Behind `break` and `continue`.
fn jump_labels(
    src: &[u8],
    table: &[u32],
    fmt: &mut Formatter,
    queue: &mut Queue,
    out: &mut [u8],
    p: &mut Stream,
)
    ensures { Walked src table fmt queue out p (jump_labels (tree table)) }
{
    while p.next_is(table, Kind::Label) {
        ws(src, table, fmt, queue, out);
        any(src, table, fmt, queue, out, p);
    }
}

// The word of a jump, and the labels behind `break` and `continue`.
fn jump_word(
    src: &[u8],
    table: &[u32],
    fmt: &mut Formatter,
    queue: &mut Queue,
    out: &mut [u8],
    p: &mut Stream,
    kind: u8,
)
    ensures { Walked src table fmt queue out p (jump_word (tree table) kind) }
{
    match kind {
        bytes::EXPR_BREAK => {
            token(src, table, fmt, queue, out, p, Kind::Break);
            jump_labels(src, table, fmt, queue, out, p);
        }
        bytes::EXPR_CONTINUE => {
            token(src, table, fmt, queue, out, p, Kind::Continue);
            jump_labels(src, table, fmt, queue, out, p);
        }
        bytes::EXPR_RETURN => token(src, table, fmt, queue, out, p, Kind::Return),
        _ => token(src, table, fmt, queue, out, p, Kind::Yield),
    }
}

// Up to where a value may stand: the arguments of a closure, or the word of a jump.
pub fn lead_head(
    src: &[u8],
    table: &[u32],
    fmt: &mut Formatter,
    queue: &mut Queue,
    out: &mut [u8],
    p: &mut Stream,
    kind: u8,
)
    ensures { Walked src table fmt queue out p (lead_head (tree table) kind) }
{
    if kind == bytes::EXPR_CLOSURE {
        closure_args(src, table, fmt, queue, out, p);
        ws(src, table, fmt, queue, out);
        return;
    }
    jump_word(src, table, fmt, queue, out, p, kind);
}

// Whether a value stands there; `continue` takes none.
pub fn lead_takes(table: &[u32], p: &Stream, kind: u8) -> bool
    ensures { result ≡ next_is (lead_takes (tree table) kind) (stream_here table p) }
{
    kind != bytes::EXPR_CONTINUE && next_expr(table, p)
}

// The space in front of a jump's; a closure's stands there already.
pub fn before_value(
    src: &[u8],
    table: &[u32],
    fmt: &mut Formatter,
    queue: &mut Queue,
    out: &mut [u8],
    kind: u8,
)
    ensures { Made src table fmt queue out (before_value kind) }
{
    if kind == bytes::EXPR_CLOSURE {
        return;
    }
    ws(src, table, fmt, queue, out);
}

// A closure that has none gets an empty block.
pub fn no_value(
    src: &[u8],
    table: &[u32],
    fmt: &mut Formatter,
    queue: &mut Queue,
    out: &mut [u8],
    kind: u8,
)
    ensures { Made src table fmt queue out (no_value kind) }
{
    if kind == bytes::EXPR_CLOSURE {
        lit(src, table, fmt, queue, out, Literal::Braces);
    }
}
