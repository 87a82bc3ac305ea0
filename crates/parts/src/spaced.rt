// Tokens with spaces, and the kinds that are the Rust's Expr.
ghost use Rattle.std.specs.Prelude.{◌≡◌};
ghost use Rattle.walk.specs.Stream.{tree, stream_here, stream_in, stream_out, next_is, take_if, Ate};
ghost use Rattle.walk.specs.Flow.{Walked};
ghost use Rattle.parts.specs.Spaced.{is_expr, ExpectedExpr, TookGuard, word, between};

use calls::ws;
use kinds::{Kind, KindByte, bytes};
use lent::formatter::Formatter;
use lent::ring::Queue;
use tree::record::RecordNo;
use walk::stream::Stream;
use walk::tokens::token;

// An expression is next, whether it needs a semicolon or not.
pub fn next_expr(table: &[u32], p: &Stream) -> bool
    ensures { result ≡ next_is (is_expr (tree table)) (stream_here table p) }
{
    p.next_is(table, Kind::Expr) || p.next_is(table, Kind::ExprSemi)
}

// The next record, if it is an expression.
fn eat_expr(table: &[u32], p: &mut Stream) -> Option<RecordNo>
    ensures { Ate (take_if (is_expr (tree table)) (stream_in table p)) result (stream_out table p) }
{
    if next_expr(table, p) {
        return p.take(table);
    }
    None
}

// The expression that must stand next. No Option, as in walk's `expect`: a step that finds none has refused.
pub fn expect_expr(table: &[u32], fmt: &mut Formatter, p: &mut Stream) -> RecordNo
    ensures { ExpectedExpr table fmt p result }
{
    let found = eat_expr(table, p);
    p.or_refused(table, fmt, found)
}

// What stands behind `=` or `if` in front of the `=>` of an arm: any node, or an expression. No Option, either.
pub fn take_guard(table: &[u32], fmt: &mut Formatter, p: &mut Stream, kind: u8) -> RecordNo
    ensures { TookGuard table fmt p kind result }
{
    if kind == bytes::KW_IF {
        return expect_expr(table, fmt, p);
    }
    p.pump(table, fmt)
}

// A token and a space.
pub fn word<K: KindByte>(
    src: &[u8],
    table: &[u32],
    fmt: &mut Formatter,
    queue: &mut Queue,
    out: &mut [u8],
    p: &mut Stream,
    kind: K,
)
    ensures { Walked src table fmt queue out p (word (tree table) (K.as_byte kind)) }
{
    token(src, table, fmt, queue, out, p, kind);
    ws(src, table, fmt, queue, out);
}

// A token between spaces.
pub fn between<K: KindByte>(
    src: &[u8],
    table: &[u32],
    fmt: &mut Formatter,
    queue: &mut Queue,
    out: &mut [u8],
    p: &mut Stream,
    kind: K,
)
    ensures { Walked src table fmt queue out p (between (tree table) (K.as_byte kind)) }
{
    ws(src, table, fmt, queue, out);
    token(src, table, fmt, queue, out, p, kind);
    ws(src, table, fmt, queue, out);
}
