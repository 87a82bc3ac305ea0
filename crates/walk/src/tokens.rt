// Tokens that are written as they stand.
ghost use Rattle.walk.specs.Stream.{tree};
ghost use Rattle.walk.specs.Flow.{Walked, write, spaced, expect_byte, eat_byte, pump};

use crate::stream::Stream;
use calls::{write_owned, ws};
use kinds::KindByte;
use lent::formatter::Formatter;
use lent::ring::Queue;

// `p.expect(K)?.fmt(fmt)?` and `p.one(K).fmt(fmt)?`.
pub fn token<K: KindByte>(
    src: &[u8],
    table: &[u32],
    fmt: &mut Formatter,
    queue: &mut Queue,
    out: &mut [u8],
    p: &mut Stream,
    kind: K,
)
    ensures { Walked src table fmt queue out p (expect_byte (tree table) (K.as_byte kind) write) }
{
    let k = p.expect(table, fmt, kind);
    write_owned(src, table, fmt, queue, out, k);
}

// `p.pump()?.fmt(fmt)?`.
pub fn any(
    src: &[u8],
    table: &[u32],
    fmt: &mut Formatter,
    queue: &mut Queue,
    out: &mut [u8],
    p: &mut Stream,
)
    ensures { Walked src table fmt queue out p (pump write) }
{
    let k = p.pump(table, fmt);
    write_owned(src, table, fmt, queue, out, k);
}

// `p.eat(K).fmt(fmt)?`.
pub fn token_if<K: KindByte>(
    src: &[u8],
    table: &[u32],
    fmt: &mut Formatter,
    queue: &mut Queue,
    out: &mut [u8],
    p: &mut Stream,
    kind: K,
)
    ensures { Walked src table fmt queue out p (eat_byte (tree table) (K.as_byte kind) write) }
{
    if let Some(k) = p.eat(table, kind) {
        write_owned(src, table, fmt, queue, out, k);
    }
}

// A space and the token, if it is there.
pub fn spaced_if<K: KindByte>(
    src: &[u8],
    table: &[u32],
    fmt: &mut Formatter,
    queue: &mut Queue,
    out: &mut [u8],
    p: &mut Stream,
    kind: K,
)
    ensures { Walked src table fmt queue out p (eat_byte (tree table) (K.as_byte kind) spaced) }
{
    if let Some(k) = p.eat(table, kind) {
        ws(src, table, fmt, queue, out);
        write_owned(src, table, fmt, queue, out, k);
    }
}
