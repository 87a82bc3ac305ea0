// What stands in front of the block or the value of items and locals: format.rs 206 to 232, 1441 to 1455, 1544 to 1570.
ghost use Rattle.walk.specs.Stream.{tree};
ghost use Rattle.walk.specs.Flow.{Walked};
ghost use Rattle.parts.specs.Heads.{fn_head, impl_head, mod_head, const_head, item_head, let_head};

use crate::args::{args_of, let_pat};
use crate::spaced::{between, word};
use bodies::body::{item_enum, item_struct};
use calls::ws;
use kinds::{Kind, bytes};
use lent::formatter::Formatter;
use lent::ring::Queue;
use paths::attribute::attributes;
use paths::modifier::modifiers;
use paths::path::next_path;
use uses::item_use::item_use;
use walk::stream::Stream;
use walk::tokens::{any, spaced_if, token};

// `fn`, its name, its arguments.
fn fn_head(
    src: &[u8],
    table: &[u32],
    fmt: &mut Formatter,
    queue: &mut Queue,
    out: &mut [u8],
    p: &mut Stream,
)
    ensures { Walked src table fmt queue out p (fn_head (tree table)) }
{
    token(src, table, fmt, queue, out, p, Kind::Fn);
    spaced_if(src, table, fmt, queue, out, p, Kind::Ident);
    args_of(src, table, fmt, queue, out, p);
    ws(src, table, fmt, queue, out);
}

// `impl` and a path.
fn impl_head(
    src: &[u8],
    table: &[u32],
    fmt: &mut Formatter,
    queue: &mut Queue,
    out: &mut [u8],
    p: &mut Stream,
)
    ensures { Walked src table fmt queue out p (impl_head (tree table)) }
{
    word(src, table, fmt, queue, out, p, Kind::Impl);
    next_path(src, table, fmt, queue, out, p);
    ws(src, table, fmt, queue, out);
}

// `mod` and its name.
fn mod_head(
    src: &[u8],
    table: &[u32],
    fmt: &mut Formatter,
    queue: &mut Queue,
    out: &mut [u8],
    p: &mut Stream,
)
    ensures { Walked src table fmt queue out p (mod_head (tree table)) }
{
    word(src, table, fmt, queue, out, p, Kind::Mod);
    any(src, table, fmt, queue, out, p);
}

// The name of a const and `=`; the word `const` stands in its modifiers.
fn const_head(
    src: &[u8],
    table: &[u32],
    fmt: &mut Formatter,
    queue: &mut Queue,
    out: &mut [u8],
    p: &mut Stream,
)
    ensures { Walked src table fmt queue out p (const_head (tree table)) }
{
    any(src, table, fmt, queue, out, p);
    between(src, table, fmt, queue, out, p, Kind::Eq);
}

// All that stands in front of an item's block or value, or the whole item where it has neither.
pub fn item_head(
    src: &[u8],
    table: &[u32],
    fmt: &mut Formatter,
    queue: &mut Queue,
    out: &mut [u8],
    p: &mut Stream,
    kind: u8,
)
    ensures { Walked src table fmt queue out p (item_head (tree table) kind) }
{
    match kind {
        bytes::ITEM_STRUCT => item_struct(src, table, fmt, queue, out, p),
        bytes::ITEM_ENUM => item_enum(src, table, fmt, queue, out, p),
        bytes::ITEM_FN => fn_head(src, table, fmt, queue, out, p),
        bytes::ITEM_USE => item_use(src, table, fmt, queue, out, p),
        bytes::ITEM_IMPL => impl_head(src, table, fmt, queue, out, p),
        bytes::ITEM_CONST => const_head(src, table, fmt, queue, out, p),
        _ => mod_head(src, table, fmt, queue, out, p),
    }
}

// `let`, a pattern, `=`: of a condition, or of a local with its attributes and modifiers.
pub fn let_head(
    src: &[u8],
    table: &[u32],
    fmt: &mut Formatter,
    queue: &mut Queue,
    out: &mut [u8],
    p: &mut Stream,
    local: bool,
)
    ensures { Walked src table fmt queue out p (let_head (tree table) local) }
{
    if local {
        attributes(src, table, fmt, queue, out, p);
        modifiers(src, table, fmt, queue, out, p);
        let_pat(src, table, fmt, queue, out, p);
        return;
    }
    let_pat(src, table, fmt, queue, out, p);
}
