// Modifiers: format.rs 86 to 134.
ghost use Rattle.lent.specs.Loans.{Made};
ghost use Rattle.walk.specs.Stream.{tree};
ghost use Rattle.walk.specs.Flow.{Walked, parse};
ghost use Rattle.paths.specs.Attribute.{modifier_word, modifier_in, apart, modifier, modifier_list, modifiers};

use crate::path::next_path;
use calls::{comments, write_owned, ws};
use kinds::{Kind, bytes};
use lent::formatter::Formatter;
use lent::ring::Queue;
use meaning::answer::Refusal;
use meaning::call::Hint;
use tree::record::RecordNo;
use tree::table::kind_at;
use walk::stream::{Stream, records_of};
use walk::tokens::{any, token};

// `(super)`, `(self)`, `(crate)`.
fn modifier_word(
    src: &[u8],
    table: &[u32],
    fmt: &mut Formatter,
    queue: &mut Queue,
    out: &mut [u8],
    k: RecordNo,
)
    ensures { Made src table fmt queue out (parse (tree table) (modifier_word (tree table)) k) }
{
    let mut p = records_of(table, k);
    token(src, table, fmt, queue, out, &mut p, Kind::OpenParenthesis);
    comments(src, table, fmt, queue, out, Hint::Infix);
    any(src, table, fmt, queue, out, &mut p);
    comments(src, table, fmt, queue, out, Hint::Infix);
    token(src, table, fmt, queue, out, &mut p, Kind::CloseParenthesis);
    p.left_over(table, fmt);
}

// `(in path)`.
fn modifier_in(
    src: &[u8],
    table: &[u32],
    fmt: &mut Formatter,
    queue: &mut Queue,
    out: &mut [u8],
    k: RecordNo,
)
    ensures { Made src table fmt queue out (parse (tree table) (modifier_in (tree table)) k) }
{
    let mut p = records_of(table, k);
    token(src, table, fmt, queue, out, &mut p, Kind::OpenParenthesis);
    token(src, table, fmt, queue, out, &mut p, Kind::In);
    ws(src, table, fmt, queue, out);
    next_path(src, table, fmt, queue, out, &mut p);
    token(src, table, fmt, queue, out, &mut p, Kind::CloseParenthesis);
    p.left_over(table, fmt);
}

// A space, where something stood before.
fn apart(
    src: &[u8],
    table: &[u32],
    fmt: &mut Formatter,
    queue: &mut Queue,
    out: &mut [u8],
    any: bool,
)
    ensures { Made src table fmt queue out (apart any) }
{
    if any {
        ws(src, table, fmt, queue, out);
    }
}

// One modifier, by its kind: format.rs 90 to 128.
fn modifier(
    src: &[u8],
    table: &[u32],
    fmt: &mut Formatter,
    queue: &mut Queue,
    out: &mut [u8],
    k: RecordNo,
    any: bool,
)
    ensures { Made src table fmt queue out (modifier (tree table) any k) }
{
    let kind = kind_at(table, k);
    match kind {
        bytes::MOD_SUPER | bytes::MOD_SELF | bytes::MOD_CRATE => modifier_word(
            src, table, fmt, queue, out, k,
        ),
        bytes::MOD_IN => modifier_in(src, table, fmt, queue, out, k),
        bytes::ERROR => fmt.refuse(Refusal::WrongKind(k)),
        _ => {
            apart(src, table, fmt, queue, out, any);
            write_owned(src, table, fmt, queue, out, k);
        }
    }
}

// All of them, and a space behind the last.
fn modifier_list(
    src: &[u8],
    table: &[u32],
    fmt: &mut Formatter,
    queue: &mut Queue,
    out: &mut [u8],
    k: RecordNo,
)
    ensures { Made src table fmt queue out (parse (tree table) (modifier_list (tree table)) k) }
{
    let mut p = records_of(table, k);
    let mut any = false;
    while p.has_next(table) {
        let n = p.pump(table, fmt);
        modifier(src, table, fmt, queue, out, n, any);
        any = true;
    }
    apart(src, table, fmt, queue, out, any);
    p.left_over(table, fmt);
}

// The node of all modifiers, if it is next: format.rs 85 to 134.
pub fn modifiers(
    src: &[u8],
    table: &[u32],
    fmt: &mut Formatter,
    queue: &mut Queue,
    out: &mut [u8],
    p: &mut Stream,
)
    ensures { Walked src table fmt queue out p (modifiers (tree table)) }
{
    if let Some(k) = p.eat(table, Kind::Modifiers) {
        modifier_list(src, table, fmt, queue, out, k);
    }
}
