// Why a list goes loose, if it does: format.rs 431 to 441 and 784 to 794.
ghost use Rattle.std.specs.Prelude.{◌≡◌};
ghost use Rattle.tree.specs.Table.{tree_of};
ghost use Rattle.lent.specs.Loans.{script};
ghost use Rattle.loose.specs.Reason.{is_entry, crowd, children_from, reason, is_loose};

use crate::wide::is_wide;
use kinds::bytes;
use text::span::BytePos;
use tree::cursor::behind;
use tree::record::RecordNo;
use tree::table::{kind_at, node};
use width::place::place_in;

// The node's span is too wide, by the character at this place; a line comment stands among its records; or a sixth entry does.
#[derive(Clone, Copy)]
pub enum Reason {
    Wide(BytePos),
    Comment(RecordNo),
    Sixth(RecordNo),
}

// An entry that counts among the six: a key, or the Rust's Expr.
fn is_entry(kind: u8, keys: bool) -> bool
    ensures { result ≡ is_entry keys kind }
{
    if keys {
        kind == bytes::OBJ_KEY
    } else {
        kind == bytes::EXPR || kind == bytes::EXPR_SEMI
    }
}

// Of the records of node k from one on: the first line comment or the sixth entry, whichever comes first.
fn crowd(table: &[u32], k: RecordNo, from: RecordNo, keys: bool) -> Option<Reason>
    ensures { result ≡ crowd (tree_of table.now) keys 0 (children_from (tree_of table.now) k from.0) }
{
    let end = behind(table, k);
    let mut entries: u32 = 0;
    let mut at = from;
    // no range: a step passes all records below one
    while at.0 < end.0 {
        let kind = kind_at(table, at);
        if kind == bytes::LINE_COMMENT {
            return Some(Reason::Comment(at));
        }
        if is_entry(kind, keys) {
            if entries == 5 {
                return Some(Reason::Sixth(at));
            }
            entries += 1;
        }
        at = behind(table, at);
    }
    None
}

// The span of node k first, then its records from one on.
pub fn why_loose(
    src: &[u8],
    table: &[u32],
    k: RecordNo,
    from: RecordNo,
    keys: bool,
) -> Option<Reason>
    ensures { result ≡ reason (script src table) keys k from.0 }
{
    let span = node(table, k).span;
    if is_wide(src, span, 80) {
        return Some(Reason::Wide(place_in(src, span, 80)));
    }
    crowd(table, k, from, keys)
}

// Whether there is a reason. The place of the 81st character is not looked for.
pub fn goes_loose(src: &[u8], table: &[u32], k: RecordNo, from: RecordNo, keys: bool) -> bool
    ensures { result ≡ is_loose (reason (script src table) keys k from.0) }
{
    is_wide(src, node(table, k).span, 80) || crowd(table, k, from, keys).is_some()
}
