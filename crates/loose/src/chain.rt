// Where a chain breaks: format.rs 1182 to 1229.
ghost use Rattle.std.specs.Prelude.{◌≡◌};
ghost use Rattle.tree.specs.Table.{tree_of};
ghost use Rattle.tree.specs.Cursor.{found_of};
ghost use Rattle.lent.specs.Loans.{script};
ghost use Rattle.loose.specs.Chain.{is_dot, behind_head, tail_in, dot_behind, head_of, first_in, breaks_at, chain_from};

use crate::wide::is_wide;
use kinds::bytes;
use text::span::Span;
use tree::cursor::behind;
use tree::record::RecordNo;
use tree::table::{kind_at, node};

// The first call behind the head, and how many records stand there as far as it, it among them.
#[derive(Clone, Copy)]
struct Call {
    nth: u32,
    at: RecordNo,
}

// A field or an await.
pub fn is_dot(kind: u8) -> bool
    ensures { result ≡ is_dot kind }
{
    kind == bytes::EXPR_FIELD || kind == bytes::EXPR_AWAIT
}

// The first call behind the head of chain k. White space and comments are counted, too.
fn first_call(table: &[u32], k: RecordNo, head: RecordNo) -> Option<Call>
    ensures { result ≡ tail_in (tree_of table.now) 1 (behind_head (tree_of table.now) k head) }
{
    let end = behind(table, k);
    let mut nth: u32 = 1;
    let mut at = behind(table, head);
    // no range: a step passes all records below one
    while at.0 < end.0 {
        if kind_at(table, at) == bytes::EXPR_CALL {
            return Some(Call { nth, at });
        }
        nth += 1;
        at = behind(table, at);
    }
    None
}

// Whether a field or an await stands behind the first n records behind the head of chain k.
fn dot_behind(table: &[u32], k: RecordNo, head: RecordNo, n: u32) -> bool
    ensures { result ≡ dot_behind (tree_of table.now) n (behind_head (tree_of table.now) k head) }
{
    let end = behind(table, k);
    let mut left = n;
    let mut at = behind(table, head);
    // no range: a step passes all records below one
    while at.0 < end.0 {
        if left == 0 && is_dot(kind_at(table, at)) {
            return true;
        }
        left = left.saturating_sub(1);
        at = behind(table, at);
    }
    false
}

// The head's span, as far as the first call.
fn head_span(table: &[u32], head: RecordNo, call: Option<Call>) -> Span
    ensures { result ≡ head_of (tree_of table.now) head call }
{
    let span = node(table, head).span;
    match call {
        Some(c) => span.join(node(table, c.at).span.head()),
        None => span,
    }
}

// How many records stand as far as the first call; 1 where there is none, as the Rust counts.
fn first(call: Option<Call>) -> u32
    ensures { result ≡ first_in call }
{
    call.map_or(1, |c| c.nth)
}

// The link from which on a wide chain breaks.
fn breaks_at(src: &[u8], table: &[u32], k: RecordNo, head: RecordNo) -> u32
    ensures { result ≡ breaks_at (script src table) head (behind_head (tree_of table.now) k head) }
{
    let call = first_call(table, k, head);
    let n = first(call);
    if is_wide(src, head_span(table, head, call), 80) || dot_behind(table, k, head, n) {
        return 0;
    }
    n
}

// The link of chain k from which on it breaks, 8,192 where it does not. No Option in or out: by definition `found_of` a head of 8,192 is none,
// and definition `chain_from`, which a link's number is held against, answers 8192 where a chain does not break. The call's number counts
// white space and comments, and stands for a count of links, which passes them over: so it does in the Rust.
pub fn chain_from(src: &[u8], table: &[u32], k: RecordNo, head: RecordNo) -> u32
    ensures { result ≡ chain_from (script src table) k (found_of head) }
{
    if head.0 < 8192 && is_wide(src, node(table, k).span, 80) {
        return breaks_at(src, table, k, head);
    }
    8192
}
