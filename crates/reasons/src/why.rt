// The reason of a node, over what is lent: 1, 2, 3, 7 as at opening, then 11, then 9 for a node that is no list, then 8 for an object without its
// name.
ghost use Rattle.std.specs.Prelude.{◌≡◌};
ghost use Rattle.lent.specs.Loans.{script};
ghost use Rattle.meaning.specs.Opening.{opening, script_in};
ghost use Rattle.reasons.specs.Why.{is_list, is_name, of_object, of_named, why_at, why};

use entry::checks::opening;
use kinds::bytes;
use loose::reason::{Reason, why_loose};
use meaning::answer::Refusal;
use tree::cursor::{behind, children_of};
use tree::record::RecordNo;
use tree::table::{decode, first, kind_at, size};

// What `exprs` lays out: a call's arguments, an array.
fn is_list(kind: u8) -> bool
    ensures { result ≡ is_list kind }
{
    kind == bytes::EXPR_CALL || kind == bytes::EXPR_ARRAY
}

// An object's name: `#`, or a path.
fn is_name(kind: u8) -> bool
    ensures { result ≡ is_name kind }
{
    kind == bytes::ANON_KEY || kind == bytes::PATH
}

// Of object k, whose first record is `name`: only what stands behind its name decides.
fn of_named(
    src: &[u8],
    table: &[u32],
    k: RecordNo,
    name: RecordNo,
) -> Result<Option<Reason>, Refusal>
    ensures { result ≡ of_named (script src table) k name }
{
    if is_name(kind_at(table, name)) {
        return Ok(why_loose(src, table, k, behind(table, name), true));
    }
    Err(Refusal::WrongKind(name))
}

// An object without any record has no name either.
fn of_object(src: &[u8], table: &[u32], k: RecordNo) -> Result<Option<Reason>, Refusal>
    ensures { result ≡ of_object (script src table) k }
{
    let f = children_of(table, k).peek(table);
    match f {
        Some(name) => of_named(src, table, k, name),
        None => Err(Refusal::WrongKind(k)),
    }
}

// Over a source and a decoded tree that were opened: the reason, if there is one, or the refusal.
pub fn why_at(src: &[u8], table: &[u32], k: RecordNo) -> Result<Option<Reason>, Refusal>
    ensures { result ≡ why_at (script src table) k }
{
    if size(table).0 <= k.0 {
        return Err(Refusal::NoNode(k));
    }
    let kind = kind_at(table, k);
    if is_list(kind) {
        return Ok(why_loose(src, table, k, children_of(table, k).at, false));
    }
    if kind == bytes::EXPR_OBJECT {
        return of_object(src, table, k);
    }
    Err(Refusal::NoRule(k))
}

// Over bytes that opening let in.
fn of_opened(source: &[u8], tree: &[u8], k: RecordNo) -> Result<Option<Reason>, Refusal>
    requires { opening source.now tree.now ≡ Ok tt }
    ensures { result ≡ why_at (script_in source.now tree.now) k }
{
    let mut words = [0u32; 32768];
    let n = decode(tree, &mut words);
    why_at(source, first(&words, n), k)
}

// Over any bytes.
#[tactic(auto, unfolding(crate::specs::Why::why))]
pub fn why_in(source: &[u8], tree: &[u8], k: RecordNo) -> Result<Option<Reason>, Refusal>
    ensures { result ≡ why source.now tree.now k }
{
    opening(source, tree)?;
    of_opened(source, tree, k)
}
