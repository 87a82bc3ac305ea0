// Kinds that share a rule, or a place in one.
#![tactic(auto, unfolding(crate::specs::Sorts::is_range, crate::specs::Sorts::is_prefix, crate::specs::Sorts::is_loop, crate::specs::Sorts::is_lead, crate::specs::Sorts::is_item, crate::specs::Sorts::is_let, crate::specs::Sorts::is_stmt, crate::specs::Sorts::is_decl, kinds::specs::Facts::byte_of, kinds::specs::Facts::facts_of))]

ghost use Rattle.std.specs.Prelude.{◌≡◌};
ghost use Rattle.parts.specs.Sorts.{is_range, is_prefix, is_loop, is_lead, is_item, is_let, is_stmt, is_decl};

use kinds::bytes;

// An operator with an operand behind it, before it, or both.
pub fn is_range(kind: u8) -> bool
    ensures { result ≡ is_range kind }
{
    is_prefix(kind)
        || kind == bytes::RANGE_FROM
        || kind == bytes::RANGE
        || kind == bytes::RANGE_INCL
}

// An operator that stands before its operand.
pub fn is_prefix(kind: u8) -> bool
    ensures { result ≡ is_prefix kind }
{
    kind == bytes::EXPR_UNARY || kind == bytes::RANGE_TO || kind == bytes::RANGE_TO_INCL
}

// `while`, `loop`, `for`.
pub fn is_loop(kind: u8) -> bool
    ensures { result ≡ is_loop kind }
{
    kind == bytes::EXPR_WHILE || kind == bytes::EXPR_LOOP || kind == bytes::EXPR_FOR
}

// Closures and jumps: `break`, `continue`, `return`, `yield`.
pub fn is_lead(kind: u8) -> bool
    ensures { result ≡ is_lead kind }
{
    matches!(
        kind,
        bytes::EXPR_CLOSURE
            | bytes::EXPR_BREAK
            | bytes::EXPR_CONTINUE
            | bytes::EXPR_RETURN
            | bytes::EXPR_YIELD
    )
}

// The statements that hold an item; a const goes as one.
pub fn is_item(kind: u8) -> bool
    ensures { result ≡ is_item kind }
{
    kind == bytes::ITEM
        || kind == bytes::ITEM_SEMI
        || kind == bytes::CONST_STMT
        || kind == bytes::CONST_SEMI
}

// The statements that are a `let`.
pub fn is_let(kind: u8) -> bool
    ensures { result ≡ is_let kind }
{
    kind == bytes::LOCAL || kind == bytes::LOCAL_SEMI
}

// A statement of a block: one of the eight kinds 90 to 97.
pub fn is_stmt(kind: u8) -> bool
    ensures { result ≡ is_stmt kind }
{
    bytes::ITEM <= kind && kind <= bytes::EXPR_SEMI
}

// An item's own node: one of the eight kinds 98 to 9F.
pub fn is_decl(kind: u8) -> bool
    ensures { result ≡ is_decl kind }
{
    bytes::ITEM_STRUCT <= kind && kind <= bytes::ITEM_CONST
}
