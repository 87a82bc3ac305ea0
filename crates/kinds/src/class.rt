// What the rules ask of a kind.
ghost use Rattle.std.specs.Prelude.{◌≡◌};
ghost use Rattle.kinds.specs.Kinds.{kind_of};
ghost use Rattle.kinds.specs.Facts.{class_of, needs_semi, has_rule, is_expr};

use crate::{Kind, bytes};

// The class of a statement, by which `block_content` sets blank lines. None: no kind of statement. (A composite of such a kind still runs as
// one, of class Other.) An Option of the four is no plainer: blank lines are set by a None too, in the same `match` as by the others.
#[derive(Clone, Copy, PartialEq, Eq)]
pub enum Class {
    Item,
    Const,
    Local,
    Other,
    None,
}

#[tactic(auto, using(crate::proofs::Lookup::own_byte))]
pub fn class_of(kind: Kind) -> Class
    ensures { result ≡ class_of kind }
{
    class_at(kind.byte())
}

#[tactic(auto, using(crate::proofs::Lookup::own_byte))]
pub fn needs_semi(kind: Kind) -> bool
    ensures { result ≡ needs_semi kind }
{
    semi_at(kind.byte())
}

// The class of a statement by its byte, without the way over its kind: a block asks at each of its statements.
pub fn class_at(byte: u8) -> Class
    ensures { result ≡ class_of (kind_of byte) }
{
    match byte {
        bytes::ITEM | bytes::ITEM_SEMI => Class::Item,
        bytes::CONST_STMT | bytes::CONST_SEMI => Class::Const,
        bytes::LOCAL | bytes::LOCAL_SEMI => Class::Local,
        bytes::EXPR | bytes::EXPR_SEMI => Class::Other,
        _ => Class::None,
    }
}

// Whether a semicolon is needed, by the statement's byte.
pub fn semi_at(byte: u8) -> bool
    ensures { result ≡ needs_semi (kind_of byte) }
{
    matches!(
        byte,
        bytes::ITEM_SEMI | bytes::CONST_SEMI | bytes::LOCAL_SEMI | bytes::EXPR_SEMI
    )
}

// The Rust's Expr, with or without a semicolon needed.
#[tactic(auto, unfolding(crate::specs::Facts::is_expr, crate::specs::Facts::class_of, crate::specs::Facts::facts_of))]
pub fn is_expr(kind: Kind) -> bool
    ensures { result ≡ is_expr kind }
{
    matches!(kind, Kind::Expr | Kind::ExprSemi)
}

// Whether a layout run on a node of this kind has a rule; without one it is refusal 9.
#[tactic(auto, unfolding(crate::specs::Facts::has_rule, crate::specs::Facts::facts_of))]
pub fn has_rule(kind: Kind) -> bool
    ensures { result ≡ has_rule kind }
{
    matches!(
        kind,
        Kind::BlockBody
            | Kind::Block
            | Kind::Item
            | Kind::ItemSemi
            | Kind::ConstStmt
            | Kind::ConstSemi
            | Kind::Local
            | Kind::LocalSemi
            | Kind::Expr
            | Kind::ExprSemi
            | Kind::ItemStruct
            | Kind::ItemEnum
            | Kind::ItemFn
            | Kind::ItemUse
            | Kind::ItemImpl
            | Kind::ItemMod
            | Kind::ItemFileMod
            | Kind::ItemConst
            | Kind::ItemUsePath
            | Kind::ItemUseGroup
            | Kind::Variant
            | Kind::StructBody
            | Kind::TupleBody
            | Kind::FnArgs
            | Kind::Path
            | Kind::PathGenerics
            | Kind::Pat
            | Kind::PatArray
            | Kind::PatTuple
            | Kind::PatObject
            | Kind::Lit
            | Kind::TemplateString
            | Kind::ExprAssign
            | Kind::ExprArray
            | Kind::ExprTuple
            | Kind::ExprObject
            | Kind::ExprBinary
            | Kind::ExprUnary
            | Kind::ExprGroup
            | Kind::ExprEmptyGroup
            | Kind::ExprIf
            | Kind::Condition
            | Kind::ExprWhile
            | Kind::ExprLoop
            | Kind::ExprFor
            | Kind::ExprBreak
            | Kind::ExprContinue
            | Kind::ExprReturn
            | Kind::ExprYield
            | Kind::ExprSelect
            | Kind::ExprMatch
            | Kind::ExprRangeFull
            | Kind::ExprRangeFrom
            | Kind::ExprRangeTo
            | Kind::ExprRangeToInclusive
            | Kind::ExprRange
            | Kind::ExprRangeInclusive
            | Kind::ExprClosure
            | Kind::ExprChain
            | Kind::ExprCall
    )
}
