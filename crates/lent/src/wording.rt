// The text that a call writes: a part of the source or of the list of literals.
ghost use Rattle.std.specs.Prelude.{◌≡◌};
ghost use Rattle.tree.specs.Records.{span_of};
ghost use Rattle.lent.specs.Wording.{lit_span, wording_of};

use meaning::call::Literal;
use text::span::{BytePos, Span, part};

#[derive(Clone, Copy)]
pub enum Wording {
    Node(Span),
    Literal(Literal),
}

// All literals in a row, in the order of document 01's list.
pub const LITERALS: [u8; 11] = *b"{}||(){},;:";

fn from_to(start: u32, end: u32) -> Span
    ensures { result ≡ span_of start end }
{
    Span {
        start: BytePos(start),
        end: BytePos(end),
    }
}

// Where a literal stands in the list. No `From<Literal> for Span`: both types are of crates below, and the place is one in this list alone.
fn lit_span(l: Literal) -> Span
    ensures { result ≡ lit_span l }
{
    match l {
        Literal::Braces => from_to(0, 2),
        Literal::Bars => from_to(2, 4),
        Literal::Parens => from_to(4, 6),
        Literal::OpenBrace => from_to(6, 7),
        Literal::CloseBrace => from_to(7, 8),
        Literal::Comma => from_to(8, 9),
        Literal::Semicolon => from_to(9, 10),
        Literal::Colon => from_to(10, 11),
    }
}

// The words themselves, from whichever of the two has them.
pub fn text<'a>(source: &'a [u8], literals: &'a [u8], w: Wording) -> &'a [u8]
    ensures { result.now ≡ wording_of source.now literals.now w }
{
    match w {
        Wording::Node(span) => part(source, span),
        Wording::Literal(l) => part(literals, lit_span(l)),
    }
}
