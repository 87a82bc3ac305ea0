// A call record read from its bytes: kind and body whole, with nothing behind them.
ghost use Rattle.std.specs.Prelude.{◌≡◌, ◌∷◌, [], map, ◌<◌, length, drop};
ghost use Rattle.tree.specs.Records.{four};
ghost use Rattle.meaning.specs.CallRecord.{decode, at, literals, hints};
ghost use Rattle.entry.specs.Served.{as_call, numbered};

use meaning::call::{Call, Hint, Literal};
use tree::record::RecordNo;

// Kinds without a body.
fn bare(kind: u8) -> Option<Call>
    ensures { as_call result ≡ decode (kind ∷ []) }
{
    match kind {
        0x08 => Some(Call::Ws),
        0x0A => Some(Call::FlushPrefixComments),
        0x0B => Some(Call::Finish),
        _ => None,
    }
}

// By hand and no `TryFrom<u8> for Literal`: the clause is over the call, and over the list that the format of call records has.
fn literal(b: u8) -> Option<Call>
    ensures { as_call result ≡ at (map Call.Lit literals) b }
{
    match b {
        0 => Some(Call::Lit(Literal::Braces)),
        1 => Some(Call::Lit(Literal::Bars)),
        2 => Some(Call::Lit(Literal::Parens)),
        3 => Some(Call::Lit(Literal::OpenBrace)),
        4 => Some(Call::Lit(Literal::CloseBrace)),
        5 => Some(Call::Lit(Literal::Comma)),
        6 => Some(Call::Lit(Literal::Semicolon)),
        7 => Some(Call::Lit(Literal::Colon)),
        _ => None,
    }
}

// By hand and no `TryFrom<u8> for Hint`, as `literal`.
fn hint(b: u8) -> Option<Call>
    ensures { as_call result ≡ at (map Call.Comments hints) b }
{
    match b {
        0 => Some(Call::Comments(Hint::Line)),
        1 => Some(Call::Comments(Hint::Prefix)),
        2 => Some(Call::Comments(Hint::Suffix)),
        3 => Some(Call::Comments(Hint::Infix)),
        _ => None,
    }
}

fn flush(b: u8) -> Option<Call>
    ensures { as_call result ≡ decode (0x09 ∷ b ∷ []) }
{
    match b {
        0 => Some(Call::FlushWhitespace(false)),
        1 => Some(Call::FlushWhitespace(true)),
        _ => None,
    }
}

// Kinds with a body of one byte.
fn short(kind: u8, b: u8) -> Option<Call>
    ensures { as_call result ≡ decode (kind ∷ b ∷ []) }
{
    match kind {
        0x04 => literal(b),
        0x05 => hint(b),
        0x06 => Some(Call::Indent(b)),
        0x07 => Some(Call::Nl(b)),
        0x09 => flush(b),
        _ => None,
    }
}

// Kinds with a node number.
fn numbered(kind: u8, k: RecordNo) -> Option<Call>
    ensures { as_call result ≡ numbered kind k }
{
    match kind {
        0x01 => Some(Call::WriteOwned(k)),
        0x02 => Some(Call::WriteRaw(k)),
        0x03 => Some(Call::Ignore(k)),
        _ => None,
    }
}

// The node number behind the kind, low byte first.
fn number(bytes: &[u8]) -> RecordNo
    requires { 4 < length bytes.now }
    ensures { result.0 ≡ four (drop 1 bytes.now) }
{
    RecordNo(u32::from_le_bytes([bytes[1], bytes[2], bytes[3], bytes[4]]))
}

// None: unknown, cut, with bytes behind it, or with a body value that is not listed.
pub fn decode(bytes: &[u8]) -> Option<Call>
    ensures { as_call result ≡ decode bytes.now }
{
    match bytes.len() {
        1 => bare(bytes[0]),
        2 => short(bytes[0], bytes[1]),
        5 => numbered(bytes[0], number(bytes)),
        _ => None,
    }
}
