// The records of a tree, as they stand in its list of bytes.
ghost use Rattle.std.specs.Prelude.{◌≡◌, ◌≤◌, ◌+◌, length, drop};
ghost use Rattle.tree.specs.Records.{four, body_of, cut_record, record_at};

use text::span::{BytePos, Span};

// The number of a record in the list. No byte place is one. Not `Ord`: clauses compare the numbers themselves, and so does the code.
#[derive(Clone, Copy, PartialEq, Eq)]
pub struct RecordNo(pub u32);

// A record as read; a cut one is not whole and has no numbers. `whole` is a flag and no `Option` round the numbers: a cut record has a kind, and
// definitions `cut_record` and `node_of` give it an empty span, which all above read.
#[derive(Clone, Copy)]
pub struct Record {
    pub whole: bool,
    pub kind: u8,
    pub span: Span,
    pub below: u32,
}

// Four bytes at i, low byte first.
fn four_at(s: &[u8], i: usize) -> u32
    requires { i + 4 ≤ length s.now }
    ensures { result ≡ four (drop i s.now) }
{
    u32::from_le_bytes([s[i], s[i + 1], s[i + 2], s[i + 3]])
}

// How many bytes stand behind a byte of kind.
#[tactic(auto, unfolding(crate::specs::Records::body_of))]
pub fn body(kind: u8) -> usize
    ensures { result ≡ body_of kind }
{
    if kind < 0x80 { 8 } else { 12 }
}

// A record that is cut short.
pub fn cut(kind: u8) -> Record
    ensures { result ≡ cut_record kind }
{
    Record {
        whole: false,
        kind,
        span: Span {
            start: BytePos(0),
            end: BytePos(0),
        },
        below: 0,
    }
}

// The record at a byte of the list; behind its end, a cut one of kind 00.
pub fn record_at(list: &[u8], at: usize) -> Record
    ensures { result ≡ record_at (drop at list.now) }
{
    if list.len() <= at {
        return cut(0);
    }
    let kind = list[at];
    let p = at + 1;
    if list.len() - p < body(kind) {
        return cut(kind);
    }
    let span = Span {
        start: BytePos(four_at(list, p)),
        end: BytePos(four_at(list, p + 4)),
    };
    let below = if kind < 0x80 { 0 } else { four_at(list, p + 8) };
    Record {
        whole: true,
        kind,
        span,
        below,
    }
}
