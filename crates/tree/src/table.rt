// The decoded tree: a table of four words a record, so that any record is reached at once. Words and no `[Record]`: definitions `words_of`,
// `table_of` and `Decoded` of specs/Table speak of them.
ghost use Rattle.std.specs.Prelude.{◌≡◌, ◌∷◌, [], ◌++◌, ◌≤◌, ◌+◌, ◌*◌, length, take, drop};
ghost use Rattle.tree.specs.Table.{kind_word, with_record, Decoded, room_of, tree_of, node_of, read_from};

use crate::record::{Record, RecordNo, body, cut, record_at};
use text::span::{BytePos, Span};

// How many records there is room for in n words, 8,192 at most.
#[tactic(auto, using(crate::proofs::TableLaws::room_is))]
fn room(n: usize) -> usize
    ensures { result ≡ room_of n }
{
    (n / 4).min(8192)
}

// The kind, and 256 more for a record that is cut.
#[tactic(auto, unfolding(crate::specs::Table::kind_word))]
fn kind_word(r: Record) -> u32
    ensures { result ≡ kind_word r }
{
    let kind = u32::from(r.kind);
    if r.whole { kind } else { 256 + kind }
}

// Four words at a place.
fn put(to: &mut [u32], at: usize, a: u32, b: u32, c: u32, d: u32)
    requires { at + 4 ≤ length to.old }
    ensures { to.new ≡ take at to.old ++ (a ∷ b ∷ c ∷ d ∷ []) ++ drop (at + 4) to.old }
{
    to[at] = a;
    to[at + 1] = b;
    to[at + 2] = c;
    to[at + 3] = d;
}

// Writes the words of record k, where the table has room for them.
#[tactic(auto, unfolding(crate::specs::Table::with_record, crate::specs::Table::words_of))]
pub fn put_record(to: &mut [u32], k: RecordNo, r: Record)
    ensures { to.new ≡ with_record to.old k.0 r }
{
    let at = (k.0 as usize) * 4;
    if at + 4 <= to.len() {
        put(to, at, kind_word(r), r.span.start.0, r.span.end.0, r.below);
    }
}

// Writes the words of the records, as far as there is room and of 8,192 at most, and says of how many; the rest stays as it was.
pub fn decode(list: &[u8], to: &mut [u32]) -> RecordNo
    ensures { Decoded list.now to.old result.0 to.new }
{
    let most = room(to.len());
    let mut at: usize = 0;
    for n in 0..most {
        if list.len() <= at {
            return RecordNo(n as u32);
        }
        let r = record_at(list, at);
        put(
            to,
            n * 4,
            kind_word(r),
            r.span.start.0,
            r.span.end.0,
            r.below,
        );
        at += 1 + body(r.kind);
    }
    RecordNo(most as u32)
}

// The words of the first n records.
pub fn first(table: &[u32], n: RecordNo) -> &[u32]
    ensures { result.now ≡ take (n.0 * 4) table.now }
{
    let e = (n.0 as usize) * 4;
    &table[..e.min(table.len())]
}

// How many records the table holds.
pub fn size(table: &[u32]) -> RecordNo
    ensures { result.0 ≡ length (tree_of table.now) }
{
    RecordNo(room(table.len()) as u32)
}

// The record that four words stand for.
#[tactic(auto, unfolding(crate::specs::Table::read_from))]
fn read(kind: u32, start: u32, end: u32, below: u32) -> Record
    ensures { result ≡ read_from kind start end below }
{
    if kind < 256 {
        return Record {
            whole: true,
            kind: kind as u8,
            span: Span {
                start: BytePos(start),
                end: BytePos(end),
            },
            below,
        };
    }
    cut((kind % 256) as u8)
}

// The record of a number; where there is none, a cut one of kind 00.
pub fn node(table: &[u32], k: RecordNo) -> Record
    ensures { result ≡ node_of (tree_of table.now) k.0 }
{
    let i = k.0 as usize;
    if i < room(table.len()) {
        let p = i * 4;
        return read(table[p], table[p + 1], table[p + 2], table[p + 3]);
    }
    cut(0)
}

// The kind of a record, 00 where there is none.
pub fn kind_at(table: &[u32], k: RecordNo) -> u8
    ensures { result ≡ (node_of (tree_of table.now) k.0).kind }
{
    let i = k.0 as usize;
    if i < room(table.len()) {
        return (table[i * 4] % 256) as u8;
    }
    0
}
