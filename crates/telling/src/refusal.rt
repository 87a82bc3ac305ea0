// A refusal in words: its number, its meaning, its place.
use crate::place::{at_byte, at_record};
use meaning::answer::Refusal;
use std::io;
use text::span::BytePos;

// What each means.
fn meaning_of(r: Refusal) -> &'static str {
    match r {
        Refusal::SourceLong => "the script is over 65,536 bytes",
        Refusal::SourceIll(_) => "the script is not well-formed UTF-8",
        Refusal::TreeBad(_) => "the tree is not good",
        Refusal::NoRoom(_) => {
            "the text is longer than the 524,288 bytes that this program has room for"
        }
        Refusal::QueueFull(_) => "a 257th comment would wait",
        Refusal::IndentOut(_) => "the indent would leave 0 to 64",
        Refusal::TreeDeep(_) => "the tree is deeper than 64 levels",
        Refusal::WrongKind(_) => "a rule met another kind than it needs, or none, or left one over",
        Refusal::NoRule(_) => "a kind without a rule",
        Refusal::Finished(_) => "the engine is finished",
        Refusal::NoNode(_) => "the tree has no such node",
        Refusal::BadCall(_) => "the call record is not one",
    }
}

// Where it was met.
fn say_place(out: &impl Print, source: &[u8], tree: &[u8], r: Refusal) -> io::Result<()> {
    match r {
        Refusal::SourceLong => at_byte(out, source, BytePos(65536)),
        Refusal::SourceIll(p) => at_byte(out, source, p),
        Refusal::TreeBad(k)
        | Refusal::QueueFull(k)
        | Refusal::TreeDeep(k)
        | Refusal::WrongKind(k)
        | Refusal::NoRule(k)
        | Refusal::NoNode(k) => at_record(out, source, tree, k),
        Refusal::NoRoom(len) | Refusal::Finished(len) => println!(out; ", at output length {len}"),
        Refusal::IndentOut(d) => println!(out; ", at indent {d}"),
        Refusal::BadCall(p) => println!(out; ", at byte {p}"),
    }
}

pub fn say(out: &impl Print, source: &[u8], tree: &[u8], r: Refusal) -> io::Result<()> {
    say_as(out, source, tree, r, meaning_of(r))
}

// With a meaning that is closer to what was asked.
pub fn say_as(
    out: &impl Print,
    source: &[u8],
    tree: &[u8],
    r: Refusal,
    meaning: &str,
) -> io::Result<()> {
    let n = r.number();
    print!(out; "refusal {n}, {meaning}")?;
    say_place(out, source, tree, r)
}
