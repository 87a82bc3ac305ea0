// A reason in words.
use crate::excerpt;
use kinds::bytes;
use loose::reason::Reason;
use std::io;
use telling::place::{column, line};
use text::span::BytePos;
use tree::record::RecordNo;
use tree::table::{kind_at, node};

// Where a record starts.
fn start(table: &[u32], k: RecordNo) -> BytePos {
    node(table, k).span.start
}

// FILE:LINE:COLUMN of a byte.
fn say_place(out: &impl Print, name: &[u8], source: &[u8], at: BytePos) -> io::Result<()> {
    let line = line(source, at.0 as usize);
    let column = column(source, at.0 as usize);
    out.write_all(name)?;
    print!(out; ":{line}:{column}: ")
}

// What the list holds.
fn what(table: &[u32], k: RecordNo) -> &'static str {
    match kind_at(table, k) {
        bytes::EXPR_CALL => "the list of arguments",
        bytes::EXPR_ARRAY => "the array",
        _ => "the object",
    }
}

// Which list it is: what it holds, where it begins, its node.
fn say_list(out: &impl Print, source: &[u8], table: &[u32], k: RecordNo) -> io::Result<()> {
    let what = what(table, k);
    let at = start(table, k);
    let line = line(source, at.0 as usize);
    let column = column(source, at.0 as usize);
    let number = k.0;
    print!(out; "{what} that begins at {line}:{column}, node {number}, ")
}

// The whole sentence, and under it the line of the source with a caret.
pub fn tell(
    out: &impl Print,
    name: &[u8],
    source: &[u8],
    table: &[u32],
    k: RecordNo,
    r: Option<Reason>,
) -> io::Result<()> {
    let (at, words) = match r {
        Some(Reason::Wide(p)) => (
            p,
            "is too wide for one line: this is the 81st of its characters, white space not counted",
        ),
        Some(Reason::Comment(c)) => (
            start(table, c),
            "holds a line comment, behind which nothing can stand on its line",
        ),
        Some(Reason::Sixth(c)) => (
            start(table, c),
            "has more than five entries: this is the sixth",
        ),
        None => (
            start(table, k),
            "stands on one line: it has at most 80 characters, white space not counted, at most five entries and no line comment",
        ),
    };
    say_place(out, name, source, at)?;
    say_list(out, source, table, k)?;
    println!(out; "{words}")?;
    excerpt::show(out, source, at.0 as usize)
}

// How many of the lists go over several lines.
pub fn total(out: &impl Print, name: &[u8], broken: u64, lists: u64) -> io::Result<()> {
    out.write_all(name)?;
    println!(out; ": {broken} of {lists} lists go over several lines, an entry to a line")
}
