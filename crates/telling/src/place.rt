// Where a byte of the source stands: its line and its column, both from 1.
use std::io;
use text::lines::count_newlines;
use text::span::BytePos;
use tree::record::RecordNo;
use tree::table::{decode, first, node};

// The column behind a byte: a newline begins a line, a byte that goes on with a character takes no column.
fn behind(n: u64, b: u8) -> u64 {
    match b {
        b'\n' => 1,
        0x80..=0xBF => n,
        _ => n.saturating_add(1),
    }
}

// The line of the byte at a place.
pub fn line(source: &[u8], at: usize) -> u64 {
    (count_newlines(packed::front(source, at)) as u64).saturating_add(1)
}

// Its column, in characters.
pub fn column(source: &[u8], at: usize) -> u64 {
    packed::front(source, at)
        .iter()
        .fold(1, |n, b| behind(n, *b))
}

// Line and column of a place in the source, and nothing of one behind its end.
fn line_and_column(out: &impl Print, source: &[u8], at: usize) -> io::Result<()> {
    if source.len() < at {
        return Ok(());
    }
    let line = line(source, at);
    let column = column(source, at);
    print!(out; ", line {line}, column {column}")
}

// A place that is a byte of the source.
pub fn at_byte(out: &impl Print, source: &[u8], p: BytePos) -> io::Result<()> {
    let at = p.0;
    print!(out; ", at byte {at}")?;
    line_and_column(out, source, at as usize)?;
    println!(out;)
}

// A place that is a record: it stands in the source where it starts, unless it is cut, or there is none.
pub fn at_record(out: &impl Print, source: &[u8], tree: &[u8], k: RecordNo) -> io::Result<()> {
    let mut words = [0u32; 32768];
    let n = decode(tree, &mut words);
    let r = node(first(&words, n), k);
    let number = k.0;
    print!(out; ", at record {number}")?;
    if r.whole {
        let start = r.span.start;
        line_and_column(out, source, start.0 as usize)?;
    }
    println!(out;)
}
