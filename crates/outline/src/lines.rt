// The outline: a line for each record.
use crate::lending::passed;
use std::io;
use text::lines::count_newlines;
use text::span::part;
use tree::cursor::Cursor;
use tree::record::{Record, RecordNo};
use tree::table::{node, size};

// A text up to its first newline.
fn first_line(s: &[u8]) -> &[u8] {
    match s.iter().position(|b| *b == 10) {
        Some(n) => packed::front(s, n),
        None => s,
    }
}

fn line(to: &impl Print, source: &[u8], r: Record, depth: usize) -> io::Result<()> {
    let spaces = [0x20u8; 128];
    let kind = r.kind;
    let start = r.span.start;
    let number = count_newlines(packed::front(source, start.0 as usize)).saturating_add(1);
    print!(to; "{kind:02x} {number} ")?;
    to.write_all(packed::front(&spaces, depth.min(64) * 2))?;
    let span = r.span;
    to.write_all(packed::front(first_line(part(source, span)), 40))?;
    println!(to;)
}

// How many records stand around record k: `ends` has the record behind each, the outermost first, and behind those of k what has ended.
fn depth_of(ends: &[u32; 64], k: RecordNo) -> usize {
    match ends.iter().rposition(|end| k.0 < *end) {
        Some(i) => i + 1,
        None => 0,
    }
}

// The line of the record that a reader at this place passes over.
fn show(
    to: &impl Print,
    source: &[u8],
    table: &[u32],
    ends: &mut [u32; 64],
    k: RecordNo,
) -> io::Result<()> {
    let mut place = Cursor {
        at: k,
        end: size(table),
    };
    let Some(j) = passed(table, &mut place) else {
        return Ok(());
    };
    let d = depth_of(ends, j);
    if d < 64 {
        ends[d] = place.at.0;
    }
    line(to, source, node(table, j), d)
}

pub fn outline(to: &impl Print, source: &[u8], table: &[u32], n: RecordNo) -> io::Result<()> {
    let mut ends = [0u32; 64];
    for i in 0..n.0 {
        show(to, source, table, &mut ends, RecordNo(i))?;
    }
    Ok(())
}
