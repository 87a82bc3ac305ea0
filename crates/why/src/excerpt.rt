// The line of the source in which a byte stands, and a caret under that byte.

use std::io;

// Where the line begins.
fn line_start(source: &[u8], at: usize) -> usize {
    packed::front(source, at)
        .iter()
        .rposition(|b| *b == b'\n')
        .map_or(0, |i| i.saturating_add(1))
}

// Where it ends, before its newline.
fn line_end(source: &[u8], at: usize) -> usize {
    packed::slice(source, at, source.len())
        .iter()
        .position(|b| *b == b'\n')
        .map_or(source.len(), |i| at.saturating_add(i))
}

// One more byte in a row, as far as the row goes. The row and its length: fixed memory, no heap.
fn put(row: &mut [u8], n: usize, b: u8) -> usize {
    if n < row.len() {
        row[n] = b;
        return n + 1;
    }
    n
}

// A byte as it is shown: of control characters only the tab reaches a terminal.
fn shown(b: u8) -> Option<u8> {
    match b {
        b'\t' => Some(b),
        0..=31 | 127 => Some(b' '),
        _ => Some(b),
    }
}

// White space as wide as a byte: a tab for a tab, a space for a character, nothing for a byte that goes on with one.
fn blank(b: u8) -> Option<u8> {
    match b {
        b'\t' => Some(b),
        0x80..=0xBF => None,
        _ => Some(b' '),
    }
}

// Bytes of the source, each as it is drawn: how many stand in the row then.
fn fill<F: Fn(u8) -> Option<u8>>(bytes: &[u8], drawn: F, row: &mut [u8]) -> usize
    requires { F.IsAlwaysCallable drawn }
{
    let mut n: usize = 0;
    for byte in bytes {
        if let Some(b) = drawn(*byte) {
            n = put(row, n, b);
        }
    }
    n
}

// Such a row, set in by four spaces.
fn draw<F: Fn(u8) -> Option<u8>>(out: &impl Print, bytes: &[u8], drawn: F) -> io::Result<()>
    requires { F.IsAlwaysCallable drawn }
{
    let mut row = [0u8; 65600];
    let n = fill(bytes, drawn, &mut row);
    out.write_all(b"    ")?;
    out.write_all(packed::front(&row, n))
}

pub fn show(out: &impl Print, source: &[u8], at: usize) -> io::Result<()> {
    let from = line_start(source, at);
    let line = packed::slice(source, from, line_end(source, at).saturating_sub(from));
    draw(out, line, shown)?;
    println!(out;)?;
    draw(out, packed::front(line, at.saturating_sub(from)), blank)?;
    println!(out; "^")
}
