// Document 01's lists, each a call's arguments laid out by a run: P1 to P3, 80 and 81 letters between brackets without text, so that the node's span is
// the letters alone; and its two samples of `exprs`.
use crate::say::show;
use entry::state::fresh;
use format::runs;
use kinds::bytes;
use std::io;
use tree::record::RecordNo;

fn put(list: &mut [u8], at: usize, b: u8) {
    if at < list.len() {
        list[at] = b;
    }
}

// A leaf's record, and where the next one stands. All numbers here are below 256.
fn leaf(list: &mut [u8], at: usize, kind: u8, start: u8, end: u8) -> usize {
    let from = at % 0x1000;
    put(list, from, kind);
    put(list, from + 1, start);
    put(list, from + 5, end);
    from + 9
}

// A composite's, with so many records below it.
fn node(list: &mut [u8], at: usize, kind: u8, start: u8, end: u8, below: u8) -> usize {
    let from = leaf(list, at, kind, start, end) % 0x1000;
    put(list, from, below);
    from + 4
}

// An expression of one name.
fn name(list: &mut [u8], at: usize, start: u8, end: u8) -> usize {
    let at = node(list, at, bytes::EXPR, start, end, 1);
    leaf(list, at, bytes::IDENT, start, end)
}

// A run on the list, fresh.
fn lay(to: &impl Print, title: &str, source: &[u8], list: &[u8]) -> io::Result<()> {
    let mut out = [0u8; 100];
    let done = runs::run(source, list, &mut out, fresh(), RecordNo(0));
    let a = done.answer;
    let state = done.state;
    show(to, title, a, state, &out)
}

// So many letters in brackets without text.
fn letters(to: &impl Print, title: &str, source: &[u8], n: u8) -> io::Result<()> {
    let mut list = [0u8; 53];
    let at = node(&mut list, 0, bytes::EXPR_CALL, 0, n, 4);
    let at = leaf(&mut list, at, bytes::PAREN_OPEN, 0, 0);
    let at = name(&mut list, at, 0, n);
    leaf(&mut list, at, bytes::PAREN_CLOSE, n, n);
    lay(to, title, source, &list)
}

// 80 letters and U+3000, which is White_Space.
fn letters_and_blank(to: &impl Print, title: &str, source: &[u8]) -> io::Result<()> {
    let mut list = [0u8; 62];
    let at = node(&mut list, 0, bytes::EXPR_CALL, 0, 83, 5);
    let at = leaf(&mut list, at, bytes::PAREN_OPEN, 0, 0);
    let at = name(&mut list, at, 0, 80);
    let at = leaf(&mut list, at, bytes::WS, 80, 83);
    leaf(&mut list, at, bytes::PAREN_CLOSE, 83, 83);
    lay(to, title, source, &list)
}

pub fn widths(to: &impl Print) -> io::Result<()> {
    letters(
        to,
        "P1",
        b"aaaaaaaaaaaaaaaaaaaaaaaaaaaaaaaaaaaaaaaaaaaaaaaaaaaaaaaaaaaaaaaaaaaaaaaaaaaaaaaa",
        80,
    )?;
    letters(
        to,
        "P2",
        b"aaaaaaaaaaaaaaaaaaaaaaaaaaaaaaaaaaaaaaaaaaaaaaaaaaaaaaaaaaaaaaaaaaaaaaaaaaaaaaaaa",
        81,
    )?;
    letters_and_blank(
        to,
        "P3",
        b"aaaaaaaaaaaaaaaaaaaaaaaaaaaaaaaaaaaaaaaaaaaaaaaaaaaaaaaaaaaaaaaaaaaaaaaaaaaaaaaa\xE3\x80\x80",
    )
}

// `(a,b /* k */)`
fn compact(to: &impl Print) -> io::Result<()> {
    let mut list = [0u8; 102];
    let at = node(&mut list, 0, bytes::EXPR_CALL, 0, 13, 9);
    let at = leaf(&mut list, at, bytes::PAREN_OPEN, 0, 1);
    let at = name(&mut list, at, 1, 2);
    let at = leaf(&mut list, at, bytes::COMMA, 2, 3);
    let at = name(&mut list, at, 3, 4);
    let at = leaf(&mut list, at, bytes::WS, 4, 5);
    let at = leaf(&mut list, at, bytes::BLOCK_COMMENT, 5, 12);
    leaf(&mut list, at, bytes::PAREN_CLOSE, 12, 13);
    lay(to, "exprs", b"(a,b /* k */)", &list)
}

// `(a // n`, a newline, `)`: the comment is a direct child.
fn loose(to: &impl Print) -> io::Result<()> {
    let mut list = [0u8; 80];
    let at = node(&mut list, 0, bytes::EXPR_CALL, 0, 9, 7);
    let at = leaf(&mut list, at, bytes::PAREN_OPEN, 0, 1);
    let at = name(&mut list, at, 1, 2);
    let at = leaf(&mut list, at, bytes::WS, 2, 3);
    let at = leaf(&mut list, at, bytes::LINE_COMMENT, 3, 7);
    let at = leaf(&mut list, at, bytes::WS, 7, 8);
    leaf(&mut list, at, bytes::PAREN_CLOSE, 8, 9);
    lay(to, "exprs", b"(a // n\n)", &list)
}

pub fn samples(to: &impl Print) -> io::Result<()> {
    compact(to)?;
    loose(to)
}
