// The three lists, a row of each at a time, in the order of the bytes.
use crate::text::{digit, line, next_lines, part, word};
use crate::{document, table};

// Which list differs from the code's, and the code's row there; an empty one where the list has a row too many.
#[derive(Clone, Copy)]
pub enum Differs<'a> {
    Table(&'a [u8]),
    Document(&'a [u8]),
}

// Two digits and a space, behind so many bytes: no line but a row has that.
fn is_row(s: &[u8], behind: usize) -> bool {
    match part(s, behind, s.len()) {
        [high, low, b' ', ..] => digit(*high).is_some() && digit(*low).is_some(),
        _ => false,
    }
}

// The lines from the first row on.
fn from_row(s: &[u8], behind: usize) -> &[u8] {
    let mut left = s;
    for _ in 0..s.len() {
        if is_row(line(left), behind) {
            return left;
        }
        left = next_lines(left);
    }
    &[]
}

// Behind the last kind of the code no other list has a row.
fn ended<'a>(
    own: &'a [u8],
    n: usize,
    in_table: &[u8],
    in_document: &[u8],
) -> Result<usize, Differs<'a>> {
    if !in_table.is_empty() {
        return Err(Differs::Table(own));
    }
    if !in_document.is_empty() {
        return Err(Differs::Document(own));
    }
    Ok(n)
}

// On how many kinds all agree, or the first row of the code's list where another list does not.
pub fn compare<'a>(
    rows: &'a [u8],
    in_table: &[u8],
    in_document: &[u8],
) -> Result<usize, Differs<'a>> {
    let mut rows = rows;
    let mut in_table = in_table;
    let mut in_document = in_document;
    for n in 0..257 {
        in_table = from_row(in_table, 0);
        in_document = from_row(in_document, 2);
        let own = line(rows);
        let table_row = line(in_table);
        let document_row = line(in_document);
        if own.is_empty() {
            return ended(own, n, table_row, document_row);
        }
        if !table::agrees(own, table_row) {
            return Err(Differs::Table(own));
        }
        if !document::agrees(own, word(table_row, 2), document_row) {
            return Err(Differs::Document(own));
        }
        rows = next_lines(rows);
        in_table = next_lines(in_table);
        in_document = next_lines(in_document);
    }
    Err(Differs::Table(line(rows)))
}
