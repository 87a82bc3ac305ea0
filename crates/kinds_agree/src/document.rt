// A row of the document: byte, name, the Rust's kind, leaf or composite, what it is, rule, class, semicolon.
use crate::text::{cell, last_code, number, only, same, word};
use crate::words::{is_class, there};
use kinds::Kind;

fn record_agrees(cell: &[u8], byte: u8) -> bool {
    let record: &[u8] = if kinds::is_leaf(byte) {
        b"leaf"
    } else {
        b"composite"
    };
    same(cell, record)
}

// A dash stands first where the kind has no rule.
fn rule_agrees(cell: &[u8], kind: Kind) -> bool {
    let first = word(cell, 0);
    !first.is_empty() && same(first, b"-") != kinds::has_rule(kind)
}

fn statement_agrees(row: &[u8], kind: Kind) -> bool {
    is_class(only(cell(row, 7)), kinds::class_of(kind))
        && there(only(cell(row, 8)), b"needed", kinds::needs_semi(kind))
}

fn cells_agree(row: &[u8], rust: &[u8], byte: u8) -> bool {
    let kind = Kind::from(byte);
    same(last_code(cell(row, 3)), rust)
        && record_agrees(only(cell(row, 4)), byte)
        && rule_agrees(cell(row, 6), kind)
        && statement_agrees(row, kind)
}

// `rust` is the table's word for the Rust's kind: the last in backquotes here.
pub fn agrees(own: &[u8], rust: &[u8], row: &[u8]) -> bool {
    same(only(cell(row, 1)), word(own, 0))
        && same(only(cell(row, 2)), word(own, 1))
        && number(own).is_some_and(|byte| cells_agree(row, rust, byte))
}
