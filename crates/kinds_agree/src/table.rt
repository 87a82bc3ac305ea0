// A row of the table: NUMBER NAME RUST-KIND [class=C] [semi] [key].
use crate::text::{number, part, same, word};
use crate::words::{is_class, there};
use kinds::{Class, Kind};

fn class_agrees(flag: &[u8], class: Class) -> bool {
    there(part(flag, 0, 6), b"class=", !flag.is_empty())
        && is_class(part(flag, 6, flag.len()), class)
}

// What stands behind the three words, and that no more does.
fn flags_agree(row: &[u8], kind: Kind) -> bool {
    if kind == Kind::ObjectKey {
        return same(word(row, 3), b"key") && word(row, 4).is_empty();
    }
    class_agrees(word(row, 3), kinds::class_of(kind))
        && there(word(row, 4), b"semi", kinds::needs_semi(kind))
        && word(row, 5).is_empty()
}

pub fn agrees(own: &[u8], row: &[u8]) -> bool {
    same(word(row, 0), word(own, 0))
        && same(word(row, 1), word(own, 1))
        && number(own).is_some_and(|byte| flags_agree(row, Kind::from(byte)))
}
