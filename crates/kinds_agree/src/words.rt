// Words that both the table and the document have.
use crate::text::same;
use kinds::Class;

pub fn is_class(word: &[u8], class: Class) -> bool {
    match class {
        Class::Item => same(word, b"Item"),
        Class::Const => same(word, b"Const"),
        Class::Local => same(word, b"Local"),
        Class::Other => same(word, b"Other"),
        Class::None => word.is_empty(),
    }
}

// The name where it is wanted, nothing where it is not.
pub fn there(word: &[u8], name: &[u8], wanted: bool) -> bool {
    if wanted {
        same(word, name)
    } else {
        word.is_empty()
    }
}
