// Trimming: a line comment's text loses all White_Space at its end, by Unicode. The walk goes back a character at a time: the last byte of ą or
// à alone would be a blank.
ghost use Rattle.std.specs.Prelude.{◌≡◌, ◌<◌, length};
ghost use Rattle.text.specs.Trim.{trim, ends3000, ends_white, white_end};

use crate::chars::char_at;
use white::{is_white, is_white_byte};

// The last n bytes, more than one, are one White_Space character.
fn ends_white(s: &[u8], n: usize) -> bool
    requires { 1 < n }
    ensures { result ≡ ends_white n s.now }
{
    if s.len() < n {
        return false;
    }
    let c = char_at(s, s.len() - n);
    c.len == n && is_white(c.code)
}

// The last three bytes are U+3000, of all White_Space with several bytes what line comments end in most.
fn ends_3000(s: &[u8]) -> bool
    ensures { result ≡ ends3000 s.now }
{
    matches!(s, [.., 0xE3, 0x80, 0x80])
}

// How many bytes the White_Space character has that ends the text: 0 where none does, as the definition has it.
fn white_end(s: &[u8]) -> usize
    requires { 0 < length s.now }
    ensures { result ≡ white_end s.now }
{
    let last = s[s.len() - 1];
    if is_white_byte(last) {
        return 1;
    }
    if last < 0x80 {
        return 0;
    }
    if ends_3000(s) {
        return 3;
    }
    if ends_white(s, 3) {
        return 3;
    }
    if ends_white(s, 2) {
        return 2;
    }
    0
}

// The text without the White_Space at its end.
pub fn trimmed(t: &[u8]) -> &[u8]
    ensures { result.now ≡ trim t.now }
{
    let mut n = t.len();
    // no `for`: a step is as long as the character that ends the text
    while 0 < n {
        let white = white_end(&t[..n]);
        if white == 0 {
            return &t[..n];
        }
        n -= white;
    }
    &t[..0]
}
