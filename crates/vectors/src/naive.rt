// A decoder that reads Unicode's table 3-7 row by row and byte by byte.
ghost use Rattle.std.specs.Prelude.{◌≤◌, length};

use encoding::utf8::IllFormed;

// A row: first and last of what its first, second, third and fourth byte may be.
const ROWS: [&[(u8, u8)]; 9] = [
    &[(0x00, 0x7F)],
    &[(0xC2, 0xDF), (0x80, 0xBF)],
    &[(0xE0, 0xE0), (0xA0, 0xBF), (0x80, 0xBF)],
    &[(0xE1, 0xEC), (0x80, 0xBF), (0x80, 0xBF)],
    &[(0xED, 0xED), (0x80, 0x9F), (0x80, 0xBF)],
    &[(0xEE, 0xEF), (0x80, 0xBF), (0x80, 0xBF)],
    &[(0xF0, 0xF0), (0x90, 0xBF), (0x80, 0xBF), (0x80, 0xBF)],
    &[(0xF1, 0xF3), (0x80, 0xBF), (0x80, 0xBF), (0x80, 0xBF)],
    &[(0xF4, 0xF4), (0x80, 0x8F), (0x80, 0xBF), (0x80, 0xBF)],
];

// How many bytes of the row the text begins with: all of them, or 0.
fn row_len(s: &[u8], row: &[(u8, u8)]) -> usize
    ensures { result ≤ length s.now }
{
    if s.len() < row.len() {
        return 0;
    }
    for (&b, &(lo, hi)) in s.iter().zip(row) {
        if b < lo || hi < b {
            return 0;
        }
    }
    row.len()
}

fn any_len(s: &[u8]) -> usize
    ensures { result ≤ length s.now }
{
    for row in ROWS {
        let n = row_len(s, row);
        if n != 0 {
            return n;
        }
    }
    0
}

pub fn check(s: &[u8]) -> Result<(), IllFormed> {
    let mut at: usize = 0;
    // No `for`: the step is a character's length.
    while at < s.len() {
        let n = any_len(&s[at..]);
        if n == 0 {
            return Err(IllFormed { at });
        }
        at += n;
    }
    Ok(())
}
