// How many characters of a text are outside White_Space: runs of plain bytes by blocks, every other character by itself.
ghost use Rattle.std.specs.Prelude.{◌≡◌, true, ◌≤◌, ◌<◌, length};
ghost use Rattle.encoding.specs.Utf8.{all_plain};
ghost use Rattle.width.specs.Count.{dark, counted};
ghost use Rattle.width.specs.Walk.{PlainBlock, Tallied};

use encoding::utf8::plain;
use text::chars::char_at;
use white::{is_white, is_white_byte};

// What a walk over characters found: how many are outside White_Space, and the place where it ended.
#[derive(Clone, Copy)]
struct Tally {
    dark: u64,
    end: usize,
}

// The plain bytes outside White_Space: a sum with no exit and no branch, so that it becomes vector code.
fn dark_bytes(s: &[u8]) -> u64
    requires { all_plain s.now ≡ true }
    ensures { result ≡ dark s.now }
{
    let mut n: u64 = 0;
    for &b in s {
        n += 1 - is_white_byte(b) as u64;
    }
    n
}

// The 32 bytes at i are there and plain.
fn plain_block(t: &[u8], i: usize) -> bool
    requires { i ≤ length t.now }
    ensures { result ≡ true → PlainBlock t.now i }
{
    32 <= t.len() - i && plain(&t[i..i + 32])
}

// Over the plain blocks at `from`, until `left` characters are found.
fn over_blocks(t: &[u8], from: usize, left: u64) -> Tally
    requires { from ≤ length t.now }
    ensures { Tallied t.now from result.end result.dark }
{
    let mut n: u64 = 0;
    let mut i = from;
    // no `for`: a step is a block, and where the walk ends is half of what it found
    while n < left && plain_block(t, i) {
        n += dark_bytes(&t[i..i + 32]);
        i += 32;
    }
    Tally { dark: n, end: i }
}

// Over the plain bytes at `from`, by blocks and then one by one, until `left` characters are found.
fn over_plain(t: &[u8], from: usize, left: u64) -> Tally
    requires { from ≤ length t.now }
    ensures { Tallied t.now from result.end result.dark }
{
    let blocks = over_blocks(t, from, left);
    let mut n = blocks.dark;
    let mut i = blocks.end;
    // no `for`: where the walk ends is half of what it found
    while i < t.len() && t[i] < 0x80 && n < left {
        n += 1 - is_white_byte(t[i]) as u64;
        i += 1;
    }
    Tally { dark: n, end: i }
}

// Over the characters of several bytes at `from`, until `left` characters are found: mostly another such follows, and a block tried behind
// each of them is time lost.
fn over_wide(t: &[u8], from: usize, left: u64) -> Tally
    requires { from ≤ length t.now }
    ensures { Tallied t.now from result.end result.dark × (result.dark ≤ left) }
{
    let mut n: u64 = 0;
    let mut i = from;
    // no `for`: a step is as long as the character there
    while i < t.len() && 0x80 <= t[i] && n < left {
        let c = char_at(t, i);
        // a sum, not a branch on the answer
        n += 1 - is_white(c.code) as u64;
        i += c.len;
    }
    Tally { dark: n, end: i }
}

// How many characters of a text are outside White_Space, up to one above the limit; little is read once that is known. A turn passes a
// character, those of several bytes behind it, and then the plain ones.
pub fn count(t: &[u8], limit: u32) -> u64
    ensures { result ≡ counted limit t.now }
{
    let above = limit as u64 + 1;
    let mut n: u64 = 0;
    let mut i: usize = 0;
    // no `for`: a step is as long as the characters that a turn passes
    while i < t.len() {
        let c = char_at(t, i);
        n += 1 - is_white(c.code) as u64;
        let wide = over_wide(t, i + c.len, above - n);
        n += wide.dark;
        let plain = over_plain(t, wide.end, above - n);
        n += plain.dark;
        if above <= n {
            return above;
        }
        i = plain.end;
    }
    n
}
