// UTF-8: the check of a slice by Unicode's table 3-7 of well-formed byte sequences.
ghost use Rattle.std.specs.Prelude.{◌≡◌, ◌∷◌, [], ◌≤◌, ◌<◌, ◌+◌, length, drop};
ghost use Rattle.encoding.specs.Utf8.{◌⋯◌, cont, second, all_in, char_len, formed, all_plain};
ghost use Rattle.encoding.specs.Walk.{ByteIn, Past, PlainTo, wide_to};

// A text that is not well-formed: the first byte of its first ill-formed sequence.
#[derive(Clone, Copy, Debug, PartialEq, Eq)]
pub struct IllFormed {
    pub at: usize,
}

// The byte at i is there, and lies from lo to hi.
fn in_range(s: &[u8], i: usize, lo: u8, hi: u8) -> bool
    ensures { result ≡ all_in (lo ⋯ hi ∷ []) (drop i s.now) }
{
    i < s.len() && lo <= s[i] && s[i] <= hi
}

// The lowest byte that may stand behind b, a first byte of E0 to F4. One value for all of them keeps `char_len` short enough to stand in
// the loops that call it.
fn lowest(b: u8) -> u8
    ensures { result ≡ (second b).lo }
{
    match b {
        0xE0 => 0xA0,
        0xF0 => 0x90,
        _ => 0x80,
    }
}

// The highest.
fn highest(b: u8) -> u8
    ensures { result ≡ (second b).hi }
{
    match b {
        0xED => 0x9F,
        0xF4 => 0x8F,
        _ => 0xBF,
    }
}

// The byte behind i is one of lo to hi, and the next one goes on.
fn two_behind(s: &[u8], i: usize, lo: u8, hi: u8) -> bool
    requires { i < length s.now }
    ensures { result ≡ all_in (lo ⋯ hi ∷ cont ∷ []) (drop (i + 1) s.now) }
{
    in_range(s, i + 1, lo, hi) && in_range(s, i + 2, 0x80, 0xBF)
}

// The sequence at i, whose first byte is one of 80 to DF.
fn two(s: &[u8], i: usize) -> usize
    requires { ByteIn s.now i 0x80 0xE0 }
    ensures { result ≡ char_len (drop i s.now) }
{
    if 0xC2 <= s[i] && in_range(s, i + 1, 0x80, 0xBF) {
        2
    } else {
        0
    }
}

// The sequence at i, whose first byte is one of E0 to EF.
fn three(s: &[u8], i: usize) -> usize
    requires { ByteIn s.now i 0xE0 0xF0 }
    ensures { result ≡ char_len (drop i s.now) }
{
    let b = s[i];
    if two_behind(s, i, lowest(b), highest(b)) {
        3
    } else {
        0
    }
}

// The sequence at i, whose first byte is F0 or above.
fn four(s: &[u8], i: usize) -> usize
    requires { ByteIn s.now i 0xF0 0x100 }
    ensures { result ≡ char_len (drop i s.now) }
{
    let b = s[i];
    if b <= 0xF4 && two_behind(s, i, lowest(b), highest(b)) && in_range(s, i + 3, 0x80, 0xBF) {
        4
    } else {
        0
    }
}

// How long the well-formed sequence at i is: 0 where there is none, and no Option, since the definition char_len, by which all count
// characters, answers 0 there.
pub fn char_len(s: &[u8], i: usize) -> usize
    ensures { result ≡ char_len (drop i s.now) }
{
    if s.len() <= i {
        return 0;
    }
    match s[i] {
        0x00..=0x7F => 1,
        0x80..=0xDF => two(s, i),
        0xE0..=0xEF => three(s, i),
        0xF0..=0xFF => four(s, i),
    }
}

// No byte is over 7F: one test at the end and no exit before it, so that it becomes vector code.
pub fn plain(s: &[u8]) -> bool
    ensures { result ≡ all_plain s.now }
{
    let mut all: u8 = 0;
    for b in s {
        all |= *b;
    }
    all < 0x80
}

// Past the blocks of `size` bytes without a byte over 7F. The loop counts by hand: a step is a block, and where the run ends is the answer.
fn past_blocks(s: &[u8], from: usize, size: usize) -> usize
    requires { (from ≤ length s.now) × (0 < size) }
    ensures { Past s.now from result }
{
    let mut i = from;
    while size <= s.len() - i && plain(&s[i..i + size]) {
        i += size;
    }
    i
}

// Past the bytes up to 7F: long runs 64 at a time, short ones 8, then one by one.
fn past_plain(s: &[u8], from: usize) -> usize
    requires { from ≤ length s.now }
    ensures { PlainTo s.now from result }
{
    let long = past_blocks(s, from, 64);
    let short = past_blocks(s, long, 8);
    for i in short..s.len() {
        if 0x80 <= s[i] {
            return i;
        }
    }
    s.len()
}

// Past the sequences of several bytes, or to an ill-formed one. The loop counts by hand: a step is as long as the sequence at it.
fn past_wide(s: &[u8], from: usize) -> Result<usize, IllFormed>
    requires { from ≤ length s.now }
    ensures { wide_to s.now from result }
{
    let mut i = from;
    while i < s.len() && 0x80 <= s[i] {
        let n = char_len(s, i);
        if n == 0 {
            return Err(IllFormed { at: i });
        }
        i += n;
    }
    Ok(i)
}

// The check, over runs of plain bytes and of sequences of several bytes in turn: a step is two runs, so no `for` fits.
pub fn check(s: &[u8]) -> Result<(), IllFormed>
    ensures { result ≡ formed s.now }
{
    let mut i: usize = 0;
    while i < s.len() {
        i = past_wide(s, past_plain(s, i))?;
    }
    Ok(())
}
