// Characters of a source: their boundaries, and their code points.
ghost use Rattle.std.specs.Prelude.{◌≡◌, ◌≤◌, ◌<◌, ◌+◌, length, drop};
ghost use Rattle.text.specs.Chars.{starts, in_source, code, char_at};

use crate::span::{BytePos, Span};
use encoding::utf8::char_len;

// A character: its code point, and how many bytes it has.
#[derive(Clone, Copy)]
pub struct Char {
    pub code: u32,
    pub len: usize,
}

// The place lies before a character or at the end.
#[tactic(auto, using(crate::proofs::CharLaws::starts_in, crate::proofs::CharLaws::starts_out))]
pub fn on_boundary(s: &[u8], p: BytePos) -> bool
    ensures { result ≡ starts p.0 s.now }
{
    let at = p.0 as usize;
    match s.get(at) {
        Some(&b) => !matches!(b, 0x80..=0xBF),
        None => at == s.len(),
    }
}

// start ≤ end ≤ length, both on character boundaries.
#[tactic(auto, unfolding(crate::specs::Chars::in_source))]
pub fn in_source(s: &[u8], span: Span) -> bool
    ensures { result ≡ in_source s.now span }
{
    span.start <= span.end
        && span.end.0 as usize <= s.len()
        && on_boundary(s, span.start)
        && on_boundary(s, span.end)
}

// The code point of the n bytes at i.
fn code_at(s: &[u8], i: usize, n: usize) -> u32
    requires { (i < length s.now) × (i + n ≤ length s.now) }
    ensures { result ≡ code n (drop i s.now) }
{
    let a = s[i] as u32;
    if n < 2 {
        return a;
    }
    let b = s[i + 1] as u32;
    if n < 3 {
        return a % 32 * 64 + b % 64;
    }
    let c = s[i + 2] as u32;
    if n < 4 {
        return a % 16 * 4096 + b % 64 * 64 + c % 64;
    }
    let d = s[i + 3] as u32;
    a % 8 * 262144 + b % 64 * 4096 + c % 64 * 64 + d % 64
}

// The character at i; a byte that begins no sequence is one by itself.
pub fn char_at(s: &[u8], i: usize) -> Char
    requires { i < length s.now }
    ensures { result ≡ char_at (drop i s.now) }
{
    let b = s[i];
    if b < 0x80 {
        return Char {
            code: b as u32,
            len: 1,
        };
    }
    let n = char_len(s, i);
    if n == 0 {
        return Char {
            code: b as u32,
            len: 1,
        };
    }
    Char {
        code: code_at(s, i, n),
        len: n,
    }
}
