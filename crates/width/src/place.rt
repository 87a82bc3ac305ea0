// Where the characters of a text stand that count: those outside White_Space.
ghost use Rattle.std.specs.Prelude.{◌≡◌};
ghost use Rattle.width.specs.Count.{place_of, place_in};

use text::chars::char_at;
use text::span::{BytePos, Span, part};
use white::is_white;

// How many bytes stand before the counted character that has n before it; all of them where there is none.
pub fn place_of(t: &[u8], n: u32) -> usize
    ensures { result ≡ place_of n t.now }
{
    let mut left = n;
    let mut i: usize = 0;
    // no `for`: a step is as long as the character there
    while i < t.len() {
        let c = char_at(t, i);
        if !is_white(c.code) {
            if left == 0 {
                return i;
            }
            left -= 1;
        }
        i += c.len;
    }
    i
}

// The same in a source: the place of the counted character of a span that has n before it.
pub fn place_in(src: &[u8], span: Span, n: u32) -> BytePos
    ensures { result ≡ place_in src.now span n }
{
    let before = place_of(part(src, span), n);
    BytePos(span.start.0 + before as u32)
}
