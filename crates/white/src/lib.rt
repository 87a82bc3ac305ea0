// White_Space, Unicode's property.
#![tactic(auto)]

ghost use Rattle.std.specs.Prelude.{◌≡◌};
ghost use Rattle.white.specs.White.{is_white, white_byte};

// The byte b is a White_Space character by itself. 1C to 1F are none, and 85 and A0 are characters only behind C2. Comparisons and no
// `matches!`, so that a count over it becomes vector code.
#[tactic(auto, unfolding(crate::specs::White::is_white, crate::specs::White::mem, crate::specs::White::whites))]
pub fn is_white_byte(b: u8) -> bool
    ensures { result ≡ white_byte b }
{
    b == 0x20 || (0x09 <= b && b <= 0x0D)
}

// The code point c has White_Space. ASCII comes first, as nearly all scripts are of it, then what the last one decides, then letters with
// marks and the other alphabets: so each sort of text pays for few tests.
#[tactic(auto, unfolding(crate::specs::White::is_white, crate::specs::White::mem, crate::specs::White::whites))]
pub fn is_white(c: u32) -> bool
    ensures { result ≡ is_white c }
{
    if c < 0x80 {
        return is_white_byte(c as u8);
    }
    if 0x3000 <= c {
        return c == 0x3000;
    }
    if c < 0x1680 {
        return c == 0x0085 || c == 0x00A0;
    }
    matches!(
        c,
        0x1680 | 0x2000..=0x200A | 0x2028..=0x2029 | 0x202F | 0x205F
    )
}
