// A number in decimal digits.

// The number that these bytes stand for: digits alone, with no sign, and below any that has ten.
pub fn number(digits: &[u8]) -> Option<u32> {
    if !digits.iter().all(|b| b.is_ascii_digit()) {
        return None;
    }
    let Ok(text) = std::str::from_utf8(digits) else {
        return None;
    };
    text.parse::<u32>().ok().filter(|n| *n < 1_000_000_000)
}
