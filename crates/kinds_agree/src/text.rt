// Lines, words and cells of a text. Every function is total: what is not there is empty.
ghost use Rattle.std.specs.Prelude.{◌≡◌, ◌↔◌, IsTrue};

// Whether both hold the same bytes.
pub fn same(a: &[u8], b: &[u8]) -> bool
    ensures { IsTrue result ↔ (a.now ≡ b.now) }
{
    a == b
}

pub fn part(s: &[u8], from: usize, to: usize) -> &[u8] {
    s.get(from..to).unwrap_or(&[])
}

// What stands from a place on.
fn rest(s: &[u8], from: usize) -> &[u8] {
    s.get(from..).unwrap_or(&[])
}

// Where b stands first.
fn find(s: &[u8], b: u8) -> Option<usize> {
    s.iter().position(|x| *x == b)
}

// Where b stands last.
fn find_last(s: &[u8], b: u8) -> Option<usize> {
    s.iter().rposition(|x| *x == b)
}

// The first bar that no backslash stands before. A loop, no `position`: each byte says whether it escapes the next.
fn bar(s: &[u8]) -> Option<usize> {
    let mut escaped = false;
    for (i, b) in s.iter().enumerate() {
        if *b == b'|' && !escaped {
            return Some(i);
        }
        escaped = *b == b'\\';
    }
    None
}

// What stands before a place that was looked for, or all.
fn before(s: &[u8], place: Option<usize>) -> &[u8] {
    place.map_or(s, |i| part(s, 0, i))
}

// What stands behind a place that was looked for.
fn behind(s: &[u8], place: Option<usize>) -> &[u8] {
    place.map_or(&[], |i| rest(s, i.saturating_add(1)))
}

// The first line.
pub fn line(s: &[u8]) -> &[u8] {
    before(s, find(s, b'\n'))
}

// The lines behind the first.
pub fn next_lines(s: &[u8]) -> &[u8] {
    behind(s, find(s, b'\n'))
}

// What stands from the first byte on that is no space.
fn unspaced(s: &[u8]) -> &[u8] {
    s.iter()
        .position(|b| *b != b' ')
        .map_or(&[], |i| rest(s, i))
}

// The word behind n others.
pub fn word(s: &[u8], n: usize) -> &[u8] {
    let mut left = unspaced(s);
    for _ in 0..n {
        left = unspaced(behind(left, find(left, b' ')));
    }
    before(left, find(left, b' '))
}

// The one word that stands there; with more than one, all of it.
pub fn only(s: &[u8]) -> &[u8] {
    if word(s, 1).is_empty() { word(s, 0) } else { s }
}

// What stands behind n bars, up to the next.
pub fn cell(s: &[u8], n: usize) -> &[u8] {
    let mut left = s;
    for _ in 0..n {
        left = behind(left, bar(left));
    }
    before(left, bar(left))
}

// The last that stands between two backquotes; before one alone, what stands behind the first byte.
pub fn last_code(s: &[u8]) -> &[u8] {
    let Some(to) = find_last(s, b'`') else {
        return &[];
    };
    let from = find_last(part(s, 0, to), b'`').unwrap_or(0);
    part(s, from.saturating_add(1), to)
}

// A digit's value.
pub fn digit(b: u8) -> Option<u8> {
    match b {
        0x30..=0x39 => Some(b - 0x30),
        0x41..=0x46 => Some(b - 0x37),
        _ => None,
    }
}

// The number that two digits at the start make.
pub fn number(s: &[u8]) -> Option<u8> {
    let [high, low, ..] = s else {
        return None;
    };
    digit(*high)?.checked_mul(16)?.checked_add(digit(*low)?)
}
