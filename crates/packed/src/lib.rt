// Recorded cases, as oracle/README.md has them: numbers, and bytes as pieces that stand several times each. Whatever the file holds, every
// read is answered.
#![tactic(auto)]

ghost use Rattle.std.specs.Prelude.{◌≡◌, ◌+◌, ◌&&◌, cond, ltb};

// Bytes unpacked: where the file goes on, and how many there are.
#[derive(Clone, Copy)]
pub struct Unpacked {
    pub at: usize,
    pub len: usize,
}

// The sum of two places, 2^31 where either is 2^30 or more. No saturating sum of the library: `replay` reads a file at places modulo 2^30, and
// has to come out at its front behind a place that no file has.
pub fn plus(a: usize, b: usize) -> usize
    ensures { result ≡ cond (ltb a 0x40000000 && ltb b 0x40000000) (a + b) 0x80000000 }
{
    if a < 0x4000_0000 && b < 0x4000_0000 {
        a + b
    } else {
        0x8000_0000
    }
}

// The byte at a place, 0 behind the end.
pub fn byte(file: &[u8], at: usize) -> u8 {
    file.get(at).copied().unwrap_or(0)
}

// So many bytes from a place on.
fn bytes<const N: usize>(file: &[u8], at: usize) -> [u8; N] {
    std::array::from_fn(|i: usize| byte(file, at.saturating_add(i)))
}

// Four bytes, low byte first.
pub fn word(file: &[u8], at: usize) -> usize {
    u32::from_le_bytes(bytes::<4>(file, at)) as usize
}

// Eight bytes, low byte first.
pub fn long(file: &[u8], at: usize) -> u64 {
    u64::from_le_bytes(bytes::<8>(file, at))
}

// The first n bytes, as far as there are so many.
pub fn front(s: &[u8], n: usize) -> &[u8] {
    s.get(..n).unwrap_or(s)
}

// The bytes from a place on, so many, as far as there are.
pub fn slice(s: &[u8], at: usize, n: usize) -> &[u8] {
    front(s.get(at..).unwrap_or(&[]), n)
}

// One piece, once: `len` bytes of the file from `at` go to place n.
fn copy(file: &[u8], at: usize, len: usize, to: &mut [u8], n: usize) {
    if let Some(places) = to.get_mut(n..) {
        for (i, place) in places.iter_mut().take(len).enumerate() {
            *place = byte(file, at.saturating_add(i));
        }
    }
}

// The piece, so many times from place n on; the place behind it.
fn repeat(file: &[u8], at: usize, len: usize, times: usize, to: &mut [u8], n: usize) -> usize {
    let mut end = n;
    for _ in 0..times {
        copy(file, at, len, to, end);
        end = end.saturating_add(len);
    }
    end
}

// The bytes that the pieces at a place of the file stand for.
pub fn unpack(file: &[u8], at: usize, to: &mut [u8]) -> Unpacked {
    let pieces = word(file, at);
    let mut from = at.saturating_add(4);
    let mut n: usize = 0;
    for _ in 0..pieces {
        let times = word(file, from);
        let len = word(file, from.saturating_add(4));
        let piece = from.saturating_add(8);
        n = repeat(file, piece, len, times, to, n);
        from = piece.saturating_add(len);
    }
    Unpacked { at: from, len: n }
}
