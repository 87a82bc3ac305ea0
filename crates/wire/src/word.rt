// Words of four bytes, low byte first.
ghost use Rattle.std.specs.Prelude.{◌≡◌, ◌++◌, ◌+◌, ◌*◌, ◌≤◌, length, take, drop};
ghost use Rattle.wire.specs.Words.{word_at, word_bytes};
ghost use Rattle.wire.specs.CodeState.{Wrote};

// Word i of a slice.
pub fn word(s: &[u8], i: usize) -> u32
    requires { i * 4 + 4 ≤ length s.now }
    ensures { result ≡ word_at s.now i }
{
    let p = i * 4;
    u32::from_le_bytes([s[p], s[p + 1], s[p + 2], s[p + 3]])
}

// Word i anew.
fn put(to: &mut [u8], i: usize, w: u32)
    requires { i * 4 + 4 ≤ length to.old }
    ensures { to.new ≡ take (i * 4) to.old ++ word_bytes w ++ drop (i * 4 + 4) to.old }
{
    let p = i * 4;
    to[p..p + 4].copy_from_slice(&w.to_le_bytes());
}

// Words one behind the other, over a slice that they fill.
pub fn write(words: &[u32], to: &mut [u8])
    requires { length to.old ≡ length words.now * 4 }
    ensures { Wrote words.now to.new }
{
    for (i, w) in words.iter().enumerate() {
        put(to, i, *w);
    }
}
