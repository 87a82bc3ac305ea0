// The lent buffer: is there room, and the writing itself. Only `fill`, `copy` and `lay` ask for room; their callers have tested it.
ghost use Rattle.std.specs.Prelude.{◌≡◌, false, ◌+◌, ◌≤◌, length, replicate, ltb};
ghost use Rattle.std.proofs.lemmas.List.Edits.{sets};
ghost use Rattle.meaning.specs.Pieces.{breaks};
ghost use Rattle.lent.specs.View.{gap_bytes, Laid};

// White space in front of a text: newlines, then spaces.
#[derive(Clone, Copy)]
pub struct Gap {
    pub lines: usize,
    pub spaces: usize,
}

impl Gap {
    pub const NONE: Gap = Gap {
        lines: 0,
        spaces: 0,
    };

    pub const SPACE: Gap = Gap {
        lines: 0,
        spaces: 1,
    };
}

// min(n, 2) newlines and the indent of the line behind them.
#[tactic(auto, unfolding(meaning::specs::Pieces::breaks))]
pub fn line_break(indent: u8, n: u32) -> Gap
    ensures { gap_bytes result ≡ breaks indent n }
{
    let spaces = (indent as usize) * 4;
    let lines = n.min(2) as usize;
    Gap { lines, spaces }
}

// Would a gap and n bytes behind it, from place `at` on, pass a buffer of `cap` bytes?
pub fn passes(cap: usize, at: usize, gap: Gap, n: usize) -> bool
    ensures { (result ≡ ltb cap (at + (gap.lines + gap.spaces) + n)) × (result ≡ false → at + (gap.lines + gap.spaces) + n ≤ cap) }
{
    if cap < at {
        return true;
    }
    let left = cap - at;
    if left < gap.lines {
        return true;
    }
    let rest = left - gap.lines;
    rest < gap.spaces || rest - gap.spaces < n
}

pub fn fill(out: &mut [u8], at: usize, n: usize, b: u8)
    requires { at + n ≤ length out.old }
    ensures { out.new ≡ sets out.old at (replicate n b) }
{
    // one space, most often: a store, and no call of memset
    if n == 1 {
        out[at] = b;
        return;
    }
    out[at..at + n].fill(b);
}

fn copy(out: &mut [u8], at: usize, t: &[u8])
    requires { at + length t.now ≤ length out.old }
    ensures { out.new ≡ sets out.old at t.now }
{
    // a loop, since `copy_from_slice` is a call of memmove, which no C program was asked for
    for i in 0..t.len() {
        out[at + i] = t[i];
    }
}

// A gap, and the text behind it: where it ends.
pub fn lay(out: &mut [u8], at: usize, gap: Gap, t: &[u8]) -> usize
    requires { at + (gap.lines + gap.spaces) + length t.now ≤ length out.old }
    ensures { Laid out.old at gap t.now result out.new }
{
    let text = at + gap.lines + gap.spaces;
    fill(out, at, gap.lines, 0x0A);
    fill(out, at + gap.lines, gap.spaces, 0x20);
    copy(out, text, t);
    text + t.len()
}
