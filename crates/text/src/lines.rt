// Newlines, counted.
ghost use Rattle.std.specs.Prelude.{◌≡◌};
ghost use Rattle.text.specs.Lines.{newlines};

// How many bytes of the text are 0A.
#[tactic(auto, unfolding(crate::specs::Lines::newlines))]
pub fn count_newlines(t: &[u8]) -> usize
    ensures { result ≡ newlines t.now }
{
    let mut n = 0;
    for &b in t {
        if b == b'\n' {
            n += 1;
        }
    }
    n
}
