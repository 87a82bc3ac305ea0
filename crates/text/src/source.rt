// What opening finds of a source: refusals 1 and 2, in that order.
ghost use Rattle.std.specs.Prelude.{◌≡◌};
ghost use Rattle.text.specs.Source.{checked};

use crate::span::BytePos;

// Why a source is refused: over 65,536 bytes, or ill-formed from a place on.
#[derive(Clone, Copy)]
pub enum Unfit {
    Long,
    Ill(BytePos),
}

pub fn check(s: &[u8]) -> Result<(), Unfit>
    ensures { result ≡ checked s.now }
{
    if 65536 < s.len() {
        return Err(Unfit::Long);
    }
    // A `match` and no `From`: a place fits 32 bits only since the source is short.
    match encoding::utf8::check(s) {
        Ok(()) => Ok(()),
        Err(e) => Err(Unfit::Ill(BytePos(e.at as u32))),
    }
}
