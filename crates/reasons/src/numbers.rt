// The reason of a node, or the refusal, in one word of 64 bits.
ghost use Rattle.std.specs.Prelude.{◌≡◌};
ghost use Rattle.reasons.specs.Numbers.{reason_seen, InOne};

use loose::reason::Reason;
use meaning::answer::Refusal;
use packing::numbers::{above, packed};

// The numbers of the three reasons, as C gets them: far from those of the refusals, of which more may follow. 0 is a compact list.
const WIDE: u32 = 101;

const COMMENT: u32 = 102;

const SIXTH: u32 = 103;

pub fn number(r: Option<Reason>) -> u32
    ensures { result ≡ (reason_seen r).number }
{
    match r {
        Some(Reason::Wide(_)) => WIDE,
        Some(Reason::Comment(_)) => COMMENT,
        Some(Reason::Sixth(_)) => SIXTH,
        None => 0,
    }
}

// A byte of the source for the first, a record for the others.
pub fn place(r: Option<Reason>) -> u32
    ensures { result ≡ (reason_seen r).place }
{
    match r {
        Some(Reason::Wide(p)) => p.0,
        Some(Reason::Comment(k) | Reason::Sixth(k)) => k.0,
        None => 0,
    }
}

// The number above the place.
pub fn in_one(w: Result<Option<Reason>, Refusal>) -> u64
    ensures { InOne w result }
{
    match w {
        Ok(r) => above(number(r), place(r)),
        Err(r) => packed(Err(r), 0),
    }
}
