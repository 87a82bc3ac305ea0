// The number and the place of an answer in one word of 64 bits.
ghost use Rattle.std.specs.Prelude.{◌≡◌, ◌+◌, ◌*◌, ◌%◌};
ghost use Rattle.packing.specs.Places.{indent_place, place_word, Packed};

use meaning::answer::{Answer, Refusal, number};

// A count cut to a word.
fn low_word(n: usize) -> u32
    ensures { result ≡ n % 0x100000000 }
{
    (n % 0x100000000) as u32
}

// The place of 6: an indent over 64 was lent so, and may be larger than the byte that the engine was handed.
fn indent_place(n: u32, indent: u32) -> u32
    ensures { result ≡ indent_place indent n }
{
    if 64 < n { indent } else { n }
}

// The place as a word. A run's calls go on from states that were never lent, so each count is the refusal's own.
fn place(a: Answer, indent: u32) -> u32
    ensures { result ≡ place_word indent a }
{
    match a {
        Ok(()) => 0,
        Err(r) => match r {
            Refusal::SourceLong => 65536,
            Refusal::SourceIll(p) => p.0,
            Refusal::TreeBad(k) => k.0,
            Refusal::NoRoom(n) => low_word(n),
            Refusal::QueueFull(k) => k.0,
            Refusal::IndentOut(n) => indent_place(n, indent),
            Refusal::TreeDeep(k) => k.0,
            Refusal::WrongKind(k) => k.0,
            Refusal::NoRule(k) => k.0,
            Refusal::Finished(n) => low_word(n),
            Refusal::NoNode(k) => k.0,
            Refusal::BadCall(n) => low_word(n),
        },
    }
}

// A number above a place, in one word of 64 bits: C gets both so.
pub fn above(number: u32, place: u32) -> u64
    ensures { result ≡ number * 0x100000000 + place }
{
    u64::from(number) * 0x100000000 + u64::from(place)
}

// 0 for done, else the number above the place; beside the lent state's indent.
pub fn packed(a: Answer, indent: u32) -> u64
    ensures { Packed indent a result }
{
    above(number(a), place(a, indent))
}
