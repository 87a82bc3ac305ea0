// An answer as one number.
ghost use Rattle.std.specs.Prelude.{◌≡◌};
ghost use Rattle.meaning.specs.Numbers.{seen};
ghost use Rattle.bench.specs.Packed.{packed, found, reached_as};

use encoding::utf8::IllFormed;
use lent::formatter::Formatter;
use meaning::answer::{Answer, number, place};

// The number of a refusal above 32 bits of its place.
pub fn pack(a: Answer) -> u64
    ensures { result ≡ packed (seen a) }
{
    let n = number(a) as u64;
    let p = place(a) as u64;
    n * 0x100000000 + p % 0x100000000
}

// Well-formed, or the place.
pub fn finding(f: Result<(), IllFormed>) -> u64
    ensures { result ≡ found f }
{
    match f {
        Ok(()) => 0xFFFFFFFFFFFFFFFF,
        Err(e) => e.at as u64,
    }
}

// What calls or runs came to: the refusal, or the output's length.
pub fn reached(fmt: &Formatter) -> u64
    ensures { result ≡ reached_as fmt.now.answer fmt.now.len }
{
    if fmt.stopped() {
        return pack(fmt.answer);
    }
    fmt.len as u64 % 0x100000000
}
