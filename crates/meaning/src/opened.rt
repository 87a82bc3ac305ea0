// What opening refuses, as one of the twelve refusals.
ghost use Rattle.std.specs.Prelude.{◌≡◌};
ghost use Rattle.meaning.specs.Opening.{of_unopened};

use crate::answer::Refusal;
use opening::open::Unopened;

impl From<Unopened> for Refusal {
    ghost from_gives = { λ e r. r ≡ of_unopened e };

    fn from(e: Unopened) -> Refusal {
        match e {
            Unopened::SourceLong => Refusal::SourceLong,
            Unopened::SourceIll(p) => Refusal::SourceIll(p),
            Unopened::TreeBad(i) => Refusal::TreeBad(i),
            Unopened::TreeDeep(i) => Refusal::TreeDeep(i),
        }
    }
}
