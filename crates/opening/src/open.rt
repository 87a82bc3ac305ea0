// Opening: the source is checked, then the tree over it.
ghost use Rattle.std.specs.Prelude.{◌≡◌};
ghost use Rattle.opening.specs.Opening.{of_unfit, of_fault, opened};

use crate::levels::Fault;
use text::source::Unfit;
use text::span::BytePos;
use tree::record::RecordNo;

// What is refused at opening, and where.
#[derive(Clone, Copy)]
pub enum Unopened {
    SourceLong,
    SourceIll(BytePos),
    TreeBad(RecordNo),
    TreeDeep(RecordNo),
}

impl From<Unfit> for Unopened {
    ghost from_gives = { λ e u. u ≡ of_unfit e };

    fn from(e: Unfit) -> Unopened {
        match e {
            Unfit::Long => Unopened::SourceLong,
            Unfit::Ill(p) => Unopened::SourceIll(p),
        }
    }
}

impl From<Fault> for Unopened {
    ghost from_gives = { λ e u. u ≡ of_fault e };

    fn from(e: Fault) -> Unopened {
        match e {
            Fault::Bad(i) => Unopened::TreeBad(i),
            Fault::Deep(i) => Unopened::TreeDeep(i),
        }
    }
}

// Refusals 1, 2, then 3 and 7 by records in order; of a good tree how many records it has.
pub fn open(source: &[u8], list: &[u8]) -> Result<RecordNo, Unopened>
    ensures { result ≡ opened source.now list.now }
{
    text::source::check(source)?;
    Ok(crate::levels::check(source, list)?)
}
