// The lists of the rules: what is done before an item, behind it, and behind the last.
ghost use Rattle.std.specs.Prelude.{◌≡◌};
ghost use Rattle.meaning.specs.declared.call.Hint.TheVariants.{Prefix};
ghost use Rattle.meaning.specs.declared.call.Call.TheVariants.{Comments};
ghost use Rattle.meaning.specs.Plan.{make, ◌then◌};
ghost use Rattle.lent.specs.Loans.{Made};
ghost use Rattle.steps.specs.Remaining.{remaining_of, RestedWith};
ghost use Rattle.steps.specs.Items.{more, separated, suffix, closing};

use crate::remaining::{Mark, Remaining, pass, put, take_remaining};
use calls::{comments, ws};
use lent::formatter::Formatter;
use lent::ring::Queue;
use meaning::call::Hint;
use walk::stream::Stream;

// How many items there were: the Rust counts on, and asks no more than this.
#[derive(Clone, Copy)]
pub enum Few {
    Zero,
    One,
    Many,
}

impl Few {
    pub fn more(self) -> Few
        ensures { result ≡ more self }
    {
        match self {
            Few::Zero => Few::One,
            Few::One | Few::Many => Few::Many,
        }
    }
}

// Comments, and the comma of the item before.
pub fn before_item(
    src: &[u8],
    table: &[u32],
    fmt: &mut Formatter,
    queue: &mut Queue,
    out: &mut [u8],
    comma: Remaining,
)
    ensures { Made src table fmt queue out (make (Comments Prefix) then separated (remaining_of Mark.Comma comma)) }
{
    comments(src, table, fmt, queue, out, Hint::Prefix);
    put(src, table, fmt, queue, out, comma, Mark::Comma);
    if comma.says() {
        ws(src, table, fmt, queue, out);
    }
}

// Its comma, which is kept for the next turn, and comments.
pub fn behind_item(
    src: &[u8],
    table: &[u32],
    fmt: &mut Formatter,
    queue: &mut Queue,
    out: &mut [u8],
    p: &mut Stream,
) -> Remaining
    ensures { RestedWith src table fmt queue out p Mark.Comma suffix result }
{
    let comma = take_remaining(table, fmt, p, Mark::Comma);
    comments(src, table, fmt, queue, out, Hint::Suffix);
    comma
}

// Behind the last: its comma is not written; comments of a list without items.
pub fn close_list(
    src: &[u8],
    table: &[u32],
    fmt: &mut Formatter,
    queue: &mut Queue,
    out: &mut [u8],
    comma: Remaining,
)
    ensures { Made src table fmt queue out (closing (remaining_of Mark.Comma comma)) }
{
    pass(src, table, fmt, queue, out, comma);
    if !comma.says() {
        comments(src, table, fmt, queue, out, Hint::Infix);
    }
}
