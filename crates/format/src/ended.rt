// The end of a run: where it was refused, the engine is put back and the output is zeroed from its former length on.
ghost use Rattle.std.specs.Prelude.{◌≡◌};
ghost use Rattle.meaning.specs.Plan.{zeroed};
ghost use Rattle.entry.specs.Ended.{Ended};

use entry::state::{State, Step, left};
use lent::formatter::Formatter;
use lent::ring::Queue;
use lent::room::fill;

// Zero from place n to the buffer's end.
pub fn zero_from(out: &mut [u8], n: usize)
    ensures { out.new ≡ zeroed n out.old }
{
    if n < out.len() {
        let rest = out.len() - n;
        fill(out, n, rest, 0);
    }
}

// The end of a run that began from the state s.
pub fn ended(out: &mut [u8], s: State, fmt: &Formatter, queue: &Queue) -> Step
    ensures { Ended s fmt.now queue.now out.old result out.new }
{
    if fmt.stopped() {
        zero_from(out, s.now.len);
        return left(s, fmt, queue);
    }
    left(s, fmt, queue)
}
