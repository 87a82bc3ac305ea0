// Layouts made again and again, each time on a fresh engine.
ghost use Rattle.std.specs.Prelude.{◌≡◌};
ghost use Rattle.meaning.specs.State.{Script};
ghost use Rattle.meaning.specs.Plan.{Plan};
ghost use Rattle.lent.specs.Loans.{Made, script};
ghost use Rattle.rules.specs.Rules.{layout};
ghost use Rattle.rules.specs.Whole.{whole};
ghost use Rattle.bench.specs.Repeated.{Repeats};

use crate::pack::reached;
use entry::state::{fresh, started};
use lent::formatter::Formatter;
use lent::ring::Queue;
use rules::node::layout;
use rules::whole::whole;
use tree::record::RecordNo;
use tree::table::{decode, first};

// What is laid out each time. Its plan hangs on the script.
pub(crate) trait Laid {
    ghost plan: { Self → Script → Plan };

    fn lay(self, src: &[u8], table: &[u32], fmt: &mut Formatter, queue: &mut Queue, out: &mut [u8])
        ensures { Made src table fmt queue out (plan self (script src table)) };
}

// A node.
impl Laid for RecordNo {
    ghost plan = { λ k x. layout x k };

    fn lay(
        self,
        src: &[u8],
        table: &[u32],
        fmt: &mut Formatter,
        queue: &mut Queue,
        out: &mut [u8],
    ) {
        layout(src, table, fmt, queue, out, self);
    }
}

// The script from its root on.
#[derive(Clone, Copy)]
pub(crate) struct WholeScript;

impl Laid for WholeScript {
    ghost plan = { λ w x. whole x };

    fn lay(
        self,
        src: &[u8],
        table: &[u32],
        fmt: &mut Formatter,
        queue: &mut Queue,
        out: &mut [u8],
    ) {
        whole(src, table, fmt, queue, out);
    }
}

// So many times, over a tree that is decoded once; nothing that is lent is checked.
pub(crate) fn again<L: Laid + Copy>(
    source: &[u8],
    tree: &[u8],
    out: &mut [u8],
    what: L,
    times: u32,
) -> u64
    ensures { Repeats source.now tree.now out.old (L.plan what) times result out.new }
{
    let mut words = [0u32; 32768];
    let n = decode(tree, &mut words);
    let s = fresh();
    let now = s.now;
    let mut queue = s.queue;
    let mut fmt = started(now, Ok(()));
    let table = first(&words, n);
    for _ in 0..times {
        fmt = started(now, Ok(()));
        what.lay(source, table, &mut fmt, &mut queue, out);
    }
    reached(&fmt)
}
