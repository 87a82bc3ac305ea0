// A run: the checks on what is lent, 10, then the calls of its plan; in place, or by value with its end.
ghost use Rattle.std.specs.Prelude.{◌≡◌};
ghost use Rattle.meaning.specs.Opening.{opening};
ghost use Rattle.entry.specs.Room.{Room};
ghost use Rattle.entry.specs.Served.{Served};
ghost use Rattle.format.specs.Laid.{RanOn, laid, laid_out, laid_whole};

use crate::ended::ended;
use entry::checks::{lent, opening};
use entry::state::{State, Step, started};
use lent::formatter::Formatter;
use lent::ring::Queue;
use rules::node::layout;
use rules::whole::whole;
use tree::record::RecordNo;
use tree::table::{decode, first};

// What a run lays out: a node, or the whole script.
#[derive(Clone, Copy)]
pub enum Wanted {
    Node(RecordNo),
    All,
}

// A record has nine bytes or more: trees of so many bytes fit into tables of 512 and of 2,048 records. Making the full one would be a fifth of
// the time of a small script.
const TINY: usize = 4608;

const SHORT: usize = 18432;

// In place, over a table with room for the tree.
fn run_over(
    words: &mut [u32],
    source: &[u8],
    tree: &[u8],
    fmt: &mut Formatter,
    queue: &mut Queue,
    out: &mut [u8],
    w: Wanted,
)
    requires { (Room tree.now words.old) × (fmt.old.answer ≡ opening source.now tree.now) }
    ensures { RanOn source tree fmt queue out w }
{
    let n = decode(tree, words);
    lent(source, fmt, queue, out.len());
    fmt.stops();
    match w {
        Wanted::Node(k) => layout(source, first(words, n), fmt, queue, out, k),
        Wanted::All => whole(source, first(words, n), fmt, queue, out),
    }
}

// In place: opening's answer stands in the formatter already, and so does the run's when it is done. Refused, the formatter is left as it is: whoever
// lent it puts it back.
pub fn run_in(
    source: &[u8],
    tree: &[u8],
    fmt: &mut Formatter,
    queue: &mut Queue,
    out: &mut [u8],
    w: Wanted,
)
    requires { fmt.old.answer ≡ opening source.now tree.now }
    ensures { RanOn source tree fmt queue out w }
{
    if tree.len() <= TINY {
        let mut words = [0u32; 2048];
        run_over(&mut words, source, tree, fmt, queue, out, w);
        return;
    }
    if tree.len() <= SHORT {
        let mut words = [0u32; 8192];
        run_over(&mut words, source, tree, fmt, queue, out, w);
        return;
    }
    let mut words = [0u32; 32768];
    run_over(&mut words, source, tree, fmt, queue, out, w);
}

// By value.
fn ran(source: &[u8], tree: &[u8], out: &mut [u8], s: State, w: Wanted) -> Step
    ensures { Served s result out.new (laid source.now tree.now s out.old w) }
{
    let mut queue = s.queue;
    let now = s.now;
    let mut fmt = started(now, opening(source, tree));
    run_in(source, tree, &mut fmt, &mut queue, out, w);
    ended(out, s, &fmt, &queue)
}

// A run on node k.
pub fn run(source: &[u8], tree: &[u8], out: &mut [u8], s: State, k: RecordNo) -> Step
    ensures { Served s result out.new (laid_out source.now tree.now s out.old k) }
{
    ran(source, tree, out, s, Wanted::Node(k))
}

// A whole layout.
pub fn lay_out(source: &[u8], tree: &[u8], out: &mut [u8], s: State) -> Step
    ensures { Served s result out.new (laid_whole source.now tree.now s out.old) }
{
    ran(source, tree, out, s, Wanted::All)
}
