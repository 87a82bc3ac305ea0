// The public functions. Source, tree, state and buffer are lent anew at each, and each promises its whole result and the whole buffer.
ghost use Rattle.std.specs.Prelude.{◌≡◌};
ghost use Rattle.lent.specs.Loans.{Made};
ghost use Rattle.entry.specs.Served.{Served, asked_left, call_left, record_left, open_left, as_call, asked_plan};

use crate::checks::{lent, opening};
use crate::state::{State, Step, fresh, left, started};
use calls::make_call;
use lent::formatter::Formatter;
use lent::ring::Queue;
use meaning::answer::Refusal;
use meaning::call::Call;
use tree::table::{decode, first};

// A fresh engine, or refusal 1, 2, 3 or 7.
pub fn open(source: &[u8], tree: &[u8]) -> Step
    ensures { result ≡ open_left source.now tree.now }
{
    let answer = opening(source, tree);
    Step {
        answer,
        state: fresh(),
    }
}

// The call, or refusal 12 where a record holds none.
fn asked(
    src: &[u8],
    table: &[u32],
    fmt: &mut Formatter,
    queue: &mut Queue,
    out: &mut [u8],
    d: Option<Call>,
)
    ensures { Made src table fmt queue out (asked_plan (as_call d)) }
{
    match d {
        Some(c) => make_call(src, table, fmt, queue, out, c),
        None => fmt.refuse(Refusal::BadCall(0)),
    }
}

// A call behind the checks, over the tree decoded; none is refusal 12.
fn served(source: &[u8], tree: &[u8], out: &mut [u8], s: State, d: Option<Call>) -> Step
    ensures { Served s result out.new (asked_left source.now tree.now s out.old (as_call d)) }
{
    let mut words = [0u32; 32768];
    let n = decode(tree, &mut words);
    let mut queue = s.queue;
    let now = s.now;
    let mut fmt = started(now, opening(source, tree));
    lent(source, &mut fmt, &queue, out.len());
    asked(source, first(&words, n), &mut fmt, &mut queue, out, d);
    left(s, &fmt, &queue)
}

// One call.
pub fn call(source: &[u8], tree: &[u8], out: &mut [u8], s: State, c: Call) -> Step
    ensures { Served s result out.new (call_left source.now tree.now s out.old c) }
{
    served(source, tree, out, s, Some(c))
}

// One call record, in bytes.
pub fn record(source: &[u8], tree: &[u8], out: &mut [u8], s: State, bytes: &[u8]) -> Step
    ensures { Served s result out.new (record_left source.now tree.now s out.old bytes.now) }
{
    served(source, tree, out, s, crate::decode::decode(bytes))
}
