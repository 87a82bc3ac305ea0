// An engine that is changed in place: thin calls on a lent engine. Each takes the state apart, calls the function of `entry` or `format` on it
// by value, and stores back what that hands back, so none has work of its own.
#![tactic(auto)]

ghost use Rattle.entry.specs.Served.{Served, call_left};
ghost use Rattle.engine_mut.specs.Stored.{Changed, called, recorded, laid, laid_whole};

use entry::state::{State, Step};
use meaning::answer::Answer;
use meaning::call::Call;
use tree::record::RecordNo;

#[derive(Clone, Copy)]
pub struct Engine {
    pub state: State,
}

// One call.
pub fn call(e: &mut Engine, source: &[u8], tree: &[u8], out: &mut [u8], c: Call) -> Answer
    ensures { Changed e out result (called e source tree out c) }
{
    let z = entry::engine::call(source, tree, out, e.state, c);
    e.state = z.state;
    z.answer
}

// One call record, in bytes.
pub fn record(e: &mut Engine, source: &[u8], tree: &[u8], out: &mut [u8], bytes: &[u8]) -> Answer
    ensures { Changed e out result (recorded e source tree out bytes) }
{
    let z = entry::engine::record(source, tree, out, e.state, bytes);
    e.state = z.state;
    z.answer
}

// A run on node k.
pub fn run(e: &mut Engine, source: &[u8], tree: &[u8], out: &mut [u8], k: RecordNo) -> Answer
    ensures { Changed e out result (laid e source tree out k) }
{
    let z = format::runs::run(source, tree, out, e.state, k);
    e.state = z.state;
    z.answer
}

// A whole layout.
pub fn layout(e: &mut Engine, source: &[u8], tree: &[u8], out: &mut [u8]) -> Answer
    ensures { Changed e out result (laid_whole e source tree out) }
{
    let z = format::runs::lay_out(source, tree, out, e.state);
    e.state = z.state;
    z.answer
}

// The finish, by value.
fn finished(source: &[u8], tree: &[u8], out: &mut [u8], s: State) -> Step
    ensures { Served s result out.new (call_left source.now tree.now s out.old Call.Finish) }
{
    entry::engine::call(source, tree, out, s, Call::Finish)
}

// Lets out what waits, and closes the engine.
pub fn finish(e: &mut Engine, source: &[u8], tree: &[u8], out: &mut [u8]) -> Answer
    ensures { Changed e out result (called e source tree out Call.Finish) }
{
    let z = finished(source, tree, out, e.state);
    e.state = z.state;
    z.answer
}
