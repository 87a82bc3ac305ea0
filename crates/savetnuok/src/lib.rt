// The functions that are offered: numbers and byte slices only. Each asks all it needs of what is lent, and promises its answer and every
// byte of what it may write. Crate savetnuok_c hands them to C.
#![tactic(auto)]

ghost use Rattle.std.specs.Prelude.{◌≡◌, false};
ghost use Rattle.lent.specs.Run.{is_refused};
ghost use Rattle.savetnuok.specs.Exported.{then_shape, Opened, CalledOn, LaidAs, LaidOn, WholeOn};
ghost use Rattle.savetnuok.specs.Why.{ToldOn};

use entry::checks::opening;
use entry::engine::record;
use entry::state::{fresh, now_of, started};
use format::ended::zero_from;
use format::runs::{Wanted, run_in};
use lent::ring::tidy;
use meaning::answer::{Answer, Refusal};
use packing::numbers::packed;
use reasons::numbers::in_one;
use reasons::why::why_in;
use tree::record::RecordNo;
use wire::state_bytes::{SIZE, queue_in, read_now, read_state, shaped, write_state};
use wire::word::word;

// What is answered where the shape is wrong: 1, 2, 3, 7, else 5 at place 8,192.
fn misshapen(a: Answer) -> Answer
    ensures { result ≡ then_shape a false }
{
    a?;
    Err(Refusal::QueueFull(RecordNo(8192)))
}

fn refused(a: Answer) -> bool
    ensures { result ≡ is_refused a }
{
    match a {
        Ok(()) => false,
        Err(_) => true,
    }
}

// A fresh engine in the lent state, or refusal 1, 2, 3, 7, or 5 for a state of another length.
pub fn savetnuok_open(source: &[u8], tree: &[u8], state: &mut [u8]) -> u64
    ensures { Opened source.now tree.now state.old result state.new }
{
    let answer = opening(source, tree);
    if state.len() != SIZE {
        return packed(misshapen(answer), 0);
    }
    if refused(answer) {
        return packed(answer, 0);
    }
    let s = fresh();
    write_state(state, s.now, &s.queue);
    0
}

// One call record on the lent state and buffer.
pub fn savetnuok_call(
    source: &[u8],
    tree: &[u8],
    state: &mut [u8],
    out: &mut [u8],
    bytes: &[u8],
) -> u64
    ensures { CalledOn source tree state out bytes result }
{
    if shaped(state, out.len()) {
        let indent = word(state, 4);
        let step = record(source, tree, out, read_state(state), bytes);
        let answer = step.answer;
        if refused(answer) {
            return packed(answer, indent);
        }
        let s = step.state;
        write_state(state, s.now, &s.queue);
        return 0;
    }
    packed(misshapen(opening(source, tree)), 0)
}

// A run in place: the state's words go into a formatter and a ring, and back where nothing was refused. Refused, it zeroes the buffer from
// the state's length on, unless the shape is wrong: then no word of the state is trusted.
fn laid(source: &[u8], tree: &[u8], state: &mut [u8], out: &mut [u8], w: Wanted) -> u64
    ensures { LaidAs source tree state out w result }
{
    if shaped(state, out.len()) {
        let indent = word(state, 4);
        let now = read_now(state);
        let mut fmt = started(now, opening(source, tree));
        let mut queue = queue_in(state);
        run_in(source, tree, &mut fmt, &mut queue, out, w);
        if fmt.stopped() {
            zero_from(out, now.len);
            return packed(fmt.answer, indent);
        }
        let waiting = tidy(&queue, fmt.head, fmt.count);
        write_state(state, now_of(&fmt), &waiting);
        return 0;
    }
    packed(misshapen(opening(source, tree)), 0)
}

// A layout run on a node of the tree, on the lent state and buffer.
pub fn savetnuok_run(source: &[u8], tree: &[u8], state: &mut [u8], out: &mut [u8], node: u32) -> u64
    ensures { LaidOn source tree state out node result }
{
    laid(source, tree, state, out, Wanted::Node(RecordNo(node)))
}

// A whole layout of the script whose body is record 0, on the lent state and buffer.
pub fn savetnuok_layout(source: &[u8], tree: &[u8], state: &mut [u8], out: &mut [u8]) -> u64
    ensures { WholeOn source tree state out result }
{
    laid(source, tree, state, out, Wanted::All)
}

// Why a list went over several lines: the reason's number and place, 0 for a compact list, or a refusal. Nothing that is lent is written.
pub fn savetnuok_why(source: &[u8], tree: &[u8], node: u32) -> u64
    ensures { ToldOn source tree node result }
{
    in_one(why_in(source, tree, RecordNo(node)))
}
