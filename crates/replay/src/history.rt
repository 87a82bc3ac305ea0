// One history: a fresh engine over its source and tree, and its steps one by one, calls and, in the file of runs, layout runs.
use crate::compare;
use crate::tally::{Counts, add};
use entry::engine;
use entry::state::{State, Step};
use format::runs;
use tree::record::RecordNo;

// Where the file goes on within a history, with the engine as last left.
#[derive(Clone, Copy)]
struct Next {
    at: usize,
    state: State,
}

// The node that a layout run names.
fn node(bytes: &[u8]) -> RecordNo {
    RecordNo((packed::word(bytes, 1) % 0x1_0000_0000) as u32)
}

// One step: in the file of runs E0 and a node is a layout run, all else is a call record.
fn step(
    source: &[u8],
    tree: &[u8],
    out: &mut [u8],
    state: State,
    bytes: &[u8],
    with_runs: bool,
) -> Step {
    if with_runs && packed::byte(bytes, 0) == 0xE0 {
        return runs::run(source, tree, out, state, node(bytes));
    }
    engine::record(source, tree, out, state, bytes)
}

// One step: its bytes, what is answered, and what is left.
fn one(
    file: &[u8],
    source: &[u8],
    tree: &[u8],
    out: &mut [u8],
    n: Next,
    with_runs: bool,
    counts: &mut Counts,
) -> Next {
    let len = packed::word(file, n.at);
    let from = n.at.saturating_add(4);
    let at = from.saturating_add(len);
    let state = n.state;
    let bytes = packed::slice(file, from, len);
    let step = step(source, tree, out, state, bytes, with_runs);
    let given = step.answer;
    let state = step.state;
    compare::held(file, at, given, state, out, counts);
    Next {
        at: compare::behind(file, at),
        state,
    }
}

fn steps(
    file: &[u8],
    source: &[u8],
    tree: &[u8],
    out: &mut [u8],
    first: Next,
    count: usize,
    with_runs: bool,
    counts: &mut Counts,
) -> usize {
    let mut n = first;
    for _ in 0..count {
        n = one(file, source, tree, out, n, with_runs, counts);
    }
    n.at
}

// Where the source and the tree end in their buffers, and where the file goes on.
#[derive(Clone, Copy)]
struct Loaded {
    source: usize,
    list: usize,
    at: usize,
}

fn load(file: &[u8], source: &mut [u8], list: &mut [u8]) -> Loaded {
    let s = packed::unpack(file, 0, source);
    let l = packed::unpack(file, s.at, list);
    Loaded {
        source: s.len,
        list: l.len,
        at: l.at,
    }
}

// The history on a buffer of its length: behind that length in the file stand the number of steps and the steps.
fn play(
    file: &[u8],
    at: usize,
    source: &[u8],
    tree: &[u8],
    out: &mut [u8],
    with_runs: bool,
    counts: &mut Counts,
) -> usize {
    // no call writes such bytes
    out.fill(0xEE);
    let opened = engine::open(source, tree);
    let state = opened.state;
    let first = Next {
        at: at.saturating_add(8),
        state,
    };
    let count = packed::word(file, at.saturating_add(4));
    add(&mut counts.histories, 1);
    steps(file, source, tree, out, first, count, with_runs, counts)
}

// The history at the front of the file's bytes, and where the next one stands.
pub fn run(
    file: &[u8],
    source: &mut [u8],
    list: &mut [u8],
    out: &mut [u8],
    with_runs: bool,
    counts: &mut Counts,
) -> usize {
    let l = load(file, source, list);
    let cap = packed::word(file, l.at).min(out.len());
    play(
        file,
        l.at,
        packed::front(source, l.source),
        packed::front(list, l.list),
        &mut out[0..cap],
        with_runs,
        counts,
    )
}
