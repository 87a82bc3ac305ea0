// Document 01's small sessions through the public functions: each answer, how many comments wait, and the output. P1 to P3 and the two lists are
// layout runs, P4 to P10 calls.
#![tactic(auto)]

mod lists;
mod say;

use entry::engine;
use entry::state::{State, fresh};
use meaning::call::{Call, Hint};
use say::show;
use std::io;
use tree::record::RecordNo;

// A line comment, a block comment and two tokens.
fn source() -> [u8; 13] {
    *b"// n/* b */az"
}

// The tree over it: leaves 01, 02, 03, 03.
fn leaves() -> [u8; 36] {
    [
        1, 0, 0, 0, 0, 4, 0, 0, 0, 2, 4, 0, 0, 0, 11, 0, 0, 0, 3, 11, 0, 0, 0, 12, 0, 0, 0, 3, 12,
        0, 0, 0, 13, 0, 0, 0,
    ]
}

// An engine with one byte of output, the line comment waiting with `before`, and `lines`.
fn engine_of(len: usize, notes: u32, before: u32, block: bool, lines: u32) -> State {
    let mut s = fresh();
    s.now.len = len;
    s.now.lines = lines;
    s.now.count = notes;
    let mut queue = s.queue;
    if block {
        queue[0] = 4;
        queue[1] = 11;
    } else {
        queue[1] = 4;
        queue[2] = before;
        queue[3] = 1;
        queue[4] = 4;
        queue[5] = 11;
    }
    s.queue = queue;
    s
}

fn run(
    to: &impl Print,
    name: &str,
    first: u8,
    s: State,
    c: Call,
    then: Option<Call>,
) -> io::Result<()> {
    let mut out = [0u8; 40];
    out[0] = first;
    let src = source();
    let tree = leaves();
    let mut step = engine::call(&src, &tree, &mut out, s, c);
    if let Some(then) = then {
        step = engine::call(&src, &tree, &mut out, step.state, then);
    }
    show(to, name, step.answer, step.state, &out)
}

// P4 to P7: comments wait.
fn waiting(to: &impl Print) -> io::Result<()> {
    run(
        to,
        "P4",
        0x61,
        engine_of(1, 1, 0, false, 0),
        Call::Nl(1),
        None,
    )?;
    run(
        to,
        "P5",
        0x61,
        engine_of(1, 1, 1, false, 0),
        Call::Nl(1),
        None,
    )?;
    run(to, "P6", 0x61, engine_of(1, 2, 0, false, 0), Call::Ws, None)?;
    run(
        to,
        "P7",
        0x28,
        engine_of(1, 1, 0, true, 0),
        Call::Comments(Hint::Prefix),
        None,
    )
}

// P8 to P10: none does.
fn none_waiting(to: &impl Print) -> io::Result<()> {
    run(
        to,
        "P8",
        0,
        engine_of(0, 0, 0, false, 0),
        Call::Indent(0xFF),
        None,
    )?;
    run(
        to,
        "P9",
        0,
        engine_of(0, 0, 0, false, 0),
        Call::Ws,
        Some(Call::WriteOwned(RecordNo(2))),
    )?;
    run(
        to,
        "P10",
        0x61,
        engine_of(1, 0, 0, false, 5),
        Call::Nl(1),
        Some(Call::WriteOwned(RecordNo(3))),
    )
}

fn main(rt: HostRuntime) -> io::Result<()> {
    lists::widths(&rt)?;
    waiting(&rt)?;
    none_waiting(&rt)?;
    lists::samples(&rt)
}
