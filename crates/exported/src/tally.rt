// What was made, what was answered, what was compared, and what differs.
use std::io;

// By the number of the answer from 0 on; then as `Count` says. No struct of fields: a recorded number above 12 is counted in its place, too.
pub type Counts = [u64; 32];

// What is counted behind the answers.
#[derive(Clone, Copy)]
pub enum Count {
    Opened = 13,
    Called = 14,
    Ran = 15,
    StateBytes = 16,
    OutBytes = 17,
    AnswersDiffer = 18,
    StatesDiffer = 19,
    BuffersDiffer = 20,
    Asked = 21,
    // the three reasons, which `savetnuok_why` answers as 101 to 103
    Wide = 22,
    Comment = 23,
    Sixth = 24,
}

pub fn none() -> Counts {
    [0u64; 32]
}

// No count or step of a file reaches it.
const BOUND: u64 = 0x1_0000_0000;

// A count grows, up to the bound.
fn add_at(counts: &mut Counts, i: usize, by: usize) {
    let by = by as u64;
    if let Some(n) = counts.get_mut(i) {
        if *n < BOUND && by < BOUND {
            *n += by;
        }
    }
}

pub fn add(counts: &mut Counts, c: Count, by: usize) {
    add_at(counts, c as usize, by);
}

pub fn add_if(counts: &mut Counts, c: Count, yes: bool) {
    add(counts, c, usize::from(yes));
}

// An answer is counted by its number: others than the reasons at the number itself. Numbers, no enum: a file holds what the C functions answered.
pub fn add_answer(counts: &mut Counts, number: u64) {
    let i = match number {
        101 => Count::Wide as usize,
        102 => Count::Comment as usize,
        103 => Count::Sixth as usize,
        _ => number as usize,
    };
    add_at(counts, i, 1);
}

// So many were answered by this number.
fn answers(counts: &Counts, number: usize) -> u64 {
    counts.get(number).copied().unwrap_or(0)
}

fn of(counts: &Counts, c: Count) -> u64 {
    answers(counts, c as usize)
}

pub fn report_differ(out: &impl Print, counts: &Counts) -> io::Result<()> {
    let differ = of(counts, Count::AnswersDiffer);
    let states = of(counts, Count::StatesDiffer);
    let buffers = of(counts, Count::BuffersDiffer);
    println!(out; "{differ} answers, {states} states and {buffers} buffers differ")
}

fn report_refused(out: &impl Print, counts: &Counts) -> io::Result<()> {
    print!(out; "; refused")?;
    for i in 1..13 {
        let n = answers(counts, i);
        print!(out; " {i}: {n}")?;
    }
    println!(out;)
}

pub fn report(out: &impl Print, counts: &Counts) -> io::Result<()> {
    let openings = of(counts, Count::Opened);
    let calls = of(counts, Count::Called);
    let runs = of(counts, Count::Ran);
    let done = answers(counts, 0);
    let state = of(counts, Count::StateBytes);
    let buffer = of(counts, Count::OutBytes);
    print!(out; "{openings} openings, {calls} calls, {runs} runs: {done} done")?;
    report_refused(out, counts)?;
    print!(out; "{state} bytes of state and {buffer} bytes of buffer compared: ")?;
    report_differ(out, counts)
}

// Of questions why: what was told.
pub fn report_reasons(out: &impl Print, counts: &Counts) -> io::Result<()> {
    let questions = of(counts, Count::Asked);
    let compact = answers(counts, 0);
    let wide = of(counts, Count::Wide);
    let comment = of(counts, Count::Comment);
    let sixth = of(counts, Count::Sixth);
    print!(out; "{questions} questions why: {compact} compact, {wide} too wide, ")?;
    print!(out; "{comment} with a line comment, {sixth} with a sixth entry")?;
    report_refused(out, counts)?;
    report_differ(out, counts)
}
