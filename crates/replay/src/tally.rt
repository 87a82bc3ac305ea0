// What went, what was compared, and what differs.
use std::io;

// How much of each part was compared.
#[derive(Clone, Copy, Default)]
pub struct Compared {
    pub answers: u64,
    pub states: u64,
    pub comments: u64,
    pub output: u64,
    pub behind: u64,
}

// How often each part differs.
#[derive(Clone, Copy, Default)]
pub struct Differ {
    pub answers: u64,
    pub states: u64,
    pub queues: u64,
    pub outputs: u64,
    pub rests: u64,
}

#[derive(Clone, Copy, Default)]
pub struct Counts {
    pub histories: u64,
    pub went: u64,
    pub refused: u64,
    pub compared: Compared,
    pub differ: Differ,
}

// A count grows, up to a bound that no file reaches.
pub fn add(count: &mut u64, by: usize) {
    if *count < 0x1_0000_0000 && by < 0x1_0000_0000 {
        *count += by as u64;
    }
}

// Each part that is compared, by itself.
pub fn report_differ(out: &impl Print, differ: Differ) -> io::Result<()> {
    let Differ {
        answers,
        states,
        queues,
        outputs,
        rests,
    } = differ;
    print!(out; "{answers} answers, {states} states, {queues} queues, ")?;
    println!(out; "{outputs} outputs and {rests} rests differ")
}

pub fn report_compared(out: &impl Print, counts: &Counts) -> io::Result<()> {
    let Compared {
        answers,
        states,
        comments,
        output,
        behind,
    } = counts.compared;
    print!(out; "{answers} answers, {states} states, {comments} waiting comments, ")?;
    print!(out; "{output} bytes of output and {behind} bytes behind it compared: ")?;
    report_differ(out, counts.differ)
}
