// What a call or a run answers and leaves, held against what was recorded of it: eight words of state, four for each waiting comment, the output.
use crate::tally::{Counts, add};
use entry::state::State;
use meaning::answer;
use meaning::answer::Answer;

// The answer as recorded: 0, or the refusal's number times 2^32 and its place.
fn same_answer(a: Answer, recorded: u64) -> bool {
    let number = answer::number(a) as u64;
    let place = answer::place(a) as u64;
    recorded / 0x1_0000_0000 == number && recorded % 0x1_0000_0000 == place
}

// The word number k of those at a place.
fn word(file: &[u8], at: usize, k: usize) -> usize {
    packed::word(file, at.saturating_add(k % 0x1000_0000 * 4))
}

fn same_words(file: &[u8], at: usize, s: State) -> bool {
    let now = s.now;
    word(file, at, 0) == now.len
        && word(file, at, 1) == (now.lines as usize)
        && word(file, at, 2) == usize::from(now.use_lines)
        && word(file, at, 3) == usize::from(now.ws)
        && word(file, at, 4) == (now.indent as usize)
        && word(file, at, 5) == usize::from(now.finished)
        && word(file, at, 6) == (now.count as usize)
}

// The queue's words from slot 0 on, and zero in the unused slots.
fn same_queue(file: &[u8], at: usize, queue: &[u32; 1024]) -> bool {
    let words = word(file, at, 6) % 0x1000 * 4;
    for (i, there) in queue.iter().enumerate() {
        let recorded = if i < words { word(file, at, 8 + i) } else { 0 };
        if *there as usize != recorded {
            return false;
        }
    }
    true
}

// Where the output stands.
fn output_at(file: &[u8], at: usize) -> usize {
    at.saturating_add(32 + word(file, at, 6) % 0x1000 * 16)
}

// What stands behind the output: bytes that nothing touched or, once a run was refused, zero.
fn blank(file: &[u8], at: usize) -> u8 {
    if word(file, at, 7) == 0 { 0xEE } else { 0 }
}

// The output as recorded.
fn same_output(file: &[u8], at: usize, out: &[u8]) -> bool {
    let from = output_at(file, at);
    let len = word(file, at, 0);
    for (i, b) in out.iter().enumerate() {
        if i < len && *b != packed::byte(file, from.saturating_add(i)) {
            return false;
        }
    }
    true
}

// Nothing but the blank behind it.
fn same_behind(file: &[u8], at: usize, out: &[u8]) -> bool {
    let len = word(file, at, 0);
    let rest = blank(file, at);
    out.iter().skip(len).all(|b| *b == rest)
}

// How much of each there is.
fn count_compared(file: &[u8], at: usize, cap: usize, counts: &mut Counts) {
    let len = word(file, at, 0).min(cap);
    let compared = &mut counts.compared;
    add(&mut compared.answers, 1);
    add(&mut compared.states, 1);
    add(&mut compared.comments, word(file, at, 6));
    add(&mut compared.output, len);
    add(&mut compared.behind, cap - len);
}

// Answer, state, queue, output and the bytes behind it, each by itself; `at` is where the answer stands.
pub fn held(file: &[u8], at: usize, given: Answer, s: State, out: &[u8], counts: &mut Counts) {
    let recorded = packed::long(file, at);
    let left = at.saturating_add(8);
    count_compared(file, left, out.len(), counts);
    if recorded == 0 {
        add(&mut counts.went, 1);
    } else {
        add(&mut counts.refused, 1);
    }
    let differ = &mut counts.differ;
    add(
        &mut differ.answers,
        usize::from(!same_answer(given, recorded)),
    );
    add(&mut differ.states, usize::from(!same_words(file, left, s)));
    add(
        &mut differ.queues,
        usize::from(!same_queue(file, left, &s.queue)),
    );
    add(
        &mut differ.outputs,
        usize::from(!same_output(file, left, out)),
    );
    add(
        &mut differ.rests,
        usize::from(!same_behind(file, left, out)),
    );
}

// Where the next step stands.
pub fn behind(file: &[u8], at: usize) -> usize {
    let left = at.saturating_add(8);
    output_at(file, left).saturating_add(word(file, left, 0))
}
