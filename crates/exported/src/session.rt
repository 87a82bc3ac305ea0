// One step: something is lent anew, or a function is called.
use crate::tally;
use crate::tally::{Count, Counts, add, add_if};
use savetnuok::{savetnuok_call, savetnuok_open, savetnuok_run, savetnuok_why};

// Where the file goes on, and how many bytes of each are lent.
#[derive(Clone, Copy)]
pub struct Lent {
    pub at: usize,
    pub source: usize,
    pub tree: usize,
    pub state: usize,
    pub out: usize,
}

// Behind the number of steps; nothing is lent yet.
pub fn nothing() -> Lent {
    Lent {
        at: 4,
        source: 0,
        tree: 0,
        state: 0,
        out: 0,
    }
}

// What a step lends anew.
#[derive(Clone, Copy)]
enum Loan {
    Source,
    Tree,
    State,
    Out,
}

// Which function a step calls.
#[derive(Clone, Copy)]
enum Function {
    Open,
    Call,
    Run,
    Why,
}

#[derive(Clone, Copy)]
enum Kind {
    Lend(Loan),
    Ask(Function),
}

// The file's kinds of step: 0 to 3 lend a source, a tree, a state, a buffer; 4 to 6 open, call, run; 8 asks why.
impl From<usize> for Kind {
    fn from(kind: usize) -> Kind {
        match kind {
            0 => Kind::Lend(Loan::Source),
            1 => Kind::Lend(Loan::Tree),
            2 => Kind::Lend(Loan::State),
            3 => Kind::Lend(Loan::Out),
            4 => Kind::Ask(Function::Open),
            5 => Kind::Ask(Function::Call),
            6 => Kind::Ask(Function::Run),
            _ => Kind::Ask(Function::Why),
        }
    }
}

// ---- what is lent

// One struct of the six buffers would be lent whole with each: the borrow check of a call that takes several has no proof then.
fn lend(
    file: &[u8],
    l: Lent,
    loan: Loan,
    source: &mut [u8],
    tree: &mut [u8],
    state: &mut [u8],
    out: &mut [u8],
    want_state: &mut [u8],
    want_out: &mut [u8],
) -> Lent {
    let from = l.at.saturating_add(4);
    let mut next = l;
    match loan {
        Loan::Source => {
            let u = packed::unpack(file, from, source);
            next.source = u.len;
            next.at = u.at;
        }
        Loan::Tree => {
            let u = packed::unpack(file, from, tree);
            next.tree = u.len;
            next.at = u.at;
        }
        Loan::State => {
            let u = packed::unpack(file, from, state);
            packed::unpack(file, from, want_state);
            next.state = u.len;
            next.at = u.at;
        }
        Loan::Out => {
            let u = packed::unpack(file, from, out);
            packed::unpack(file, from, want_out);
            next.out = u.len;
            next.at = u.at;
        }
    }
    next
}

// ---- a function called

fn node_in(bytes: &[u8]) -> u32 {
    (packed::word(bytes, 0) % 0x1_0000_0000) as u32
}

fn answered(
    f: Function,
    source: &[u8],
    tree: &[u8],
    state: &mut [u8],
    out: &mut [u8],
    bytes: &[u8],
) -> u64 {
    match f {
        Function::Open => savetnuok_open(source, tree, state),
        Function::Call => savetnuok_call(source, tree, state, out, bytes),
        Function::Run => savetnuok_run(source, tree, state, out, node_in(bytes)),
        Function::Why => savetnuok_why(source, tree, node_in(bytes)),
    }
}

// What is wanted: 0 where it is as it was, else 1, a place, and the bytes from there on.
fn wanted(file: &[u8], at: usize, want: &mut [u8]) -> usize {
    let from = at.saturating_add(4);
    if packed::word(file, at) == 0 {
        return from;
    }
    let place = packed::word(file, from).min(want.len());
    let u = packed::unpack(file, from.saturating_add(4), &mut want[place..]);
    u.at
}

fn held(
    answer: u64,
    recorded: u64,
    state: &[u8],
    want_state: &[u8],
    out: &[u8],
    want_out: &[u8],
    counts: &mut Counts,
) {
    tally::add_answer(counts, recorded / 0x1_0000_0000);
    add(counts, Count::StateBytes, state.len());
    add(counts, Count::OutBytes, out.len());
    add_if(counts, Count::AnswersDiffer, answer != recorded);
    add_if(
        counts,
        Count::StatesDiffer,
        state != packed::front(want_state, state.len()),
    );
    add_if(
        counts,
        Count::BuffersDiffer,
        out != packed::front(want_out, out.len()),
    );
}

// Where a function is counted.
fn counted(f: Function) -> Count {
    match f {
        Function::Open => Count::Opened,
        Function::Call => Count::Called,
        Function::Run => Count::Ran,
        Function::Why => Count::Asked,
    }
}

// Behind the bytes of the step stand the answer, the state and the buffer.
fn made(
    file: &[u8],
    l: Lent,
    f: Function,
    source: &[u8],
    tree: &[u8],
    state: &mut [u8],
    out: &mut [u8],
    want_state: &mut [u8],
    want_out: &mut [u8],
    counts: &mut Counts,
) -> usize {
    let len = packed::word(file, l.at.saturating_add(4));
    let from = l.at.saturating_add(8);
    let at = from.saturating_add(len);
    let answer = answered(f, source, tree, state, out, packed::slice(file, from, len));
    let behind_state = wanted(file, at.saturating_add(8), want_state);
    let end = wanted(file, behind_state, want_out);
    held(
        answer,
        packed::long(file, at),
        state,
        want_state,
        out,
        want_out,
        counts,
    );
    add(counts, counted(f), 1);
    end
}

pub fn step(
    file: &[u8],
    l: Lent,
    source: &mut [u8],
    tree: &mut [u8],
    state: &mut [u8],
    out: &mut [u8],
    want_state: &mut [u8],
    want_out: &mut [u8],
    counts: &mut Counts,
) -> Lent {
    match Kind::from(packed::word(file, l.at)) {
        Kind::Lend(loan) => lend(
            file, l, loan, source, tree, state, out, want_state, want_out,
        ),
        Kind::Ask(f) => {
            let state_len = l.state.min(state.len());
            let out_len = l.out.min(out.len());
            let mut next = l;
            next.at = made(
                file,
                l,
                f,
                packed::front(source, l.source),
                packed::front(tree, l.tree),
                &mut state[0..state_len],
                &mut out[0..out_len],
                want_state,
                want_out,
                counts,
            );
            next
        }
    }
}
