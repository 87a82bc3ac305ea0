// The engine's state as a caller holds it, and what a public function hands back.
ghost use Rattle.std.specs.Prelude.{◌≡◌};
ghost use Rattle.meaning.specs.State.{fresh};
ghost use Rattle.entry.specs.Served.{encoded, started_run, now_of, Left};

use lent::formatter::Formatter;
use lent::ring::{Queue, tidy};
use meaning::answer::Answer;

// The scalars; the queue has `count` comments.
#[derive(Clone, Copy)]
pub struct Small {
    pub len: usize,
    pub count: u32,
    pub lines: u32,
    pub use_lines: bool,
    pub ws: bool,
    pub indent: u8,
    pub finished: bool,
}

// The queue stands from slot 0 on, four words a comment, with zero behind it.
#[derive(Clone, Copy)]
pub struct State {
    pub now: Small,
    pub queue: [u32; 1024],
}

#[derive(Clone, Copy)]
pub struct Step {
    pub answer: Answer,
    pub state: State,
}

pub fn fresh() -> State
    ensures { result ≡ encoded fresh }
{
    State {
        now: Small {
            len: 0,
            count: 0,
            lines: 0,
            use_lines: false,
            ws: false,
            indent: 0,
            finished: false,
        },
        queue: [0u32; 1024],
    }
}

// The formatter that a call or a run starts with, and what opening answers. No `From<Small>`: the answer comes from outside.
pub fn started(now: Small, answer: Answer) -> Formatter
    ensures { result ≡ started_run now answer }
{
    Formatter {
        answer,
        len: now.len,
        head: 0,
        count: now.count,
        lines: now.lines,
        use_lines: now.use_lines,
        ws: now.ws,
        indent: now.indent,
        finished: now.finished,
    }
}

// The scalars, as a caller holds them. No `From<&Formatter>`: the answer and the place of the ring's head are left behind.
pub fn now_of(fmt: &Formatter) -> Small
    ensures { result ≡ now_of fmt.now }
{
    Small {
        len: fmt.len,
        count: fmt.count,
        lines: fmt.lines,
        use_lines: fmt.use_lines,
        ws: fmt.ws,
        indent: fmt.indent,
        finished: fmt.finished,
    }
}

// What is handed back: after a refusal the state that was lent, else the one that the formatter and the ring have.
pub fn left(s: State, fmt: &Formatter, queue: &Queue) -> Step
    ensures { Left s fmt.now queue.now result }
{
    let answer = fmt.answer;
    if fmt.stopped() {
        return Step { answer, state: s };
    }
    let now = now_of(fmt);
    let queue = tidy(queue, fmt.head, fmt.count);
    let state = State { now, queue };
    Step { answer, state }
}
