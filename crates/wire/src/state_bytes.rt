// The engine's state in bytes: the shape that is asked of it, read and written.
ghost use Rattle.std.specs.Prelude.{◌≡◌, ◌<◌, ◌≤◌, min, length};
ghost use Rattle.lent.specs.View.{tab};
ghost use Rattle.wire.specs.Words.{word_at};
ghost use Rattle.wire.specs.StateBytes.{is_flag, flag_at, flags_good, line_flags, shaped};
ghost use Rattle.wire.specs.CodeState.{code_now, code_state, code_words, Wrote};

use crate::word::{word, write};
use entry::state::{Small, State};

// The bytes of a state: 8 words and 256 comments of four words.
pub const SIZE: usize = 4128;

// The first word of the comments.
const FIRST: usize = 8;

// Is word i 0 or 1?
fn is_flag(state: &[u8], i: usize) -> bool
    requires { (length state.now ≡ 4128) × (i < 1032) }
    ensures { result ≡ is_flag state.now i }
{
    word(state, i) < 2
}

// Is word i 1?
fn flag(state: &[u8], i: usize) -> bool
    requires { (length state.now ≡ 4128) × (i < 1032) }
    ensures { result ≡ flag_at state.now i }
{
    word(state, i) == 1
}

// How many comments of a lent state are looked at.
fn waiting(state: &[u8]) -> usize
    requires { length state.now ≡ 4128 }
    ensures { (result ≡ min (word_at state.now 6) 256) × (result ≤ 256) }
{
    (word(state, 6) as usize).min(256)
}

// Do the first n comments say whether they are line comments by 0 or 1?
fn line_flags(state: &[u8], n: usize) -> bool
    requires { (length state.now ≡ 4128) × (n ≤ 256) }
    ensures { result ≡ line_flags state.now 0 n }
{
    (0..n).all(|k| is_flag(state, FIRST + k * 4 + 3))
}

// Are the state's own three flags 0 or 1?
fn flags(state: &[u8]) -> bool
    requires { length state.now ≡ 4128 }
    ensures { result ≡ flags_good state.now }
{
    is_flag(state, 2) && is_flag(state, 3) && is_flag(state, 5)
}

// Has a lent state the shape that is asked of it, beside a buffer of cap bytes?
pub fn shaped(state: &[u8], cap: usize) -> bool
    ensures { result ≡ shaped state.now cap }
{
    if state.len() != SIZE || 0xffff_ffff < cap {
        return false;
    }
    flags(state) && line_flags(state, waiting(state))
}

// The words of all 256 comments.
pub fn queue_in(state: &[u8]) -> [u32; 1024]
    requires { length state.now ≡ 4128 }
    ensures { result ≡ tab (word_at state.now) 8 1024 }
{
    let mut queue = [0u32; 1024];
    for i in 0..1024 {
        queue[i] = word(state, FIRST + i);
    }
    queue
}

// A word as a byte; what is larger is handed on as 255.
fn at_most_255(w: u32) -> u8
    ensures { result ≡ min w 255 }
{
    u8::try_from(w).unwrap_or(255)
}

// The scalars that the engine is handed; the length is a word.
pub fn read_now(state: &[u8]) -> Small
    requires { length state.now ≡ 4128 }
    ensures { (result ≡ code_now state.now) × (result.len < 4294967296) }
{
    Small {
        len: word(state, 0) as usize,
        count: word(state, 6),
        lines: word(state, 1),
        use_lines: flag(state, 2),
        ws: flag(state, 3),
        indent: at_most_255(word(state, 4)),
        finished: flag(state, 5),
    }
}

// The state that the engine is handed.
pub fn read_state(state: &[u8]) -> State
    requires { length state.now ≡ 4128 }
    ensures { (result ≡ code_state state.now) × (result.now.len < 4294967296) }
{
    State {
        now: read_now(state),
        queue: queue_in(state),
    }
}

// The state whole, over the bytes that were lent.
pub fn write_state(state: &mut [u8], n: Small, queue: &[u32; 1024])
    requires { (length state.old ≡ 4128) × (n.len < 4294967296) }
    ensures { Wrote (code_words n queue.now) state.new }
{
    let head = [
        n.len as u32,
        n.lines,
        u32::from(n.use_lines),
        u32::from(n.ws),
        u32::from(n.indent),
        u32::from(n.finished),
        n.count,
        0,
    ];
    write(&head, &mut state[0..32]);
    write(queue, &mut state[32..]);
}
