// The calls of a file, one by one through a lent engine, and the text that they lay out.
use crate::lending::replayed;
use entry::state::State;
use std::io;

// One call: what is refused of it is said, and the state that it leaves is kept.
fn one(
    to: &impl Print,
    source: &[u8],
    tree: &[u8],
    out: &mut [u8],
    state: &mut State,
    bytes: &[u8],
) -> io::Result<()> {
    let z = replayed(source, tree, out, *state, bytes);
    *state = z.state;
    if let Err(r) = z.answer {
        println!(to; "{r}")?;
    }
    Ok(())
}

pub fn replay(
    to: &impl Print,
    source: &[u8],
    tree: &[u8],
    out: &mut [u8],
    state: State,
    file: &[u8],
) -> io::Result<()> {
    let mut state = state;
    let mut left = file;
    // No file has more calls than bytes.
    for _ in 0..file.len() {
        let Some((len, behind)) = left.split_first() else {
            break;
        };
        let (bytes, rest) = behind.split_at(behind.len().min(*len as usize));
        one(to, source, tree, out, &mut state, bytes)?;
        left = rest;
    }
    to.write_all(packed::front(out, state.now.len))?;
    println!(to;)
}
