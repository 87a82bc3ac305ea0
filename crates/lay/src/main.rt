// Lays a whole script out:
//
//     lay SCRIPT TREE
//
// writes the laid-out text to standard output, byte for byte as the library gives it; or, to standard error, one line with the refusal's
// number, its meaning and its place.
#![tactic(auto)]

use entry::state::fresh;
use format::runs::lay_out;
use std::io;
use telling::files::{count, read};
use telling::refusal;

// The text of a script and its tree; else why there is none.
fn lay(out: &impl Print, err: &impl Print, source: &[u8], tree: &[u8]) -> io::Result<()> {
    // Room for 524,288 bytes in rows: the prover counts the bytes of a row one by one.
    let mut rows = [[0u8; 4096]; 128];
    let text = rows.as_flattened_mut();
    let step = lay_out(source, tree, text, fresh());
    let answer = step.answer;
    match answer {
        Ok(()) => {
            let left = step.state;
            out.write_all(packed::front(text, left.now.len))
        }
        Err(r) => refusal::say(err, source, tree, r),
    }
}

fn main(rt: HostRuntime) -> io::Result<()> {
    let err = rt.stderr();
    if count(&rt) != 3 {
        return println!(err; "usage: lay SCRIPT TREE");
    }
    let mut script = [0u8; 65600];
    let mut list = [0u8; 131072];
    let s = read(&rt, &err, 1, &mut script)?;
    let t = read(&rt, &err, 2, &mut list)?;
    if t.is_some_and(|len| 131072 <= len) {
        return println!(err; "the tree is longer than any good one");
    }
    if let (Some(s), Some(t)) = (s, t) {
        lay(
            &rt,
            &err,
            packed::front(&script, s),
            packed::front(&list, t),
        )?;
    }
    Ok(())
}
