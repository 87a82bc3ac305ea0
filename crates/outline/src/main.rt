// Shows what a tree holds, and what calls make of it:
//
//     outline SCRIPT TREE CALLS
//
// For each record its kind, its line and the beginning of its text, set in by its depth; then what was refused of the calls, and the text that
// they laid out. CALLS has call records, each behind a byte that says how long it is.
#![tactic(auto)]

mod call_list;
mod lending;
mod lines;

use std::io;
use telling::files::{count, read};
use tree::table::{decode, first};

// The outline and the layout of an opened script; else why it is refused.
fn show(to: &impl Print, source: &[u8], tree: &[u8], file: &[u8]) -> io::Result<()> {
    let opened = entry::engine::open(source, tree);
    if let Err(r) = opened.answer {
        return println!(to; "{r}");
    }
    let mut words = [0u32; 32768];
    let n = decode(tree, &mut words);
    lines::outline(to, source, first(&words, n), n)?;
    let mut out = [0u8; 65536];
    let state = opened.state;
    call_list::replay(to, source, tree, &mut out, state, file)
}

fn main(rt: HostRuntime) -> io::Result<()> {
    if count(&rt) != 4 {
        return println!(rt; "usage: outline SCRIPT TREE CALLS");
    }
    let err = rt.stderr();
    let mut script = [0u8; 65600];
    let mut list = [0u8; 131072];
    let mut file = [0u8; 65536];
    let s = read(&rt, &err, 1, &mut script)?;
    let t = read(&rt, &err, 2, &mut list)?;
    let c = read(&rt, &err, 3, &mut file)?;
    if let (Some(s), Some(t), Some(c)) = (s, t, c) {
        show(
            &rt,
            packed::front(&script, s),
            packed::front(&list, t),
            packed::front(&file, c),
        )?;
    }
    Ok(())
}
