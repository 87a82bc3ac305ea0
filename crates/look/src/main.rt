// Opens a script and its tree, as the box does before it lays one out, and says in words what it found:
//
//     look SCRIPT TREE
#![tactic(auto)]

use opening::open::Unopened;
use packed::front;
use std::io;
use telling::files::{count, read};
use tree::record::RecordNo;

fn good(out: &impl Print, source: &[u8], n: RecordNo) -> io::Result<()> {
    let bytes = source.len();
    let characters = width::count::count(source, 0xFFFF_FFFF);
    let newlines = text::lines::count_newlines(source);
    let records = n.0;
    print!(out; "good: {bytes} bytes, {characters} characters outside white space, ")?;
    println!(out; "{newlines} newlines; {records} records")
}

fn report(out: &impl Print, source: &[u8], o: Result<RecordNo, Unopened>) -> io::Result<()> {
    match o {
        Ok(n) => good(out, source, n),
        Err(Unopened::SourceLong) => {
            println!(out; "refusal 1, the script is over 65,536 bytes, at byte 65536")
        }
        Err(Unopened::SourceIll(p)) => {
            println!(out;
                "refusal 2, the script is not well-formed UTF-8 at byte {}",
                p.0
            )
        }
        Err(Unopened::TreeBad(k)) => {
            println!(out; "refusal 3, the tree is not good at record {}", k.0)
        }
        Err(Unopened::TreeDeep(k)) => {
            println!(out;
                "refusal 7, the tree is deeper than 64 levels at record {}",
                k.0
            )
        }
    }
}

fn main(rt: HostRuntime) -> io::Result<()> {
    if count(&rt) != 3 {
        return println!(rt; "usage: look SCRIPT TREE");
    }
    let mut script = [0u8; 65600];
    let mut list = [0u8; 131072];
    let err = rt.stderr();
    let s = read(&rt, &err, 1, &mut script)?;
    let t = read(&rt, &err, 2, &mut list)?;
    if t.is_some_and(|len| 131072 <= len) {
        return println!(rt; "the tree is longer than this program reads");
    }
    if let (Some(s), Some(t)) = (s, t) {
        let source = front(&script, s);
        report(&rt, source, opening::open::open(source, front(&list, t)))?;
    }
    Ok(())
}
