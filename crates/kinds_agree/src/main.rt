// Holds the three lists of kinds together: the code's (rows.rt, proved from the definitions of crate kinds), the table for machines
// (data/kinds.txt) and the document for people (data/KINDS.md).
#![tactic(auto)]

mod compare;
mod document;
mod rows;
mod table;
mod text;
mod words;

use compare::Differs;
use std::fs::File;
use std::io;
use std::rt::Files;

// How much of the file stands in the buffer now; of one that cannot be opened standard error tells.
fn load<R: Files<File = File> + Alloc>(
    rt: &R,
    err: &impl Print,
    path: &[u8],
    buffer: &mut [u8],
) -> io::Result<usize> {
    match disk::open(rt, path) {
        Ok(mut file) => Ok(disk::fill(&mut file, buffer)),
        Err(why) => {
            disk::fail(rt, err, path, why)?;
            Ok(0)
        }
    }
}

fn differs(out: &impl Print, list: &str, row: &[u8]) -> io::Result<()> {
    if row.is_empty() {
        return println!(out; "{list} has a row too many");
    }
    print!(out; "{list} differs at ")?;
    out.write_all(row)?;
    println!(out;)
}

fn say(out: &impl Print, found: Result<usize, Differs<'_>>) -> io::Result<()> {
    match found {
        Ok(n) => println!(out; "kinds {n}: table agrees, document agrees"),
        Err(Differs::Table(row)) => differs(out, "the table", row),
        Err(Differs::Document(row)) => differs(out, "the document", row),
    }
}

fn main(rt: HostRuntime) -> io::Result<()> {
    let err = rt.stderr();
    let mut table = [0u8; 65536];
    let mut document = [0u8; 65536];
    let t = load(&rt, &err, b"kinds.txt", &mut table)?;
    let d = load(&rt, &err, b"KINDS.md", &mut document)?;
    let rows = rows::rows();
    let found = compare::compare(&rows, text::part(&table, 0, t), text::part(&document, 0, d));
    say(&rt, found)
}
