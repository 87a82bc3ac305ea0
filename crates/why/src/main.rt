// Says why lists of a script go over several lines, and points at the place, as a compiler does:
//
//     why SCRIPT TREE         all lists that do, in order, and how many they are
//     why SCRIPT TREE NODE    the list of one node, by its number; a compact one, too
//
// to standard output. What is refused goes to standard error: its number, its meaning, its place.
#![tactic(auto)]

mod digits;
mod excerpt;
mod sentence;

use entry::checks::opening;
use meaning::answer::Refusal;
use reasons::why::why_at;
use std::io;
use std::rt::Env;
use telling::files::{count, read, word};
use telling::refusal;
use tree::record::RecordNo;
use tree::table::{decode, first};

// A refusal in words that fit the question.
fn refused(err: &impl Print, source: &[u8], tree: &[u8], r: Refusal) -> io::Result<()> {
    match r {
        Refusal::NoRule(_) => refusal::say_as(
            err,
            source,
            tree,
            r,
            "the node is none of the lists that are told of: a call's arguments, arrays, objects",
        ),
        Refusal::WrongKind(_) => refusal::say_as(
            err,
            source,
            tree,
            r,
            "the object does not begin with its name, a path or #",
        ),
        _ => refusal::say(err, source, tree, r),
    }
}

// The list of one node.
fn one(
    out: &impl Print,
    err: &impl Print,
    name: &[u8],
    source: &[u8],
    tree: &[u8],
    table: &[u32],
    k: RecordNo,
) -> io::Result<()> {
    match why_at(source, table, k) {
        Ok(r) => sentence::tell(out, name, source, table, k, r),
        Err(r) => refused(err, source, tree, r),
    }
}

// How many lists there are, and how many of them go over several lines.
#[derive(Clone, Copy, Default)]
struct Seen {
    lists: u64,
    broken: u64,
}

// One more list, which goes over several lines or not.
fn counted(s: Seen, broken: bool) -> Seen {
    Seen {
        lists: s.lists.saturating_add(1),
        broken: s.broken.saturating_add(u64::from(broken)),
    }
}

// A record of the script: most are no list, and are passed over.
fn visit(
    out: &impl Print,
    err: &impl Print,
    name: &[u8],
    source: &[u8],
    tree: &[u8],
    table: &[u32],
    k: RecordNo,
    s: Seen,
) -> io::Result<Seen> {
    match why_at(source, table, k) {
        Ok(r) => {
            if r.is_some() {
                sentence::tell(out, name, source, table, k, r)?;
            }
            Ok(counted(s, r.is_some()))
        }
        Err(Refusal::NoRule(_)) => Ok(s),
        Err(r) => {
            refused(err, source, tree, r)?;
            Ok(s)
        }
    }
}

fn all(
    out: &impl Print,
    err: &impl Print,
    name: &[u8],
    source: &[u8],
    tree: &[u8],
    table: &[u32],
    n: RecordNo,
) -> io::Result<()> {
    let mut s = Seen::default();
    for i in 0..n.0 {
        s = visit(out, err, name, source, tree, table, RecordNo(i), s)?;
    }
    sentence::total(out, name, s.broken, s.lists)
}

// The node that the third argument names, if it is a number.
fn node_number(rt: &impl Env) -> Option<RecordNo> {
    let mut text = [0u8; 16];
    let len = word(rt, 3, &mut text);
    digits::number(packed::front(&text, len)).map(RecordNo)
}

// Of an opened script all lists, or that of one node.
fn why(
    out: &impl Print,
    err: &impl Print,
    name: &[u8],
    source: &[u8],
    tree: &[u8],
    node: Option<RecordNo>,
) -> io::Result<()> {
    let a = opening(source, tree);
    match a {
        Ok(()) => {
            let mut words = [0u32; 32768];
            let n = decode(tree, &mut words);
            let table = first(&words, n);
            match node {
                Some(k) => one(out, err, name, source, tree, table, k),
                None => all(out, err, name, source, tree, table, n),
            }
        }
        Err(r) => refused(err, source, tree, r),
    }
}

fn main(rt: HostRuntime) -> io::Result<()> {
    let err = rt.stderr();
    let node = node_number(&rt);
    // two files, and a node's number or none
    let words = count(&rt);
    if words != 3 && (words != 4 || node.is_none()) {
        return println!(err; "usage: why SCRIPT TREE [NODE]");
    }
    let mut script = [0u8; 65600];
    let mut list = [0u8; 131072];
    let s = read(&rt, &err, 1, &mut script)?;
    let t = read(&rt, &err, 2, &mut list)?;
    if t.is_some_and(|len| 131072 <= len) {
        return println!(err; "the tree is longer than any good one");
    }
    if let (Some(s), Some(t)) = (s, t) {
        let mut name = [0u8; 4096];
        let n = word(&rt, 1, &mut name);
        why(
            &rt,
            &err,
            packed::front(&name, n),
            packed::front(&script, s),
            packed::front(&list, t),
            node,
        )?;
    }
    Ok(())
}
