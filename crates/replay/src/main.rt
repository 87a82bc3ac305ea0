// Recorded histories of calls, and of calls and layout runs: answer, state and buffer behind each step are held against what the oracle recorded of the Rust.
// oracle/README.md has the file's form.
#![tactic(auto)]

ghost use Rattle.std.specs.Prelude.{◌≤◌, length};

mod compare;
mod history;
mod tally;

use std::fs::File;
use std::io;
use std::os::unix::fs::FileExt;
use std::rt::Files;
use tally::Counts;

// The file's bytes from an offset on, as many as the window takes; none where they cannot be read.
fn read(file: &File, window: &mut [u8], offset: usize) -> usize
    ensures { result ≤ length window.new }
{
    match file.read_at(window, (offset % 0x4000_0000) as u64) {
        Ok(n) => n,
        Err(_) => 0,
    }
}

// The history at a place of the file, and where the next one stands.
fn one(
    file: &File,
    window: &mut [u8],
    source: &mut [u8],
    list: &mut [u8],
    out: &mut [u8],
    at: usize,
    with_runs: bool,
    counts: &mut Counts,
) -> usize {
    let n = read(file, window, at);
    let len = history::run(
        packed::front(window, n),
        source,
        list,
        out,
        with_runs,
        counts,
    );
    packed::plus(at, len)
}

fn replay(
    file: &File,
    window: &mut [u8],
    source: &mut [u8],
    list: &mut [u8],
    out: &mut [u8],
    with_runs: bool,
    counts: &mut Counts,
) {
    let n = read(file, window, 0);
    let count = packed::word(packed::front(window, n), 0);
    let mut at: usize = 4;
    for _ in 0..count {
        at = one(file, window, source, list, out, at, with_runs, counts);
    }
}

// What is found of one file; nothing of one that cannot be opened, of which standard error tells.
fn replay_file<R: Files<File = File> + Alloc>(
    rt: &R,
    err: &impl Print,
    path: &[u8],
    with_runs: bool,
    counts: &mut Counts,
) -> io::Result<()> {
    let file = match disk::open(rt, path) {
        Ok(file) => file,
        Err(why) => return disk::fail(rt, err, path, why),
    };
    let mut window = [0u8; 131072];
    let mut source = [0u8; 65536];
    let mut list = [0u8; 4096];
    let mut out = [0u8; 8192];
    replay(
        &file,
        &mut window,
        &mut source,
        &mut list,
        &mut out,
        with_runs,
        counts,
    );
    Ok(())
}

// One file, and what was found of it.
fn report_file<R: Files<File = File> + Print + Alloc>(
    rt: &R,
    err: &impl Print,
    path: &[u8],
    steps: &str,
    with_runs: bool,
) -> io::Result<()> {
    let mut counts = Counts::default();
    replay_file(rt, err, path, with_runs, &mut counts)?;
    let Counts {
        histories,
        went,
        refused,
        ..
    } = counts;
    println!(rt; "{histories} histories: {went} {steps} went, {refused} were refused")?;
    print!(rt; "  ")?;
    tally::report_compared(rt, &counts)
}

// Of each part that is compared there is a record which differs in that part alone.
fn report_planted<R: Files<File = File> + Print + Alloc>(
    rt: &R,
    err: &impl Print,
    path: &[u8],
) -> io::Result<()> {
    let mut counts = Counts::default();
    replay_file(rt, err, path, false, &mut counts)?;
    let histories = counts.histories;
    print!(rt; "{histories} histories with one wrong word, byte or answer each: ")?;
    tally::report_differ(rt, counts.differ)
}

fn main(rt: HostRuntime) -> io::Result<()> {
    let err = rt.stderr();
    report_file(&rt, &err, b"calls.bin", "calls", false)?;
    report_file(&rt, &err, b"runs.bin", "calls and runs", true)?;
    report_planted(&rt, &err, b"planted.bin")
}
