// Recorded sessions through the exported functions: the answer and every byte of state and buffer behind each are held against what was
// recorded. tests/outside/README.md says what is recorded, and has the file's form.
#![tactic(auto)]

ghost use Rattle.std.specs.Prelude.{◌≤◌, length};

mod session;
mod tally;

use std::fs::File;
use std::io;
use std::os::unix::fs::FileExt;
use std::rt::Files;
use tally::Counts;

// The steps of a file, one behind the other; of each array as much is lent as the file says.
fn play(
    file: &[u8],
    source: &mut [u8],
    tree: &mut [u8],
    state: &mut [u8],
    out: &mut [u8],
    want_state: &mut [u8],
    want_out: &mut [u8],
    counts: &mut Counts,
) {
    let mut lent = session::nothing();
    for _ in 0..packed::word(file, 0) {
        lent = session::step(
            file, lent, source, tree, state, out, want_state, want_out, counts,
        );
    }
}

fn replay(file: &[u8], counts: &mut Counts) {
    let mut source = [0u8; 70000];
    let mut tree = [0u8; 90000];
    let mut state = [0u8; 8192];
    let mut out = [0u8; 8192];
    let mut want_state = [0u8; 8192];
    let mut want_out = [0u8; 8192];
    play(
        file,
        &mut source,
        &mut tree,
        &mut state,
        &mut out,
        &mut want_state,
        &mut want_out,
        counts,
    );
}

// What stands of a file, as far as the buffer goes; nothing where it cannot be read.
fn read(file: &File, to: &mut [u8]) -> usize
    ensures { result ≤ length to.new }
{
    file.read_at(to, 0).unwrap_or(0)
}

// Whether there is such a file; of one that cannot be opened standard error tells.
fn replay_file<R: Files<File = File> + Alloc>(
    rt: &R,
    err: &impl Print,
    path: &[u8],
    counts: &mut Counts,
) -> io::Result<bool> {
    let file = match disk::open(rt, path) {
        Ok(file) => file,
        Err(why) => {
            disk::fail(rt, err, path, why)?;
            return Ok(false);
        }
    };
    // Room for 524,288 bytes in rows: the prover counts the bytes of a row one by one.
    let mut rows = [[0u8; 4096]; 128];
    let bytes = rows.as_flattened_mut();
    let n = read(&file, bytes);
    replay(packed::front(bytes, n), counts);
    Ok(true)
}

fn main(rt: HostRuntime) -> io::Result<()> {
    let err = rt.stderr();
    let mut counts = tally::none();
    if replay_file(&rt, &err, b"sessions.bin", &mut counts)? {
        tally::report(&rt, &counts)?;
    }
    let mut reasons = tally::none();
    if replay_file(&rt, &err, b"reasons.bin", &mut reasons)? {
        tally::report_reasons(&rt, &reasons)?;
    }
    let mut planted = tally::none();
    if replay_file(&rt, &err, b"planted.bin", &mut planted)? {
        print!(rt; "with wrong records planted: ")?;
        tally::report_differ(&rt, &planted)?;
    }
    Ok(())
}
