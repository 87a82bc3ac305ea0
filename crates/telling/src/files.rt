// The words that a program was started with, and the files that they name.
ghost use Rattle.std.specs.Prelude.{◌≤◌, length};

use std::env::FillError;
use std::fs::File;
use std::io;
use std::rt::{Env, Files};

// Whether there is such a word, however long it is.
fn is_given(rt: &impl Env, arg: usize) -> bool {
    let mut front = [0u8; 1];
    !matches!(rt.arg(arg, &mut front), Err(FillError::NotPresent))
}

// How many words there are, the program's own name first.
pub fn count(rt: &impl Env) -> usize {
    (0..usize::MAX).take_while(|n| is_given(rt, *n)).count()
}

// One of the words in a buffer: how long it is, or 0 where it is longer than the buffer.
pub fn word(rt: &impl Env, arg: usize, to: &mut [u8]) -> usize
    ensures { result ≤ length to.new }
{
    rt.arg(arg, to).unwrap_or(0)
}

// The file that an argument names, as far as the buffer goes: how many bytes. None where it cannot be read; then `err` is told why.
pub fn read<R: Env + Files<File = File> + Alloc>(
    rt: &R,
    err: &impl Print,
    arg: usize,
    to: &mut [u8],
) -> io::Result<Option<usize>> {
    let mut path = [0u8; 4096];
    let n = word(rt, arg, &mut path);
    let name = &path[..n];
    match disk::open(rt, name) {
        Ok(mut file) => Ok(Some(disk::fill(&mut file, to))),
        Err(why) => {
            disk::fail(rt, err, name, why)?;
            Ok(None)
        }
    }
}
