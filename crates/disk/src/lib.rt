// Files that a program reads: opened, read as far as they and the buffer go, and what an operator is told of one that cannot be opened.
#![tactic(auto)]

ghost use Rattle.std.specs.Prelude.{◌≤◌, length};

use std::fs::File;
use std::io;
use std::io::Read;
use std::rt::Files;

// The errno of a name that is no text.
const NO_TEXT: i32 = 84;

// The file of that name, to be read.
pub fn open<R: Files<File = File>>(rt: &R, name: &[u8]) -> io::Result<File> {
    let path = std::str::from_utf8(name).map_err(|_| io::Error::from_raw_os_error(NO_TEXT))?;
    File::open(rt, path)
}

// Reads until the buffer is full, the file ends or a read fails: how many bytes stand in the buffer then. No heap, so no `read_to_end`, and
// `read_exact` refuses a file that ends before the buffer.
pub fn fill(file: &mut File, to: &mut [u8]) -> usize
    ensures { result ≤ length to.new }
{
    let mut n = 0;
    while n < to.len() {
        match file.read(&mut to[n..]) {
            Ok(0) => break,
            Ok(got) => n += got,
            Err(_) => break,
        }
    }
    n
}

// The words of an error, without the number that stands behind them.
fn words(text: &str) -> &str {
    text.split_once(" (os error ")
        .map_or(text, |(front, _)| front)
}

// A line for the operator: the file that could not be opened, and why.
pub fn fail<R: Alloc>(rt: &R, err: &impl Print, name: &[u8], why: io::Error) -> io::Result<()> {
    let text = format!(in rt.alloc(); "{why}")?;
    let reason = words(text.as_str());
    err.write_all(name)?;
    println!(err; ": {reason}")
}
