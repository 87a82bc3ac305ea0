// One session on a line: the name, the refusal's number or 0, how many comments wait, and the output.
use entry::state::State;
use meaning::answer::{Answer, Refusal};
use std::io;

fn number_of(a: Answer) -> u8 {
    match a {
        Ok(()) => 0,
        Err(Refusal::IndentOut(_)) => 6,
        Err(_) => 99,
    }
}

pub fn show(to: &impl Print, name: &str, a: Answer, s: State, out: &[u8]) -> io::Result<()> {
    let number = number_of(a) % 10;
    let waiting = s.now.count % 10;
    print!(to; "{name} {number} {waiting} [")?;
    let n = s.now.len;
    if n <= out.len() {
        to.write_all(&out[0..n])?;
    }
    println!(to; "]")
}
