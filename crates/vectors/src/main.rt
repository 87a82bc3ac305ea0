// Outside vectors for `text`: every code point's White_Space against the 25 one by one, and well-formedness with the first ill-formed
// place over all inputs of one, two and three bytes and the edges of those of four, against a naive decoder.
#![tactic(auto)]

ghost use Rattle.std.specs.Prelude.{◌≤◌};

mod naive;

use std::io;

// White_Space, Unicode's property, code point by code point.
const WHITES: [u32; 25] = [
    0x0009, 0x000A, 0x000B, 0x000C, 0x000D, 0x0020, 0x0085, 0x00A0, 0x1680, 0x2000, 0x2001, 0x2002,
    0x2003, 0x2004, 0x2005, 0x2006, 0x2007, 0x2008, 0x2009, 0x200A, 0x2028, 0x2029, 0x202F, 0x205F,
    0x3000,
];

// Bytes at the edges of the table's ranges.
const LEADS: [u8; 10] = [0xC1, 0xDF, 0xE0, 0xED, 0xEF, 0xF0, 0xF1, 0xF3, 0xF4, 0xF5];

const SECONDS: [u8; 10] = [0x00, 0x7F, 0x80, 0x8F, 0x90, 0x9F, 0xA0, 0xBF, 0xC0, 0xFF];

// How many inputs were run, how many were white or well-formed, and how many came out differently.
#[derive(Clone, Copy, Default)]
struct Tally {
    run: u64,
    yes: u64,
    differ: u64,
}

impl Tally {
    fn add(&mut self, yes: bool, differs: bool) {
        self.run = self.run.saturating_add(1);
        self.yes = self.yes.saturating_add(yes as u64);
        self.differ = self.differ.saturating_add(differs as u64);
    }

    fn text(&mut self, s: &[u8]) {
        let found = encoding::utf8::check(s);
        self.add(found.is_ok(), found != naive::check(s));
    }
}

fn whites() -> Tally {
    let mut tally = Tally::default();
    for c in 0..0x110000 {
        let white = white::is_white(c);
        tally.add(white, white != WHITES.contains(&c));
    }
    tally
}

// All inputs of N bytes: the last N of each number.
fn all<const N: usize>(inputs: u32) -> Tally
    requires { N ≤ 4 }
{
    let mut tally = Tally::default();
    for n in 0..inputs {
        tally.text(&n.to_be_bytes()[4 - N..]);
    }
    tally
}

// Four bytes from the edges.
fn four() -> Tally {
    let mut tally = Tally::default();
    for a in LEADS {
        for b in SECONDS {
            for c in SECONDS {
                for d in SECONDS {
                    tally.text(&[a, b, c, d]);
                }
            }
        }
    }
    tally
}

// Three bytes from the edges behind up to 68 plain ones, so that they lie across the ends of blocks.
fn behind() -> Tally {
    let mut tally = Tally::default();
    for at in 0..69 {
        for a in LEADS {
            for b in SECONDS {
                for c in SECONDS {
                    let mut s = [b'x'; 72];
                    s[at] = a;
                    s[at + 1] = b;
                    s[at + 2] = c;
                    tally.text(&s);
                }
            }
        }
    }
    tally
}

fn say(out: &impl Print, name: &str, t: Tally, yes: &str) -> io::Result<()> {
    println!(out;
        "{name}: {} run, {} {yes}, {} differ",
        t.run, t.yes, t.differ
    )
}

fn main(rt: HostRuntime) -> io::Result<()> {
    say(&rt, "code points", whites(), "white")?;
    say(&rt, "one byte", all::<1>(0x100), "well-formed")?;
    say(&rt, "two bytes", all::<2>(0x1_0000), "well-formed")?;
    say(&rt, "three bytes", all::<3>(0x100_0000), "well-formed")?;
    say(&rt, "four bytes, edges", four(), "well-formed")?;
    say(&rt, "behind plain bytes", behind(), "well-formed")
}
