// What a call or a run answers.
ghost use Rattle.std.specs.Prelude.{◌≡◌, Some};
ghost use Rattle.meaning.specs.Numbers.{refusal_seen, refusal_text, seen, answer_by, Placed};

use std::fmt;
use text::span::BytePos;
use tree::record::RecordNo;

// The twelve refusals, in the order of their numbers. A place is a byte of the source, a record of the tree,
// or, where it is neither, a plain count: an output length, an indent, a byte of the call records.
#[derive(Clone, Copy)]
pub enum Refusal {
    SourceLong,
    SourceIll(BytePos),
    TreeBad(RecordNo),
    NoRoom(usize),
    QueueFull(RecordNo),
    IndentOut(u32),
    TreeDeep(RecordNo),
    WrongKind(RecordNo),
    NoRule(RecordNo),
    Finished(usize),
    NoNode(RecordNo),
    BadCall(usize),
}

// Done, or the refusal.
pub type Answer = Result<(), Refusal>;

impl Refusal {
    // The number that an operator sees.
    pub fn number(self) -> u32
        ensures { result ≡ (refusal_seen self).number }
    {
        match self {
            Refusal::SourceLong => 1,
            Refusal::SourceIll(_) => 2,
            Refusal::TreeBad(_) => 3,
            Refusal::NoRoom(_) => 4,
            Refusal::QueueFull(_) => 5,
            Refusal::IndentOut(_) => 6,
            Refusal::TreeDeep(_) => 7,
            Refusal::WrongKind(_) => 8,
            Refusal::NoRule(_) => 9,
            Refusal::Finished(_) => 10,
            Refusal::NoNode(_) => 11,
            Refusal::BadCall(_) => 12,
        }
    }

    // The place that is returned with it.
    pub fn place(self) -> usize
        ensures { Placed (Err self) result }
    {
        match self {
            Refusal::SourceLong => 65536,
            Refusal::SourceIll(p) => p.0 as usize,
            Refusal::TreeBad(k) => k.0 as usize,
            Refusal::NoRoom(len) => len,
            Refusal::QueueFull(k) => k.0 as usize,
            Refusal::IndentOut(n) => n as usize,
            Refusal::TreeDeep(k) => k.0 as usize,
            Refusal::WrongKind(k) => k.0 as usize,
            Refusal::NoRule(k) => k.0 as usize,
            Refusal::Finished(len) => len,
            Refusal::NoNode(k) => k.0 as usize,
            Refusal::BadCall(p) => p,
        }
    }
}

impl fmt::Display for Refusal {
    ghost output = { λ r. Some (refusal_text r) };

    fn fmt<W: fmt::Write>(&self, f: &mut fmt::Formatter<W>) -> fmt::Result {
        let number = self.number();
        let place = self.place();
        write!(f, "refusal {number}, place {place}")
    }
}

// The number that an operator sees, 0 where nothing is refused: C gets an answer as its number and its place.
pub fn number(a: Answer) -> u32
    ensures { result ≡ (seen a).number }
{
    match a {
        Ok(()) => 0,
        Err(r) => r.number(),
    }
}

// The place that is returned with an answer, 0 where nothing is refused.
pub fn place(a: Answer) -> usize
    ensures { Placed a result }
{
    match a {
        Ok(()) => 0,
        Err(r) => r.place(),
    }
}

// The answer of this number and place, the other way: the definition `Placed` reads back by it.
pub fn answer_of(n: usize, p: usize) -> Answer
    ensures { result ≡ answer_by n p }
{
    let k = (p % 0x1_0000_0000) as u32;
    match n {
        0 => Ok(()),
        1 => Err(Refusal::SourceLong),
        2 => Err(Refusal::SourceIll(BytePos(k))),
        3 => Err(Refusal::TreeBad(RecordNo(k))),
        4 => Err(Refusal::NoRoom(p)),
        5 => Err(Refusal::QueueFull(RecordNo(k))),
        6 => Err(Refusal::IndentOut(k)),
        7 => Err(Refusal::TreeDeep(RecordNo(k))),
        8 => Err(Refusal::WrongKind(RecordNo(k))),
        9 => Err(Refusal::NoRule(RecordNo(k))),
        10 => Err(Refusal::Finished(p)),
        11 => Err(Refusal::NoNode(RecordNo(k))),
        _ => Err(Refusal::BadCall(p)),
    }
}
