// Recorded trees, good and damaged: what opening answers is held against what the oracle recorded. oracle/README.md has the file's form.
#![tactic(auto)]

use opening::open::Unopened;
use std::{fmt, io};
use tree::record::RecordNo;

// A good tree, or which refusal.
#[derive(Clone, Copy, PartialEq, Eq)]
enum Sort {
    Good,
    Long,
    Ill,
    Bad,
    Deep,
}

// What opening answers: how many records, or the place of the refusal.
#[derive(Clone, Copy, PartialEq, Eq)]
struct Seen {
    sort: Sort,
    place: u32,
}

impl From<Result<RecordNo, Unopened>> for Seen {
    fn from(opening: Result<RecordNo, Unopened>) -> Self {
        let (sort, place) = match opening {
            Ok(n) => (Sort::Good, n.0),
            Err(Unopened::SourceLong) => (Sort::Long, 65536),
            Err(Unopened::SourceIll(p)) => (Sort::Ill, p.0),
            Err(Unopened::TreeBad(k)) => (Sort::Bad, k.0),
            Err(Unopened::TreeDeep(k)) => (Sort::Deep, k.0),
        };
        Seen { sort, place }
    }
}

// A number that stands for no answer.
#[derive(Drop)]
struct NoAnswer;

// As the oracle recorded it: the refusal's number times 2^32, 0 for a good tree, and the place.
impl TryFrom<u64> for Seen {
    type Error = NoAnswer;

    fn try_from(word: u64) -> Result<Self, NoAnswer> {
        let sort = match word / 0x1_0000_0000 {
            0 => Sort::Good,
            1 => Sort::Long,
            2 => Sort::Ill,
            3 => Sort::Bad,
            7 => Sort::Deep,
            _ => return Err(NoAnswer),
        };
        let place = (word % 0x1_0000_0000) as u32;
        Ok(Seen { sort, place })
    }
}

// How many cases agreed, of each answer, and how many did not.
#[derive(Clone, Copy, Default)]
struct Tally {
    good: u32,
    long: u32,
    ill: u32,
    bad: u32,
    deep: u32,
    differ: u32,
}

impl Tally {
    fn count(&mut self, found: Seen, recorded: u64) {
        let n = match Seen::try_from(recorded) {
            Ok(seen) if seen == found => match found.sort {
                Sort::Good => &mut self.good,
                Sort::Long => &mut self.long,
                Sort::Ill => &mut self.ill,
                Sort::Bad => &mut self.bad,
                Sort::Deep => &mut self.deep,
            },
            _ => &mut self.differ,
        };
        *n = n.saturating_add(1);
    }
}

impl fmt::Display for Tally {
    fn fmt<W: fmt::Write>(&self, f: &mut fmt::Formatter<W>) -> fmt::Result {
        write!(f, "{} good trees, {} refused by 1, ", self.good, self.long)?;
        write!(
            f,
            "{} by 2, {} by 3, {} by 7: ",
            self.ill, self.bad, self.deep
        )?;
        write!(f, "all as recorded; {} differ", self.differ)
    }
}

// One case, and where the next one starts.
fn case(file: &[u8], at: usize, source: &mut [u8], list: &mut [u8], tally: &mut Tally) -> usize {
    let s = packed::unpack(file, at, source);
    let l = packed::unpack(file, s.at, list);
    let opening = opening::open::open(packed::front(source, s.len), packed::front(list, l.len));
    tally.count(Seen::from(opening), packed::long(file, l.at));
    l.at.saturating_add(8)
}

fn replay(file: &[u8], source: &mut [u8], list: &mut [u8]) -> Tally {
    let mut tally = Tally::default();
    let mut at = 4;
    for _ in 0..packed::word(file, 0) {
        at = case(file, at, source, list, &mut tally);
    }
    tally
}

fn main(rt: HostRuntime) -> io::Result<()> {
    let path = b"trees.bin";
    let mut file = match disk::open(&rt, path) {
        Ok(file) => file,
        Err(why) => return disk::fail(&rt, &rt.stderr(), path, why),
    };
    let mut bytes = [0u8; 262144];
    let n = disk::fill(&mut file, &mut bytes);
    let mut source = [0u8; 131072];
    let mut list = [0u8; 131072];
    let tally = replay(packed::front(&bytes, n), &mut source, &mut list);
    println!(rt; "{tally}")
}
