// The check of a tree: refusals 3 and 7, records in order, level by level.
ghost use Rattle.std.specs.Prelude.{◌≡◌, ◌≤◌, ◌<◌, ◌+◌, ◌^◌, min, length};
ghost use Rattle.tree.specs.Records.{body_of, records};
ghost use Rattle.opening.specs.Check.{keeps, checked};
ghost use Rattle.opening.specs.Walk.{PastLeaves, next_of, inside_of, behind_of, Holds, Walk};

use text::chars::in_source;
use text::span::BytePos;
use tree::record::{Record, RecordNo, body, record_at};

// Why a tree is refused: the first record that breaks a rule, or the first that stands too deep.
#[derive(Clone, Copy)]
pub enum Fault {
    Bad(RecordNo),
    Deep(RecordNo),
}

// So many records. No place is one, and no record's number.
#[derive(Clone, Copy)]
struct Records(usize);

// Siblings that are still to be checked, with all below them: the byte and the number of the first, how many records they are, and where
// the sibling before them ended or the parent starts.
#[derive(Clone, Copy)]
struct Part {
    at: usize,
    first: RecordNo,
    left: Records,
    from: BytePos,
}

// So many leaves, and the byte behind them.
#[derive(Clone, Copy)]
struct Leaves {
    n: Records,
    at: usize,
}

// Past the leaves that stand side by side from a byte on, a cut last one with them: a step of nine bytes each, whatever the last one was.
// The loop counts by hand: the step is not one.
fn past_leaves(list: &[u8], from: usize) -> Leaves
    ensures { PastLeaves list.now from result }
{
    let mut n: usize = 0;
    let mut at = from;
    while at < list.len() && list[at] < 0x80 {
        n += 1;
        at += 9;
    }
    Leaves { n: Records(n), at }
}

// How many records the list has, a cut last one with it. A step is a run of leaves and a composite, so no `for` fits.
fn count(list: &[u8]) -> Records
    ensures { result.0 ≡ length (records list.now) }
{
    let mut n: usize = 0;
    let mut at: usize = 0;
    while at < list.len() {
        let to = past_leaves(list, at);
        n += to.n.0;
        at = to.at;
        if at < list.len() {
            n += 1;
            at += 13;
        }
    }
    Records(n)
}

// The record keeps the rules, with n records behind it in its parent's range, between lo and hi.
fn keeps_rules(src: &[u8], r: Record, lo: BytePos, hi: BytePos, n: Records) -> bool
    ensures { result ≡ keeps src.now lo.0 hi.0 n.0 r }
{
    r.whole
        && r.below as usize <= n.0
        && lo.0 <= r.span.start.0
        && r.span.end.0 <= hi.0
        && in_source(src, r.span)
}

// Of r, the first record of a part: one too many, a broken rule, or neither. The record is handed in, since a Result with one in it goes
// through memory at every record.
fn look(src: &[u8], part: Part, r: Record, hi: BytePos) -> Result<(), Fault>
    requires { 0 < part.left.0 }
    ensures { result ≡ next_of src.now part r hi.0 }
{
    let first = part.first;
    if 8192 <= first.0 {
        return Err(Fault::Bad(RecordNo(8192)));
    }
    if keeps_rules(src, r, part.from, hi, Records(part.left.0 - 1)) {
        return Ok(());
    }
    Err(Fault::Bad(first))
}

// The records below the first of a part.
fn inside(part: Part, r: Record) -> Part
    requires { (part.at + 1 + body_of r.kind < 2 ^ 64) × (part.first.0 < 8192) }
    ensures { result ≡ inside_of part r }
{
    let from = r.span.start;
    Part {
        at: part.at + 1 + body(r.kind),
        first: RecordNo(part.first.0 + 1),
        left: Records(r.below as usize),
        from,
    }
}

// The siblings behind the first of a part, from the byte e on.
fn behind(part: Part, r: Record, e: usize) -> Part
    requires { (1 + r.below ≤ part.left.0) × (part.first.0 + 1 + r.below ≤ 8192) }
    ensures { result ≡ behind_of part r e }
{
    let from = r.span.end;
    Part {
        at: e,
        first: RecordNo(part.first.0 + 1 + r.below),
        left: Records(part.left.0 - 1 - (r.below as usize)),
        from,
    }
}

// Checks the siblings of a part and all below them, in a parent that ends at hi and with d levels left: a level below has one less.
// The byte behind them. A step is a record and all below it, so no `for` fits.
fn level(src: &[u8], list: &[u8], all: Part, hi: BytePos, d: u32) -> Result<usize, Fault>
    requires { Holds list.now all }
    ensures { Walk src.now list.now all hi.0 d result }
{
    let mut part = all;
    while 0 < part.left.0 {
        let r = record_at(list, part.at);
        look(src, part, r, hi)?;
        if d == 0 {
            return Err(Fault::Deep(part.first));
        }
        let below = inside(part, r);
        if below.left.0 == 0 {
            part = behind(part, r, below.at);
        } else {
            part = behind(part, r, level(src, list, below, r.span.end, d - 1)?);
        }
    }
    Ok(part.at)
}

// Where the source ends, as far as a place can say it: no record ends behind the last place.
fn end_of(src: &[u8]) -> BytePos
    ensures { result.0 ≡ min 4294967295 (length src.now) }
{
    BytePos(u32::try_from(src.len()).unwrap_or(u32::MAX))
}

// The check of a whole list over a source: how many records it has.
pub fn check(src: &[u8], list: &[u8]) -> Result<RecordNo, Fault>
    ensures { result ≡ checked src.now list.now }
{
    let n = count(list);
    let all = Part {
        at: 0,
        first: RecordNo(0),
        left: n,
        from: BytePos(0),
    };
    let hi = end_of(src);
    level(src, list, all, hi, 64)?;
    Ok(RecordNo(n.0 as u32))
}
