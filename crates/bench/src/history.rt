// Call records end to end, made one after another.
ghost use Rattle.std.specs.Prelude.{◌≡◌, ◌+◌, ◌<◌, length, take, drop, get_or};
ghost use Rattle.entry.specs.Served.{as_call};
ghost use Rattle.lent.specs.Loans.{Made};
ghost use Rattle.bench.specs.History.{body_len, asked_at, calls_in};

use calls::make_call;
use entry::decode::decode;
use lent::formatter::Formatter;
use lent::ring::Queue;
use meaning::answer::Refusal;
use meaning::call::Call;

// How many bytes stand behind a byte of kind: none behind an unknown one.
#[tactic(auto, unfolding(crate::specs::History::body_len))]
fn body(kind: u8) -> usize
    ensures { result ≡ body_len kind }
{
    match kind {
        0x01..=0x03 => 4,
        0x04..=0x07 | 0x09 => 1,
        _ => 0,
    }
}

// The record at a byte of the list, as far as the list goes.
fn record_at(records: &[u8], at: usize) -> &[u8]
    requires { at < length records.now }
    ensures { result.now ≡ take (1 + body_len (get_or records.now at 0)) (drop at records.now) }
{
    let n = 1 + body(records[at]);
    if n < records.len() - at {
        let end = at + n;
        return &records[at..end];
    }
    &records[at..]
}

// The call of a record, or refusal 12 at the record's place.
fn asked(
    src: &[u8],
    table: &[u32],
    fmt: &mut Formatter,
    queue: &mut Queue,
    out: &mut [u8],
    d: Option<Call>,
    at: usize,
)
    ensures { Made src table fmt queue out (asked_at at (as_call d)) }
{
    match d {
        Some(c) => make_call(src, table, fmt, queue, out, c),
        None => fmt.refuse(Refusal::BadCall(at)),
    }
}

// All records of the list; a refusal stays, and nothing changes behind it.
pub fn replay(
    src: &[u8],
    table: &[u32],
    fmt: &mut Formatter,
    queue: &mut Queue,
    out: &mut [u8],
    records: &[u8],
)
    ensures { Made src table fmt queue out (calls_in records.now) }
{
    let mut at: usize = 0;
    // No `for`: the step is a record's length.
    while at < records.len() {
        let t = record_at(records, at);
        asked(src, table, fmt, queue, out, decode(t), at);
        at += t.len();
    }
}
