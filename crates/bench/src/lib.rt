// What the measurements call: the checks, the count, opening and a list of calls, each without the work of a public function around it.
#![tactic(auto)]

mod again;
pub mod history;
pub mod pack;

ghost use Rattle.std.specs.Prelude.{◌≡◌};
ghost use Rattle.encoding.specs.Utf8.{formed};
ghost use Rattle.width.specs.Count.{counted};
ghost use Rattle.meaning.specs.Opening.{opening};
ghost use Rattle.meaning.specs.Numbers.{seen};
ghost use Rattle.bench.specs.Packed.{packed, found};
ghost use Rattle.bench.specs.History.{Replayed};
ghost use Rattle.rules.specs.Whole.{whole};
ghost use Rattle.bench.specs.Repeated.{Repeats, on_node};

use crate::again::{WholeScript, again};
use crate::history::replay;
use crate::pack::{finding, pack, reached};
use entry::state::{fresh, started};
use tree::record::RecordNo;
use tree::table::{decode, first};

// The check of UTF-8.
#[unsafe(no_mangle)]
pub extern "C" fn bench_utf8(s: &[u8]) -> u64
    ensures { result ≡ found (formed s.now) }
{
    finding(encoding::utf8::check(s))
}

// The count of characters outside White_Space.
#[unsafe(no_mangle)]
pub extern "C" fn bench_count(s: &[u8], limit: u32) -> u64
    ensures { result ≡ counted limit s.now }
{
    width::count::count(s, limit)
}

// Opening: the source and the tree are checked, and no state is made.
#[unsafe(no_mangle)]
pub extern "C" fn bench_open(source: &[u8], tree: &[u8]) -> u64
    ensures { result ≡ packed (seen (opening source.now tree.now)) }
{
    pack(entry::checks::opening(source, tree))
}

// Call records one after another on a fresh engine, over a tree that is decoded once; nothing that is lent is checked.
#[unsafe(no_mangle)]
pub extern "C" fn bench_calls(source: &[u8], tree: &[u8], out: &mut [u8], records: &[u8]) -> u64
    ensures { Replayed source.now tree.now records.now out.old result out.new }
{
    let mut words = [0u32; 32768];
    let n = decode(tree, &mut words);
    let s = fresh();
    let now = s.now;
    let mut queue = s.queue;
    let mut fmt = started(now, Ok(()));
    replay(source, first(&words, n), &mut fmt, &mut queue, out, records);
    reached(&fmt)
}

// Runs on a node, each on a fresh engine, so many times, over a tree that is decoded once; nothing that is lent is checked.
#[unsafe(no_mangle)]
pub extern "C" fn bench_runs(
    source: &[u8],
    tree: &[u8],
    out: &mut [u8],
    node: u32,
    times: u32,
) -> u64
    ensures { Repeats source.now tree.now out.old (on_node node) times result out.new }
{
    again(source, tree, out, RecordNo(node), times)
}

// Whole layouts, as the runs.
#[unsafe(no_mangle)]
pub extern "C" fn bench_layouts(source: &[u8], tree: &[u8], out: &mut [u8], times: u32) -> u64
    ensures { Repeats source.now tree.now out.old whole times result out.new }
{
    again(source, tree, out, WholeScript, times)
}
