// The eleven calls. All have one list of parameters and one contract: what is left is what the plan of this one call leaves.
// The five parameters that every call and rule is lent are not one struct yet: docs/DESIGN-PASS.md says what is to do there.
#![tactic(auto)]

pub mod flush;

ghost use Rattle.meaning.specs.Plan.{make};
ghost use Rattle.lent.specs.Loans.{Made};

use crate::flush::{due, put};
use lent::formatter::Formatter;
use lent::ring::Queue;
use lent::room::{Gap, lay, passes};
use lent::wording::{LITERALS, Wording, text};
use meaning::answer::Refusal;
use meaning::call::{Call, Hint, Literal};
use queue::collect::{or_else, process_comments};
use queue::release::{Way, release, release_waiting};
use tree::cursor::behind;
use tree::record::RecordNo;
use tree::table::node;

// The white space that is due, the node's text, and what stands behind the node is collected.
pub fn write_owned(
    src: &[u8],
    table: &[u32],
    fmt: &mut Formatter,
    queue: &mut Queue,
    out: &mut [u8],
    k: RecordNo,
)
    ensures { Made src table fmt queue out (make (Call.WriteOwned k)) }
{
    if fmt.stops_for(table, k) {
        return;
    }
    let at = fmt.len;
    let gap = due(fmt);
    let span = node(table, k).span;
    let t = text(src, &LITERALS, Wording::Node(span));
    if passes(out.len(), at, gap, t.len()) {
        fmt.refused(Refusal::NoRoom(at));
        return;
    }
    if process_comments(src, table, fmt, queue, behind(table, k), 0) {
        return;
    }
    let to = lay(out, at, gap, t);
    fmt.written(to);
}

// The same without the white space: output.rs 164 to 168.
pub fn write_raw(
    src: &[u8],
    table: &[u32],
    fmt: &mut Formatter,
    queue: &mut Queue,
    out: &mut [u8],
    k: RecordNo,
)
    ensures { Made src table fmt queue out (make (Call.WriteRaw k)) }
{
    if fmt.stops_for(table, k) {
        return;
    }
    let at = fmt.len;
    let gap = Gap::NONE;
    let span = node(table, k).span;
    let t = text(src, &LITERALS, Wording::Node(span));
    if passes(out.len(), at, gap, t.len()) {
        fmt.refused(Refusal::NoRoom(at));
        return;
    }
    if process_comments(src, table, fmt, queue, behind(table, k), fmt.lines) {
        return;
    }
    let to = lay(out, at, gap, t);
    fmt.len = to;
}

// Nothing is written; what stands behind the node is collected: output.rs 150 to 153.
pub fn ignore(
    src: &[u8],
    table: &[u32],
    fmt: &mut Formatter,
    queue: &mut Queue,
    out: &mut [u8],
    k: RecordNo,
)
    ensures { Made src table fmt queue out (make (Call.Ignore k)) }
{
    if fmt.stops_for(table, k) {
        return;
    }
    process_comments(src, table, fmt, queue, behind(table, k), fmt.lines);
}

// A literal keeps the lines that it did not write: output.rs 171 to 177.
pub fn lit(
    src: &[u8],
    table: &[u32],
    fmt: &mut Formatter,
    queue: &mut Queue,
    out: &mut [u8],
    l: Literal,
)
    ensures { Made src table fmt queue out (make (Call.Lit l)) }
{
    fmt.stops();
    put(fmt, out, true, text(src, &LITERALS, Wording::Literal(l)));
}

// output.rs 382 to 401.
pub fn flush_whitespace(
    src: &[u8],
    table: &[u32],
    fmt: &mut Formatter,
    queue: &mut Queue,
    out: &mut [u8],
    preserve: bool,
)
    ensures { Made src table fmt queue out (make (Call.FlushWhitespace preserve)) }
{
    fmt.stops();
    put(fmt, out, preserve, &src[..0]);
}

// By the hint: output.rs 180 to 205.
pub fn comments(
    src: &[u8],
    table: &[u32],
    fmt: &mut Formatter,
    queue: &mut Queue,
    out: &mut [u8],
    h: Hint,
)
    ensures { Made src table fmt queue out (make (Call.Comments h)) }
{
    fmt.stops();
    release(src, fmt, queue, out, Way::from(h));
}

// The byte is a signed one; `indent` stays from 0 to 64. By the two cases of the meaning's `signed`: as a sum of signed bytes it is no
// plainer, since up and down are refused at different bounds.
pub fn indent(
    src: &[u8],
    table: &[u32],
    fmt: &mut Formatter,
    queue: &mut Queue,
    out: &mut [u8],
    d: u8,
)
    ensures { Made src table fmt queue out (make (Call.Indent d)) }
{
    if fmt.stops() {
        return;
    }
    let i = fmt.indent as u32;
    let b = d as u32;
    if b < 0x80 {
        if 64 < i + b {
            fmt.refused(Refusal::IndentOut(i));
            return;
        }
        fmt.indent = (i + b) as u8;
        return;
    }
    if i < 0x100 - b {
        fmt.refused(Refusal::IndentOut(i));
        return;
    }
    fmt.indent = (i - (0x100 - b)) as u8;
}

// An offer of n newlines: the script's own count wins.
pub fn nl(src: &[u8], table: &[u32], fmt: &mut Formatter, queue: &mut Queue, out: &mut [u8], n: u8)
    ensures { Made src table fmt queue out (make (Call.Nl n)) }
{
    fmt.stops();
    if n == 0 {
        return;
    }
    release(src, fmt, queue, out, Way::Lines(true));
    if !fmt.stopped() {
        fmt.set_lines(or_else(fmt.lines, n as u32));
    }
}

// A space is due, behind the comments that a space may follow: output.rs 246 to 250.
pub fn ws(src: &[u8], table: &[u32], fmt: &mut Formatter, queue: &mut Queue, out: &mut [u8])
    ensures { Made src table fmt queue out (make Call.Ws) }
{
    fmt.stops();
    release(src, fmt, queue, out, Way::Spaces(true, false));
    if !fmt.stopped() {
        fmt.ws = true;
    }
}

// Refused while it lets comments out, it has not collected them.
pub fn flush_prefix_comments(
    src: &[u8],
    table: &[u32],
    fmt: &mut Formatter,
    queue: &mut Queue,
    out: &mut [u8],
)
    ensures { Made src table fmt queue out (make Call.FlushPrefixComments) }
{
    if fmt.stops() {
        return;
    }
    let before = fmt.lines;
    let waiting = fmt.count;
    if process_comments(src, table, fmt, queue, RecordNo(0), before) {
        return;
    }
    release_waiting(src, fmt, queue, out, Way::Lines(false));
    if fmt.stopped() {
        fmt.collected(before, waiting);
        return;
    }
    fmt.use_lines = 0 < fmt.lines;
}

// All that waits goes, and no call is taken any more; the Rust does so where the whole layout ends.
pub fn finish(src: &[u8], table: &[u32], fmt: &mut Formatter, queue: &mut Queue, out: &mut [u8])
    ensures { Made src table fmt queue out (make Call.Finish) }
{
    fmt.stops();
    release_waiting(src, fmt, queue, out, Way::Lines(false));
    if !fmt.stopped() {
        fmt.finished = true;
    }
}

// Any call.
pub fn make_call(
    src: &[u8],
    table: &[u32],
    fmt: &mut Formatter,
    queue: &mut Queue,
    out: &mut [u8],
    c: Call,
)
    ensures { Made src table fmt queue out (make c) }
{
    match c {
        Call::WriteOwned(k) => write_owned(src, table, fmt, queue, out, k),
        Call::WriteRaw(k) => write_raw(src, table, fmt, queue, out, k),
        Call::Ignore(k) => ignore(src, table, fmt, queue, out, k),
        Call::Lit(l) => lit(src, table, fmt, queue, out, l),
        Call::Comments(h) => comments(src, table, fmt, queue, out, h),
        Call::Indent(d) => indent(src, table, fmt, queue, out, d),
        Call::Nl(n) => nl(src, table, fmt, queue, out, n),
        Call::Ws => ws(src, table, fmt, queue, out),
        Call::FlushWhitespace(p) => flush_whitespace(src, table, fmt, queue, out, p),
        Call::FlushPrefixComments => flush_prefix_comments(src, table, fmt, queue, out),
        Call::Finish => finish(src, table, fmt, queue, out),
    }
}
