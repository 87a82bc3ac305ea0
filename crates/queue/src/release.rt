// The releases: comments from the head of the queue are let out, in two passes over the ring. The first finds how many go and how far
// they reach, so that nothing is written where there is no room; the second writes them.
ghost use Rattle.std.specs.Prelude.{◌≡◌, ◌≤◌, ◌+◌, length, eqb};
ghost use Rattle.lent.specs.View.{queue_of, as_comment, gap_bytes};
ghost use Rattle.queue.specs.Passes.{stop_of, front_of, gap_of, letters_of, back_of, bytes_from, reach, Measured, way_of};
ghost use Rattle.lent.specs.Loans.{Wrote};
ghost use Rattle.queue.specs.Parts.{Released};

use lent::formatter::Formatter;
use lent::ring::{Comment, Queue, comment_at};
use lent::room::{Gap, lay, line_break, passes};
use meaning::answer::Refusal;
use meaning::call::Hint;
use text::span::part;
use text::trim::trimmed;

// By lines, of the same line only or not; or by spaces, with one in front or not and one behind or not.
#[derive(Clone, Copy)]
pub enum Way {
    Lines(bool),
    Spaces(bool, bool),
}

// How a hint lets comments out.
impl From<Hint> for Way {
    ghost from_gives = { λ h way. way ≡ way_of h };

    fn from(h: Hint) -> Way {
        match h {
            Hint::Line => Way::Lines(false),
            Hint::Prefix => Way::Spaces(false, true),
            Hint::Suffix => Way::Spaces(true, false),
            Hint::Infix => Way::Spaces(false, false),
        }
    }
}

// What the first pass finds: how many go, and the output's length behind them.
#[derive(Clone, Copy)]
struct Fit {
    count: u32,
    len: usize,
}

impl Way {
    // Does the release stop at this comment?
    fn stops(self, c: Comment) -> bool
        ensures { result ≡ stop_of self (as_comment c) }
    {
        match self {
            Way::Lines(same_line) => same_line && 0 < c.before,
            Way::Spaces(_, _) => c.line,
        }
    }

    // A space stands before the first comment.
    fn in_front(self) -> bool
        ensures { result ≡ front_of self }
    {
        match self {
            Way::Lines(_) => false,
            Way::Spaces(front, _) => front,
        }
    }

    // The white space before a comment, where the output has `len` bytes.
    fn gap_before(self, indent: u8, front: bool, len: usize, before: u32) -> Gap
        ensures { gap_bytes result ≡ gap_of self indent front (eqb len 0) before }
    {
        if len == 0 {
            return Gap::NONE;
        }
        match self {
            Way::Lines(_) if before == 0 => Gap::SPACE,
            Way::Lines(_) => line_break(indent, before),
            Way::Spaces(_, _) if front => Gap::SPACE,
            Way::Spaces(_, _) => Gap::NONE,
        }
    }

    // The comment's text; on lines, a line comment's without the White_Space at its end.
    fn letters(self, src: &[u8], c: Comment) -> &[u8]
        ensures { result.now ≡ letters_of src.now self (as_comment c) }
    {
        let t = part(src, c.span);
        match self {
            Way::Lines(_) if c.line => trimmed(t),
            _ => t,
        }
    }

    // The white space behind so many comments.
    fn gap_behind(self, count: u32) -> Gap
        ensures { gap_bytes result ≡ back_of self count }
    {
        match self {
            Way::Spaces(_, true) if 0 < count => Gap::SPACE,
            _ => Gap::NONE,
        }
    }
}

// The first pass, or none where there is no room.
fn measure(src: &[u8], fmt: &Formatter, queue: &Queue, cap: usize, way: Way) -> Option<Fit>
    ensures { Measured src.now way fmt.now.indent fmt.now.len cap (queue_of queue.now fmt.now.head fmt.now.count) result }
{
    let mut len = fmt.len;
    if cap < len {
        return None;
    }
    let mut front = way.in_front();
    for i in 0..fmt.count {
        let c = comment_at(queue, fmt.head, i);
        if way.stops(c) {
            return Some(Fit { count: i, len });
        }
        let gap = way.gap_before(fmt.indent, front, len, c.before);
        let t = way.letters(src, c);
        if passes(cap, len, gap, t.len()) {
            return None;
        }
        len = len + (gap.lines + gap.spaces) + t.len();
        front = true;
    }
    Some(Fit {
        count: fmt.count,
        len,
    })
}

// The second pass: the first n comments are written.
fn write(src: &[u8], fmt: &Formatter, queue: &Queue, out: &mut [u8], way: Way, n: u32)
    requires { reach src.now way fmt.now.indent (front_of way) fmt.now.len (queue_of queue.now fmt.now.head n) ≤ length out.old }
    ensures { Wrote out fmt.now.len (bytes_from src.now way fmt.now.indent (front_of way) fmt.now.len (queue_of queue.now fmt.now.head n)) }
{
    let mut len = fmt.len;
    let mut front = way.in_front();
    for i in 0..n {
        let c = comment_at(queue, fmt.head, i);
        let gap = way.gap_before(fmt.indent, front, len, c.before);
        let t = way.letters(src, c);
        len = lay(out, len, gap, t);
        front = true;
    }
}

// The one comment that waits is measured and written at once.
fn release_one(src: &[u8], fmt: &mut Formatter, queue: &Queue, out: &mut [u8], way: Way)
    requires { (fmt.old.answer ≡ Ok tt) × (fmt.old.count ≡ 1) × (fmt.old.len ≤ length out.old) }
    ensures { Released src fmt queue out way }
{
    let from = fmt.len;
    let c = comment_at(queue, fmt.head, 0);
    if way.stops(c) {
        return;
    }
    let gap = way.gap_before(fmt.indent, way.in_front(), from, c.before);
    let t = way.letters(src, c);
    if passes(out.len(), from, gap, t.len()) {
        fmt.refused(Refusal::NoRoom(from));
        return;
    }
    let back = way.gap_behind(1);
    if passes(
        out.len(),
        from + (gap.lines + gap.spaces) + t.len(),
        back,
        0,
    ) {
        fmt.refused(Refusal::NoRoom(from));
        return;
    }
    let to = lay(out, from, gap, t);
    let end = lay(out, to, back, &src[..0]);
    fmt.let_out(1, end);
}

// Both passes.
pub fn release_waiting(src: &[u8], fmt: &mut Formatter, queue: &Queue, out: &mut [u8], way: Way)
    ensures { Released src fmt queue out way }
{
    if fmt.stopped() {
        return;
    }
    if fmt.count == 1 && fmt.len <= out.len() {
        release_one(src, fmt, queue, out, way);
        return;
    }
    let Some(fit) = measure(src, fmt, queue, out.len(), way) else {
        fmt.refused(Refusal::NoRoom(fmt.len));
        return;
    };
    let gap = way.gap_behind(fit.count);
    if passes(out.len(), fit.len, gap, 0) {
        fmt.refused(Refusal::NoRoom(fmt.len));
        return;
    }
    write(src, fmt, queue, out, way, fit.count);
    let end = lay(out, fit.len, gap, &src[..0]);
    fmt.let_out(fit.count, end);
}

// A release. Most often nothing waits: then nothing changes, where the output is inside the buffer.
pub fn release(src: &[u8], fmt: &mut Formatter, queue: &Queue, out: &mut [u8], way: Way)
    ensures { Released src fmt queue out way }
{
    if fmt.count == 0 && fmt.len <= out.len() {
        return;
    }
    release_waiting(src, fmt, queue, out, way);
}
