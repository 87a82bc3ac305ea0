// The checks on what is lent, before all else: 1, 2, 3, 7 as at opening, then 4, 5, 6 on the state.
ghost use Rattle.std.specs.Prelude.{◌≡◌};
ghost use Rattle.opening.specs.Opening.{opened};
ghost use Rattle.meaning.specs.Lent.{any_outside};
ghost use Rattle.meaning.specs.Opening.{answer_to};
ghost use Rattle.lent.specs.View.{queue_of};
ghost use Rattle.entry.specs.Served.{lent_run};

use lent::formatter::Formatter;
use lent::ring::{Queue, comment_at};
use meaning::answer::{Answer, Refusal};
use text::chars::in_source;
use tree::record::RecordNo;

// What opening answers to a source and a tree.
pub fn opening(source: &[u8], tree: &[u8]) -> Answer
    ensures { result ≡ answer_to (opened source.now tree.now) }
{
    opening::open::open(source, tree)?;
    Ok(())
}

// Does a waiting span lie outside the source, or across a character?
fn any_outside(src: &[u8], queue: &Queue, head: u32, count: u32) -> bool
    ensures { result ≡ any_outside src.now (queue_of queue.now head count) }
{
    for i in 0..count {
        if !in_source(src, comment_at(queue, head, i).span) {
            return true;
        }
    }
    false
}

// 4, 5, 6, where the buffer has `cap` bytes.
pub fn lent(src: &[u8], fmt: &mut Formatter, queue: &Queue, cap: usize)
    ensures { fmt.new ≡ lent_run src.now queue.now cap fmt.old }
{
    if fmt.stopped() {
        return;
    }
    if cap < fmt.len {
        fmt.refused(Refusal::NoRoom(fmt.len));
        return;
    }
    if 256 < fmt.count {
        fmt.refused(Refusal::QueueFull(RecordNo(8192)));
        return;
    }
    if any_outside(src, queue, fmt.head, fmt.count) {
        fmt.refused(Refusal::QueueFull(RecordNo(8192)));
        return;
    }
    if 64 < fmt.indent {
        fmt.refused(Refusal::IndentOut(fmt.indent as u32));
    }
}
