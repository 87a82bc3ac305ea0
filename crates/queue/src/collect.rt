// Collecting: comments behind a record go into the queue.
ghost use Rattle.std.specs.Prelude.{◌≡◌};
ghost use Rattle.text.specs.Lines.{newlines};
ghost use Rattle.text.specs.Span.{text_of};
ghost use Rattle.meaning.specs.Collect.{met_of, or_else};
ghost use Rattle.queue.specs.Met.{as_met};
ghost use Rattle.queue.specs.Parts.{Collected};

use lent::formatter::Formatter;
use lent::ring::{Comment, Queue, push};
use meaning::answer::Refusal;
use text::lines::count_newlines;
use text::span::{Span, part};
use tree::record::{Record, RecordNo};
use tree::table::{node, size};

// What a record is to the collector: a composite that has children, a comment (of a line or not), white space with so many newlines, or
// any other record, where collecting ends.
#[derive(Clone, Copy)]
enum Met {
    Inner,
    Remark(bool),
    Blank(u32),
    Stop,
}

// The newlines of a white space leaf.
fn newlines_in(src: &[u8], span: Span) -> u32
    ensures { result ≡ newlines (text_of src.now span) }
{
    count_newlines(part(src, span)) as u32
}

// `write_comment`'s questions to a record: output.rs 332 to 359. By the byte that the tree has for a kind, as the meaning's `met_of`.
#[tactic(auto, unfolding(meaning::specs::Collect::met_of))]
fn met_at(src: &[u8], r: Record) -> Met
    ensures { as_met r.span result ≡ met_of src.now r }
{
    if 0 < r.below {
        return Met::Inner;
    }
    match r.kind {
        0 => Met::Blank(newlines_in(src, r.span)),
        1 => Met::Remark(true),
        2 => Met::Remark(false),
        _ => Met::Stop,
    }
}

// The count, unless it is 0.
pub fn or_else(lines: u32, n: u32) -> u32
    ensures { result ≡ or_else lines n }
{
    if lines == 0 { n } else { lines }
}

// From a record on, with so many newlines in hand: was it refused? Then the comments that waited before still stand in the ring. A bool and
// no Result: the refusal itself stands in the formatter, and definition `Collects` tells by the bool which run is left.
pub fn process_comments(
    src: &[u8],
    table: &[u32],
    fmt: &mut Formatter,
    queue: &mut Queue,
    from: RecordNo,
    before: u32,
) -> bool
    ensures { Collected src table fmt queue from.0 before result }
{
    let mut lines = before;
    let mut n = fmt.count;
    for i in from.0..size(table).0 {
        let r = node(table, RecordNo(i));
        match met_at(src, r) {
            Met::Inner => {}
            Met::Blank(k) => lines = or_else(lines, k),
            Met::Remark(line) => {
                if 256 <= n {
                    fmt.refused(Refusal::QueueFull(RecordNo(i)));
                    return true;
                }
                let c = Comment {
                    span: r.span,
                    before: lines,
                    line,
                };
                push(queue, fmt.head, n, c);
                lines = 0;
                n += 1;
            }
            Met::Stop => break,
        }
    }
    fmt.collected(lines, n);
    false
}
