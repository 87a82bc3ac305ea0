// The queue of waiting comments: a ring of 256 slots, four words each (start, end, `before`, 1 for a line comment).
ghost use Rattle.std.specs.Prelude.{◌≡◌, ◌∷◌, [], ◌++◌, ◌+◌, ◌<◌, min};
ghost use Rattle.lent.specs.View.{slot_of, ring_at, queue_of, as_comment, stored, slots_of};

use text::span::{BytePos, Span};

// Lent beside the formatter. Words and not comments: `slots_of` says the state that a caller keeps in them.
pub type Queue = [u32; 1024];

// A comment as it waits.
#[derive(Clone, Copy)]
pub struct Comment {
    pub span: Span,
    pub before: u32,
    pub line: bool,
}

// The first word of a slot; slots count on from 255 to 0.
fn slot(head: u32, i: u32) -> usize
    ensures { result ≡ slot_of (head + i) }
{
    ((head as usize) + (i as usize)) % 256 * 4
}

// The comment i places behind the head.
pub fn comment_at(queue: &Queue, head: u32, i: u32) -> Comment
    ensures { as_comment result ≡ ring_at queue.now (head + i) }
{
    let p = slot(head, i);
    Comment {
        span: Span {
            start: BytePos(queue[p]),
            end: BytePos(queue[p + 1]),
        },
        before: queue[p + 2],
        line: queue[p + 3] == 1,
    }
}

// The words of a comment at place p.
fn store(queue: &mut Queue, p: usize, c: Comment)
    requires { p < 1021 }
    ensures { queue.new ≡ stored queue.old p (as_comment c) }
{
    queue[p] = c.span.start.0;
    queue[p + 1] = c.span.end.0;
    queue[p + 2] = c.before;
    queue[p + 3] = c.line as u32;
}

// One comment more, behind the last.
pub fn push(queue: &mut Queue, head: u32, count: u32, c: Comment)
    requires { count < 256 }
    ensures { queue_of queue.new head (count + 1) ≡ queue_of queue.old head count ++ (as_comment c ∷ []) }
{
    store(queue, slot(head, count), c);
}

// The queue anew, from slot 0 on, and zero behind it.
pub fn tidy(queue: &Queue, head: u32, count: u32) -> [u32; 1024]
    ensures { result ≡ slots_of (queue_of queue.now head count) }
{
    let mut to = [0u32; 1024];
    for i in 0..count.min(256) {
        let c = comment_at(queue, head, i);
        store(&mut to, (i as usize) * 4, c);
    }
    to
}
