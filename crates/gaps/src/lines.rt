// Entries on lines of their own, and the keys of objects: format.rs 450 to 505, 808 to 823.
ghost use Rattle.lent.specs.Loans.{Made};
ghost use Rattle.walk.specs.Stream.{tree};
ghost use Rattle.walk.specs.Flow.{Walked};
ghost use Rattle.steps.specs.Remaining.{remaining_of};
ghost use Rattle.gaps.specs.Lines.{open_lines, end_entry, close_lines, key_line, close_keys, next_key};

use calls::{comments, indent, nl, ws};
use lent::formatter::Formatter;
use lent::ring::Queue;
use meaning::call::Hint;
use steps::remaining::{Mark, Remaining, put, put_remaining};
use walk::stream::Stream;
use walk::tokens::any;

// In front of the first.
pub fn open_lines(src: &[u8], table: &[u32], fmt: &mut Formatter, queue: &mut Queue, out: &mut [u8])
    ensures { Made src table fmt queue out open_lines }
{
    nl(src, table, fmt, queue, out, 1);
    indent(src, table, fmt, queue, out, 1);
}

// Behind each: its comma, which may be missing, and a new line.
pub fn end_entry(
    src: &[u8],
    table: &[u32],
    fmt: &mut Formatter,
    queue: &mut Queue,
    out: &mut [u8],
    p: &mut Stream,
)
    ensures { Walked src table fmt queue out p (end_entry (tree table)) }
{
    put_remaining(src, table, fmt, queue, out, p, Mark::Comma);
    nl(src, table, fmt, queue, out, 1);
}

// Behind the last expression.
pub fn close_lines(
    src: &[u8],
    table: &[u32],
    fmt: &mut Formatter,
    queue: &mut Queue,
    out: &mut [u8],
)
    ensures { Made src table fmt queue out close_lines }
{
    nl(src, table, fmt, queue, out, 1);
    comments(src, table, fmt, queue, out, Hint::Line);
    indent(src, table, fmt, queue, out, 255);
}

// A key on a line of its own.
pub fn key_line(
    src: &[u8],
    table: &[u32],
    fmt: &mut Formatter,
    queue: &mut Queue,
    out: &mut [u8],
    p: &mut Stream,
)
    ensures { Walked src table fmt queue out p key_line }
{
    comments(src, table, fmt, queue, out, Hint::Line);
    any(src, table, fmt, queue, out, p);
}

// Behind the last key: back out, and the brace, which may be missing.
pub fn close_keys(
    src: &[u8],
    table: &[u32],
    fmt: &mut Formatter,
    queue: &mut Queue,
    out: &mut [u8],
    p: &mut Stream,
)
    ensures { Walked src table fmt queue out p (close_keys (tree table)) }
{
    nl(src, table, fmt, queue, out, 1);
    indent(src, table, fmt, queue, out, 255);
    put_remaining(src, table, fmt, queue, out, p, Mark::CloseBrace);
}

// A key behind the comma of the one before it.
pub fn next_key(
    src: &[u8],
    table: &[u32],
    fmt: &mut Formatter,
    queue: &mut Queue,
    out: &mut [u8],
    p: &mut Stream,
    comma: Remaining,
)
    ensures { Walked src table fmt queue out p (next_key (remaining_of Mark.Comma comma)) }
{
    put(src, table, fmt, queue, out, comma, Mark::Comma);
    ws(src, table, fmt, queue, out);
    any(src, table, fmt, queue, out, p);
}
