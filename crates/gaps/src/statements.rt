// What stands around statements and blocks: format.rs 867 to 904, 1609 to 1674.
ghost use Rattle.std.specs.Prelude.{◌≡◌};
ghost use Rattle.lent.specs.Loans.{Made};
ghost use Rattle.walk.specs.Stream.{tree, stream_here};
ghost use Rattle.walk.specs.Flow.{Walked};
ghost use Rattle.steps.specs.Remaining.{remaining_of};
ghost use Rattle.gaps.specs.Statements.{is_const, is_local, lines_of, gap, before_semi, semicolon, is_spread, enter, leave, group_end};

use calls::{comments, ignore, indent, nl};
use kinds::{Class, Kind, class_at, semi_at};
use lent::formatter::Formatter;
use lent::ring::Queue;
use meaning::call::Hint;
use steps::remaining::{Mark, Remaining, take_remaining, write_if};
use walk::stream::Stream;
use walk::tokens::token;

// A const statement: those stand together, format.rs 1650.
fn is_const(class: Class) -> bool
    ensures { result ≡ is_const class }
{
    matches!(class, Class::Const)
}

// A `let`: those stand together as well, format.rs 1651.
fn is_local(class: Class) -> bool
    ensures { result ≡ is_local class }
{
    matches!(class, Class::Local)
}

// Lines between two statements, by their classes.
#[tactic(auto, unfolding(crate::specs::Statements::lines_of))]
fn lines(last: Class, this: Class) -> u8
    ensures { result ≡ lines_of last this }
{
    match last {
        Class::Item => 2,
        Class::Const => if is_const(this) { 1 } else { 2 },
        Class::Local => if is_local(this) { 1 } else { 2 },
        Class::Other | Class::None => 1,
    }
}

// Lines before a statement, by the kind of the one before it; 00 where there is none, and no Option: the definition `gap` is over the byte.
pub fn gap(
    src: &[u8],
    table: &[u32],
    fmt: &mut Formatter,
    queue: &mut Queue,
    out: &mut [u8],
    last: u8,
    kind: u8,
)
    ensures { Made src table fmt queue out (gap last kind) }
{
    if last != 0 {
        nl(
            src,
            table,
            fmt,
            queue,
            out,
            lines(class_at(last), class_at(kind)),
        );
    }
}

// Comments in front of a semicolon that is needed or there.
fn before_semi(
    src: &[u8],
    table: &[u32],
    fmt: &mut Formatter,
    queue: &mut Queue,
    out: &mut [u8],
    semi: Remaining,
    needed: bool,
)
    ensures { Made src table fmt queue out (before_semi needed (remaining_of Mark.SemiColon semi)) }
{
    if needed || semi.is_present() {
        comments(src, table, fmt, queue, out, Hint::Suffix);
    }
}

// Behind a statement of this kind: its semicolon, if it is needed or there.
pub fn semicolon(
    src: &[u8],
    table: &[u32],
    fmt: &mut Formatter,
    queue: &mut Queue,
    out: &mut [u8],
    p: &mut Stream,
    kind: u8,
)
    ensures { Walked src table fmt queue out p (semicolon (tree table) kind) }
{
    let needed = semi_at(kind);
    let semi = take_remaining(table, fmt, p, Mark::SemiColon);
    before_semi(src, table, fmt, queue, out, semi, needed);
    write_if(src, table, fmt, queue, out, semi, Mark::SemiColon, needed);
}

// In front of the statements of a block, which is spread over lines or not.
pub fn enter(
    src: &[u8],
    table: &[u32],
    fmt: &mut Formatter,
    queue: &mut Queue,
    out: &mut [u8],
    spread: bool,
)
    ensures { Made src table fmt queue out (enter spread) }
{
    if spread {
        indent(src, table, fmt, queue, out, 1);
        nl(src, table, fmt, queue, out, 1);
        comments(src, table, fmt, queue, out, Hint::Line);
        return;
    }
    comments(src, table, fmt, queue, out, Hint::Prefix);
}

// Behind them.
pub fn leave(
    src: &[u8],
    table: &[u32],
    fmt: &mut Formatter,
    queue: &mut Queue,
    out: &mut [u8],
    spread: bool,
)
    ensures { Made src table fmt queue out (leave spread) }
{
    if spread {
        nl(src, table, fmt, queue, out, 1);
        comments(src, table, fmt, queue, out, Hint::Line);
        nl(src, table, fmt, queue, out, 1);
        indent(src, table, fmt, queue, out, 255);
        return;
    }
    comments(src, table, fmt, queue, out, Hint::Suffix);
}

// Either end of a group: a parenthesis, or the mark of an empty group, which is not written. `paren` is a byte, as the definition has it.
pub fn group_end(
    src: &[u8],
    table: &[u32],
    fmt: &mut Formatter,
    queue: &mut Queue,
    out: &mut [u8],
    p: &mut Stream,
    empty: bool,
    paren: u8,
)
    ensures { Walked src table fmt queue out p (group_end (tree table) empty paren) }
{
    if empty {
        let k = p.expect(table, fmt, Kind::OpenEmpty);
        ignore(src, table, fmt, queue, out, k);
        return;
    }
    token(src, table, fmt, queue, out, p, paren);
}

// A block is spread over lines unless it is compact and empty.
#[tactic(auto, unfolding(crate::specs::Statements::is_spread))]
pub fn is_spread(table: &[u32], p: &Stream, compact: bool) -> bool
    ensures { result ≡ is_spread compact (stream_here table p) }
{
    !compact || p.has_next(table)
}
