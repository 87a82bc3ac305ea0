// Items on lines of their own.
ghost use Rattle.std.specs.Prelude.{◌≡◌};
ghost use Rattle.meaning.specs.declared.call.Hint.TheVariants.{Line};
ghost use Rattle.meaning.specs.declared.call.Call.TheVariants.{Nl, Comments};
ghost use Rattle.meaning.specs.Plan.{make, ◌then◌};
ghost use Rattle.lent.specs.Loans.{Made};
ghost use Rattle.bodies.specs.Body.{lines, line_end};

use calls::{comments, indent, nl};
use lent::formatter::Formatter;
use lent::ring::Queue;
use meaning::call::Hint;

// An item on a line of its own.
pub fn before_line(
    src: &[u8],
    table: &[u32],
    fmt: &mut Formatter,
    queue: &mut Queue,
    out: &mut [u8],
)
    ensures { Made src table fmt queue out (make (Nl 1) then make (Comments Line)) }
{
    nl(src, table, fmt, queue, out, 1);
    comments(src, table, fmt, queue, out, Hint::Line);
}

// A new line behind the last, but none where there was no item.
fn lines(any: bool) -> u8
    ensures { result ≡ lines any }
{
    u8::from(any)
}

// Behind the last: a new line if there was an item, and back out; the byte 255 is one level less.
pub fn end_lines(
    src: &[u8],
    table: &[u32],
    fmt: &mut Formatter,
    queue: &mut Queue,
    out: &mut [u8],
    any: bool,
)
    ensures { Made src table fmt queue out (line_end any) }
{
    comments(src, table, fmt, queue, out, Hint::Line);
    nl(src, table, fmt, queue, out, lines(any));
    indent(src, table, fmt, queue, out, 255);
}
