// The flush: the white space that is due, and a text behind it.
ghost use Rattle.std.specs.Prelude.{◌≡◌, []};
ghost use Rattle.meaning.specs.Flush.{breaking, flush_gap};
ghost use Rattle.lent.specs.Run.{flushed_run};
ghost use Rattle.lent.specs.View.{view, gap_bytes};
ghost use Rattle.queue.specs.Parts.{Put};

use lent::formatter::Formatter;
use lent::room::{Gap, lay, line_break, passes};
use meaning::answer::Refusal;

// Newlines are due: `use_lines`, and `lines` is not 0.
fn breaking(fmt: &Formatter) -> bool
    ensures { result ≡ breaking (view fmt.now []) }
{
    fmt.use_lines && 0 < fmt.lines
}

// The white space that is due.
pub fn due(fmt: &Formatter) -> Gap
    ensures { gap_bytes result ≡ flush_gap (view fmt.now []) }
{
    if breaking(fmt) {
        line_break(fmt.indent, fmt.lines)
    } else if fmt.ws {
        Gap::SPACE
    } else {
        Gap::NONE
    }
}

// What a flush leaves of the three hints.
fn flush(fmt: &mut Formatter, preserve: bool)
    ensures { fmt.new ≡ flushed_run preserve fmt.old }
{
    if preserve && !breaking(fmt) {
        fmt.ws = false;
    } else {
        fmt.clear();
    }
}

// The white space that is due, and a text.
pub fn put(fmt: &mut Formatter, out: &mut [u8], preserve: bool, t: &[u8])
    ensures { Put fmt out preserve t }
{
    if fmt.stopped() {
        return;
    }
    let at = fmt.len;
    let gap = due(fmt);
    if passes(out.len(), at, gap, t.len()) {
        fmt.refused(Refusal::NoRoom(at));
        return;
    }
    let to = lay(out, at, gap, t);
    flush(fmt, preserve);
    fmt.len = to;
}
