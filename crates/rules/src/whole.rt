// A whole layout: record 0 is a script's body, and all that stands in it is laid out as one run.
ghost use Rattle.std.specs.Prelude.{◌≡◌};
ghost use Rattle.lent.specs.Loans.{Made, script};
ghost use Rattle.walk.specs.Stream.{tree};
ghost use Rattle.rules.specs.Whole.{is_script, whole};

use crate::node::content;
use calls::{finish, flush_prefix_comments, nl};
use kinds::bytes;
use lent::formatter::Formatter;
use lent::ring::Queue;
use meaning::answer::Refusal;
use tree::cursor::behind;
use tree::record::RecordNo;
use tree::table::{kind_at, size};

// Record 0 is a block body that holds all other records.
fn is_script(table: &[u32]) -> bool
    ensures { result ≡ is_script (tree table) }
{
    if size(table).0 == 0 {
        return false;
    }
    if kind_at(table, RecordNo(0)) == bytes::BLOCK_BODY {
        return behind(table, RecordNo(0)).0 == size(table).0;
    }
    false
}

// What stands in front of the first statement, the statements, a last line, and the finish.
pub fn whole(src: &[u8], table: &[u32], fmt: &mut Formatter, queue: &mut Queue, out: &mut [u8])
    ensures { Made src table fmt queue out (whole (script src table)) }
{
    if is_script(table) {
        flush_prefix_comments(src, table, fmt, queue, out);
        content(src, table, fmt, queue, out, RecordNo(0));
        nl(src, table, fmt, queue, out, 1);
        finish(src, table, fmt, queue, out);
        return;
    }
    fmt.refuse(Refusal::WrongKind(RecordNo(0)));
}
