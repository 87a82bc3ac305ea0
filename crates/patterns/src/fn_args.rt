// The arguments of a function: format.rs 1575 to 1599.
ghost use Rattle.lent.specs.Loans.{Made};
ghost use Rattle.walk.specs.Stream.{tree};
ghost use Rattle.walk.specs.Flow.{parse};
ghost use Rattle.patterns.specs.Pattern.{fn_args};

use crate::pat::pat;
use kinds::Kind;
use lent::formatter::Formatter;
use lent::ring::Queue;
use steps::items::{before_item, behind_item, close_list};
use steps::remaining::{Mark, Remaining, pass, take_remaining};
use tree::record::RecordNo;
use walk::stream::records_of;
use walk::tokens::token;

// A comma in front of the first is passed over.
pub fn fn_args(
    src: &[u8],
    table: &[u32],
    fmt: &mut Formatter,
    queue: &mut Queue,
    out: &mut [u8],
    k: RecordNo,
)
    ensures { Made src table fmt queue out (parse (tree table) (fn_args (tree table)) k) }
{
    let mut p = records_of(table, k);
    token(src, table, fmt, queue, out, &mut p, Kind::OpenParenthesis);
    let first = take_remaining(table, fmt, &mut p, Mark::Comma);
    pass(src, table, fmt, queue, out, first);
    let mut comma = Remaining::Fresh;
    while p.next_is(table, Kind::Pat) {
        before_item(src, table, fmt, queue, out, comma);
        let n = p.pump(table, fmt);
        pat(src, table, fmt, queue, out, n, 64);
        comma = behind_item(src, table, fmt, queue, out, &mut p);
    }
    close_list(src, table, fmt, queue, out, comma);
    token(src, table, fmt, queue, out, &mut p, Kind::CloseParenthesis);
    p.left_over(table, fmt);
}
