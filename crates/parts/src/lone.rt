// A node in the place of an expression that leads to no expression: format.rs 579 to 589, 647 to 649, 681 to 683.
ghost use Rattle.lent.specs.Loans.{Made, Refused};
ghost use Rattle.walk.specs.Stream.{tree};
ghost use Rattle.parts.specs.Lone.{whole, lone, no_item};

use calls::write_owned;
use kinds::bytes;
use lent::formatter::Formatter;
use lent::ring::Queue;
use meaning::answer::Refusal;
use paths::path::path;
use patterns::pat_parts::pat_lit;
use tree::record::RecordNo;
use tree::table::kind_at;
use walk::stream::records_of;
use walk::tokens::any;

// One node or token, written whole: a template, a full range.
fn whole(
    src: &[u8],
    table: &[u32],
    fmt: &mut Formatter,
    queue: &mut Queue,
    out: &mut [u8],
    k: RecordNo,
)
    ensures { Made src table fmt queue out (whole (tree table) k) }
{
    let mut p = records_of(table, k);
    any(src, table, fmt, queue, out, &mut p);
    p.left_over(table, fmt);
}

// A lone token is written; a node without a rule is refusal 9.
pub fn lone(
    src: &[u8],
    table: &[u32],
    fmt: &mut Formatter,
    queue: &mut Queue,
    out: &mut [u8],
    k: RecordNo,
)
    ensures { Made src table fmt queue out (lone (tree table) k) }
{
    let kind = kind_at(table, k);
    match kind {
        bytes::PATH => path(src, table, fmt, queue, out, k, 64),
        bytes::LIT => pat_lit(src, table, fmt, queue, out, k),
        bytes::TEMPLATE | bytes::RANGE_FULL => whole(src, table, fmt, queue, out, k),
        _ => {
            if kind < 0x80 {
                write_owned(src, table, fmt, queue, out, k);
                return;
            }
            fmt.refuse(Refusal::NoRule(k));
        }
    }
}

// An item's child that is no item: a leaf is refusal 8, a composite 9.
pub fn no_item(table: &[u32], fmt: &mut Formatter, k: RecordNo)
    ensures { Refused fmt (no_item (tree table) k) }
{
    if kind_at(table, k) < 0x80 {
        fmt.refuse(Refusal::WrongKind(k));
        return;
    }
    fmt.refuse(Refusal::NoRule(k));
}
