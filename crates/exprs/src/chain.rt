// Chains: format.rs 1181 to 1284.
ghost use Rattle.exprs.specs.Rule.{Rule};
ghost use Rattle.exprs.specs.Chain.{chain};
ghost use Rattle.exprs.specs.Lay.{Lays, Parses};

use crate::Lay;
use kinds::bytes;
use lent::formatter::Formatter;
use lent::ring::Queue;
use loose::chain::chain_from;
use meaning::answer::Refusal;
use parts::links::{
    await_link, break_link, close_index, end_chain, field_link, open_index, try_link,
};
use tree::record::RecordNo;
use tree::table::kind_at;
use walk::stream::records_of;

// The tokens around a call's arguments.
pub const OPEN: u8 = bytes::PAREN_OPEN;

pub const CLOSE: u8 = bytes::PAREN_CLOSE;

impl Lay {
    // Its head, then links, each on its line or on a new one.
    #[cycle(lay)]
    pub fn chain(
        src: &[u8],
        table: &[u32],
        fmt: &mut Formatter,
        queue: &mut Queue,
        out: &mut [u8],
        k: RecordNo,
        depth: u32,
    )
        ensures { Parses src table fmt queue out depth chain k }
    {
        let mut p = records_of(table, k);
        let head = p.pump(table, fmt);
        let from = chain_from(src, table, k, head);
        Lay::inner(src, table, fmt, queue, out, head, depth);
        let mut n: u32 = 0;
        while p.has_next(table) {
            let link = p.pump(table, fmt);
            break_link(src, table, fmt, queue, out, link, from, n);
            Lay::link(src, table, fmt, queue, out, link, depth);
            n += 1;
        }
        end_chain(src, table, fmt, queue, out, from, n);
        p.left_over(table, fmt);
    }

    // A link, by its kind.
    #[cycle(lay)]
    pub fn link(
        src: &[u8],
        table: &[u32],
        fmt: &mut Formatter,
        queue: &mut Queue,
        out: &mut [u8],
        k: RecordNo,
        depth: u32,
    )
        ensures { Lays src table fmt queue out depth Rule.Link k }
    {
        if depth == 0 {
            fmt.refuse(Refusal::TreeDeep(k));
            return;
        }
        let kind = kind_at(table, k);
        match kind {
            bytes::EXPR_TRY => try_link(src, table, fmt, queue, out, k),
            bytes::EXPR_AWAIT => await_link(src, table, fmt, queue, out, k),
            bytes::EXPR_FIELD => field_link(src, table, fmt, queue, out, k),
            bytes::EXPR_CALL => Lay::exprs(src, table, fmt, queue, out, k, OPEN, CLOSE, depth - 1),
            bytes::EXPR_INDEX => {
                let mut p = records_of(table, k);
                open_index(src, table, fmt, queue, out, &mut p);
                let n = p.pump(table, fmt);
                Lay::expr(src, table, fmt, queue, out, n, false, depth - 1);
                close_index(src, table, fmt, queue, out, &mut p);
                p.left_over(table, fmt);
            }
            _ => fmt.refuse(Refusal::WrongKind(k)),
        }
    }
}
