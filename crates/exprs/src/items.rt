// Items, with the blocks or values that they hold: format.rs 136 to 203, 1441 to 1462, 1544 to 1573.
ghost use Rattle.exprs.specs.Rule.{Rule};
ghost use Rattle.exprs.specs.Lay.{Lays};

use crate::Lay;
use gaps::blocks::{asks_block, before_block, no_block};
use kinds::{Kind, bytes};
use lent::formatter::Formatter;
use lent::ring::Queue;
use meaning::answer::Refusal;
use parts::heads::item_head;
use parts::lone::no_item;
use parts::sorts::is_decl;
use paths::attribute::attributes;
use paths::modifier::modifiers;
use tree::record::RecordNo;
use tree::table::kind_at;
use walk::stream::records_of;

impl Lay {
    // Attributes, then the item itself.
    #[cycle(lay)]
    pub fn item(
        src: &[u8],
        table: &[u32],
        fmt: &mut Formatter,
        queue: &mut Queue,
        out: &mut [u8],
        k: RecordNo,
        depth: u32,
    )
        ensures { Lays src table fmt queue out depth Rule.Item k }
    {
        if depth == 0 {
            fmt.refuse(Refusal::TreeDeep(k));
            return;
        }
        let mut p = records_of(table, k);
        attributes(src, table, fmt, queue, out, &mut p);
        let n = p.pump(table, fmt);
        Lay::decl(src, table, fmt, queue, out, n, depth - 1);
        p.left_over(table, fmt);
    }

    // Modifiers, the head, then the value of a const, or a block, or neither.
    #[cycle(lay)]
    pub fn decl(
        src: &[u8],
        table: &[u32],
        fmt: &mut Formatter,
        queue: &mut Queue,
        out: &mut [u8],
        k: RecordNo,
        depth: u32,
    )
        ensures { Lays src table fmt queue out depth Rule.Decl k }
    {
        if depth == 0 {
            fmt.refuse(Refusal::TreeDeep(k));
            return;
        }
        let kind = kind_at(table, k);
        if is_decl(kind) {
            let mut p = records_of(table, k);
            modifiers(src, table, fmt, queue, out, &mut p);
            item_head(src, table, fmt, queue, out, &mut p, kind);
            if kind == bytes::ITEM_CONST {
                let n = p.pump(table, fmt);
                Lay::expr(src, table, fmt, queue, out, n, false, depth - 1);
                p.left_over(table, fmt);
                return;
            }
            if asks_block(table, &p, kind) {
                before_block(src, table, fmt, queue, out, kind);
                let n = p.expect(table, fmt, Kind::Block);
                Lay::block(src, table, fmt, queue, out, n, false, depth - 1);
                p.left_over(table, fmt);
                return;
            }
            no_block(src, table, fmt, queue, out, kind);
            p.left_over(table, fmt);
            return;
        }
        no_item(table, fmt, k);
    }
}
