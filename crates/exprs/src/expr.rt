// An expression, and its own node: format.rs 559 to 687.
ghost use Rattle.exprs.specs.Rule.{Rule, asked};
ghost use Rattle.lent.specs.Loans.{Made, script};
ghost use Rattle.exprs.specs.Lay.{flow, Lays, lay};

use crate::Lay;
use calls::comments;
use kinds::{Kind, bytes};
use lent::formatter::Formatter;
use lent::ring::Queue;
use meaning::answer::Refusal;
use meaning::call::Hint;
use parts::labels::before_expr;
use parts::lone::lone;
use parts::sorts::{is_lead, is_loop, is_range};
use parts::spaced::{between, expect_expr};
use tree::record::RecordNo;
use tree::table::kind_at;
use walk::stream::records_of;

impl Lay {
    // What may stand in front of it, then one node or token. In a group (871, 892) comments stand around both, and what is left over is
    // asked for behind them.
    #[cycle(lay)]
    pub fn expr(
        src: &[u8],
        table: &[u32],
        fmt: &mut Formatter,
        queue: &mut Queue,
        out: &mut [u8],
        k: RecordNo,
        grouped: bool,
        depth: u32,
    )
        ensures { Lays src table fmt queue out depth (asked grouped) k }
    {
        if depth == 0 {
            fmt.refuse(Refusal::TreeDeep(k));
            return;
        }
        let mut p = records_of(table, k);
        if grouped {
            comments(src, table, fmt, queue, out, Hint::Prefix);
            before_expr(src, table, fmt, queue, out, &mut p);
            let n = p.pump(table, fmt);
            Lay::inner(src, table, fmt, queue, out, n, depth - 1);
            comments(src, table, fmt, queue, out, Hint::Suffix);
            p.left_over(table, fmt);
            return;
        }
        before_expr(src, table, fmt, queue, out, &mut p);
        let n = p.pump(table, fmt);
        Lay::inner(src, table, fmt, queue, out, n, depth - 1);
        p.left_over(table, fmt);
    }

    // `inner_expr`: the node's kind names the rule.
    #[cycle(lay)]
    pub fn inner(
        src: &[u8],
        table: &[u32],
        fmt: &mut Formatter,
        queue: &mut Queue,
        out: &mut [u8],
        k: RecordNo,
        depth: u32,
    )
        ensures { Lays src table fmt queue out depth Rule.Inner k }
    {
        if depth == 0 {
            fmt.refuse(Refusal::TreeDeep(k));
            return;
        }
        let kind = kind_at(table, k);
        match kind {
            bytes::BLOCK => Lay::block(src, table, fmt, queue, out, k, true, depth),
            bytes::EXPR_CHAIN => Lay::chain(src, table, fmt, queue, out, k, depth - 1),
            bytes::EXPR_ARRAY => Lay::exprs(
                src,
                table,
                fmt,
                queue,
                out,
                k,
                bytes::BRACKET_OPEN,
                bytes::BRACKET_CLOSE,
                depth - 1,
            ),
            bytes::EXPR_TUPLE => Lay::tuple(src, table, fmt, queue, out, k, depth - 1),
            bytes::EXPR_OBJECT => Lay::object(src, table, fmt, queue, out, k, depth - 1),
            bytes::EXPR_BINARY => Lay::binary(src, table, fmt, queue, out, k, depth - 1),
            bytes::EXPR_GROUP => Lay::group(src, table, fmt, queue, out, k, false, depth - 1),
            bytes::EXPR_EMPTY_GROUP => Lay::group(src, table, fmt, queue, out, k, true, depth - 1),
            _ => Lay::flow(src, table, fmt, queue, out, k, kind, depth - 1),
        }
    }

    // The rest of them: ranges, control flow, assignments, and what leads to no expression.
    #[cycle(lay)]
    pub fn flow(
        src: &[u8],
        table: &[u32],
        fmt: &mut Formatter,
        queue: &mut Queue,
        out: &mut [u8],
        k: RecordNo,
        kind: u8,
        depth: u32,
    )
        ensures { Made src table fmt queue out (flow (script src table) (lay (script src table) depth) kind k) }
    {
        if is_range(kind) {
            Lay::range(src, table, fmt, queue, out, k, depth);
            return;
        }
        if is_loop(kind) {
            Lay::loops(src, table, fmt, queue, out, k, depth);
            return;
        }
        if is_lead(kind) {
            Lay::lead(src, table, fmt, queue, out, k, depth);
            return;
        }
        match kind {
            bytes::EXPR_IF => Lay::if_(src, table, fmt, queue, out, k, depth),
            bytes::EXPR_SELECT => Lay::select(src, table, fmt, queue, out, k, depth),
            bytes::EXPR_MATCH => Lay::match_(src, table, fmt, queue, out, k, depth),
            bytes::EXPR_ASSIGN => {
                let mut p = records_of(table, k);
                let n = expect_expr(table, fmt, &mut p);
                Lay::expr(src, table, fmt, queue, out, n, false, depth);
                between(src, table, fmt, queue, out, &mut p, Kind::Eq);
                let n = expect_expr(table, fmt, &mut p);
                Lay::expr(src, table, fmt, queue, out, n, false, depth);
                p.left_over(table, fmt);
            }
            _ => lone(src, table, fmt, queue, out, k),
        }
    }
}
