// Operators, ranges, groups, closures and jumps: format.rs 650 to 662, 774 to 781, 855 to 906, 980 to 1027, 1137 to 1179.
ghost use Rattle.exprs.specs.Operand.{binary, range, group, lead};
ghost use Rattle.exprs.specs.Lay.{Parses};

use crate::Lay;
use crate::chain::{CLOSE, OPEN};
use calls::comments;
use gaps::statements::group_end;
use kinds::{Kind, bytes};
use lent::formatter::Formatter;
use lent::ring::Queue;
use meaning::call::Hint;
use parts::leads::{before_value, lead_head, lead_takes, no_value};
use parts::sorts::is_prefix;
use parts::spaced::{between, next_expr};
use tree::record::RecordNo;
use tree::table::kind_at;
use walk::stream::records_of;
use walk::tokens::any;

impl Lay {
    // `a + b + c`.
    #[cycle(lay)]
    pub fn binary(
        src: &[u8],
        table: &[u32],
        fmt: &mut Formatter,
        queue: &mut Queue,
        out: &mut [u8],
        k: RecordNo,
        depth: u32,
    )
        ensures { Parses src table fmt queue out depth binary k }
    {
        let mut p = records_of(table, k);
        let n = p.pump(table, fmt);
        Lay::inner(src, table, fmt, queue, out, n, depth);
        while p.next_is(table, Kind::ExprOperator) {
            between(src, table, fmt, queue, out, &mut p, Kind::ExprOperator);
            let n = p.pump(table, fmt);
            Lay::inner(src, table, fmt, queue, out, n, depth);
        }
        p.left_over(table, fmt);
    }

    // An operator with an operand behind it, before it, or both: `expr_unary` and the ranges.
    #[cycle(lay)]
    pub fn range(
        src: &[u8],
        table: &[u32],
        fmt: &mut Formatter,
        queue: &mut Queue,
        out: &mut [u8],
        k: RecordNo,
        depth: u32,
    )
        ensures { Parses src table fmt queue out depth range k }
    {
        let kind = kind_at(table, k);
        let mut p = records_of(table, k);
        if is_prefix(kind) {
            any(src, table, fmt, queue, out, &mut p);
            let n = p.pump(table, fmt);
            Lay::inner(src, table, fmt, queue, out, n, depth);
            p.left_over(table, fmt);
            return;
        }
        let n = p.pump(table, fmt);
        Lay::inner(src, table, fmt, queue, out, n, depth);
        any(src, table, fmt, queue, out, &mut p);
        if kind == bytes::RANGE_FROM {
            p.left_over(table, fmt);
            return;
        }
        let n = p.pump(table, fmt);
        Lay::inner(src, table, fmt, queue, out, n, depth);
        p.left_over(table, fmt);
    }

    // An expression or none, in parentheses or between the marks of an empty group.
    #[cycle(lay)]
    pub fn group(
        src: &[u8],
        table: &[u32],
        fmt: &mut Formatter,
        queue: &mut Queue,
        out: &mut [u8],
        k: RecordNo,
        empty: bool,
        depth: u32,
    )
        ensures { Parses src table fmt queue out depth (λ x lay. group x lay empty) k }
    {
        let mut p = records_of(table, k);
        group_end(src, table, fmt, queue, out, &mut p, empty, OPEN);
        if next_expr(table, &p) {
            let n = p.pump(table, fmt);
            Lay::expr(src, table, fmt, queue, out, n, true, depth);
            group_end(src, table, fmt, queue, out, &mut p, empty, CLOSE);
            p.left_over(table, fmt);
            return;
        }
        comments(src, table, fmt, queue, out, Hint::Infix);
        group_end(src, table, fmt, queue, out, &mut p, empty, CLOSE);
        p.left_over(table, fmt);
    }

    // A closure or a jump: `|a| b`, `break`, `continue`, `return`, `yield`.
    #[cycle(lay)]
    pub fn lead(
        src: &[u8],
        table: &[u32],
        fmt: &mut Formatter,
        queue: &mut Queue,
        out: &mut [u8],
        k: RecordNo,
        depth: u32,
    )
        ensures { Parses src table fmt queue out depth lead k }
    {
        let kind = kind_at(table, k);
        let mut p = records_of(table, k);
        lead_head(src, table, fmt, queue, out, &mut p, kind);
        if lead_takes(table, &p, kind) {
            before_value(src, table, fmt, queue, out, kind);
            let n = p.pump(table, fmt);
            Lay::expr(src, table, fmt, queue, out, n, false, depth);
            p.left_over(table, fmt);
            return;
        }
        no_value(src, table, fmt, queue, out, kind);
        p.left_over(table, fmt);
    }
}
