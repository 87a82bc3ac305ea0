// Conditions, and what depends on them: format.rs 908 to 978, 1286 to 1303.
ghost use Rattle.exprs.specs.Rule.{Rule};
ghost use Rattle.exprs.specs.Control.{condition, tail, ifs, loops};
ghost use Rattle.exprs.specs.Lay.{Lays, Parses, Steps};

use crate::Lay;
use calls::{lit, write_owned, ws};
use kinds::{Kind, bytes};
use lent::formatter::Formatter;
use lent::ring::Queue;
use meaning::answer::Refusal;
use meaning::call::Literal;
use parts::args::for_in;
use parts::heads::let_head;
use parts::spaced::{between, expect_expr, word};
use tree::record::RecordNo;
use tree::table::kind_at;
use walk::stream::{Stream, records_of};

impl Lay {
    // A word, then a condition that is a node of its own or an expression, and a space.
    #[cycle(lay)]
    pub fn cond(
        src: &[u8],
        table: &[u32],
        fmt: &mut Formatter,
        queue: &mut Queue,
        out: &mut [u8],
        p: &mut Stream,
        kind: u8,
        depth: u32,
    )
        ensures { Steps src table fmt queue out p depth (λ x lay. condition x lay kind) }
    {
        word(src, table, fmt, queue, out, p, kind);
        if p.next_is(table, Kind::Condition) {
            let n = p.pump(table, fmt);
            Lay::let_(src, table, fmt, queue, out, n, false, depth);
            ws(src, table, fmt, queue, out);
            return;
        }
        let n = expect_expr(table, fmt, p);
        Lay::expr(src, table, fmt, queue, out, n, false, depth);
        ws(src, table, fmt, queue, out);
    }

    // `let a = b`: `condition`, or `local` with what stands in front of it.
    #[cycle(lay)]
    pub fn let_(
        src: &[u8],
        table: &[u32],
        fmt: &mut Formatter,
        queue: &mut Queue,
        out: &mut [u8],
        k: RecordNo,
        local: bool,
        depth: u32,
    )
        ensures { Lays src table fmt queue out depth (Rule.Let local) k }
    {
        if depth == 0 {
            fmt.refuse(Refusal::TreeDeep(k));
            return;
        }
        let mut p = records_of(table, k);
        let_head(src, table, fmt, queue, out, &mut p, local);
        let n = expect_expr(table, fmt, &mut p);
        Lay::expr(src, table, fmt, queue, out, n, false, depth - 1);
        p.left_over(table, fmt);
    }

    // `if`, and whatever stands behind its block.
    #[cycle(lay)]
    pub fn if_(
        src: &[u8],
        table: &[u32],
        fmt: &mut Formatter,
        queue: &mut Queue,
        out: &mut [u8],
        k: RecordNo,
        depth: u32,
    )
        ensures { Parses src table fmt queue out depth ifs k }
    {
        let mut p = records_of(table, k);
        Lay::cond(src, table, fmt, queue, out, &mut p, bytes::KW_IF, depth);
        if p.next_is(table, Kind::Block) {
            let n = p.pump(table, fmt);
            Lay::block(src, table, fmt, queue, out, n, false, depth);
            Lay::tail(src, table, fmt, queue, out, &mut p, depth);
            p.left_over(table, fmt);
            return;
        }
        lit(src, table, fmt, queue, out, Literal::Braces);
        Lay::tail(src, table, fmt, queue, out, &mut p, depth);
        p.left_over(table, fmt);
    }

    // What stands behind the block of an `if`.
    #[cycle(lay)]
    pub fn tail(
        src: &[u8],
        table: &[u32],
        fmt: &mut Formatter,
        queue: &mut Queue,
        out: &mut [u8],
        p: &mut Stream,
        depth: u32,
    )
        ensures { Steps src table fmt queue out p depth tail }
    {
        while p.has_next(table) {
            let n = p.pump(table, fmt);
            Lay::else_(src, table, fmt, queue, out, n, depth);
        }
    }

    // `else`, or `else if`; any other node is written whole.
    #[cycle(lay)]
    pub fn else_(
        src: &[u8],
        table: &[u32],
        fmt: &mut Formatter,
        queue: &mut Queue,
        out: &mut [u8],
        k: RecordNo,
        depth: u32,
    )
        ensures { Lays src table fmt queue out depth Rule.Else k }
    {
        if depth == 0 {
            fmt.refuse(Refusal::TreeDeep(k));
            return;
        }
        let kind = kind_at(table, k);
        match kind {
            bytes::EXPR_ELSE => {
                let mut p = records_of(table, k);
                between(src, table, fmt, queue, out, &mut p, Kind::Else);
                let n = p.expect(table, fmt, Kind::Block);
                Lay::block(src, table, fmt, queue, out, n, false, depth - 1);
                p.left_over(table, fmt);
            }
            bytes::EXPR_ELSE_IF => {
                let mut p = records_of(table, k);
                between(src, table, fmt, queue, out, &mut p, Kind::Else);
                Lay::cond(src, table, fmt, queue, out, &mut p, bytes::KW_IF, depth - 1);
                let n = p.expect(table, fmt, Kind::Block);
                Lay::block(src, table, fmt, queue, out, n, false, depth - 1);
                p.left_over(table, fmt);
            }
            _ => write_owned(src, table, fmt, queue, out, k),
        }
    }

    // `while`, `loop`, `for`.
    #[cycle(lay)]
    pub fn loops(
        src: &[u8],
        table: &[u32],
        fmt: &mut Formatter,
        queue: &mut Queue,
        out: &mut [u8],
        k: RecordNo,
        depth: u32,
    )
        ensures { Parses src table fmt queue out depth loops k }
    {
        let kind = kind_at(table, k);
        let mut p = records_of(table, k);
        match kind {
            bytes::EXPR_WHILE => {
                Lay::cond(src, table, fmt, queue, out, &mut p, bytes::KW_WHILE, depth);
                let n = p.expect(table, fmt, Kind::Block);
                Lay::block(src, table, fmt, queue, out, n, false, depth);
                p.left_over(table, fmt);
            }
            bytes::EXPR_LOOP => {
                word(src, table, fmt, queue, out, &mut p, Kind::Loop);
                let n = p.expect(table, fmt, Kind::Block);
                Lay::block(src, table, fmt, queue, out, n, false, depth);
                p.left_over(table, fmt);
            }
            _ => {
                for_in(src, table, fmt, queue, out, &mut p);
                let n = p.pump(table, fmt);
                Lay::expr(src, table, fmt, queue, out, n, false, depth);
                ws(src, table, fmt, queue, out);
                let n = p.expect(table, fmt, Kind::Block);
                Lay::block(src, table, fmt, queue, out, n, false, depth);
                p.left_over(table, fmt);
            }
        }
    }
}
