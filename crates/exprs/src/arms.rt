// `select` and `match`: format.rs 1029 to 1135.
ghost use Rattle.exprs.specs.Rule.{Rule};
ghost use Rattle.exprs.specs.Arms.{guard, matches, select};
ghost use Rattle.exprs.specs.Lay.{Lays, Parses, Steps};

use crate::Lay;
use bodies::lines::before_line;
use calls::lit;
use gaps::arms::{
    arm_comma, close_arms, close_select, is_block_arm, open_arm, open_match, open_select,
};
use kinds::Kind;
use lent::formatter::Formatter;
use lent::ring::Queue;
use meaning::answer::Refusal;
use meaning::call::Literal;
use parts::args::{arm_pat, guard_kind};
use parts::spaced::{between, take_guard, word};
use tree::record::RecordNo;
use walk::stream::{Stream, records_of};
use walk::tokens::token;

impl Lay {
    // A select without a brace gets both.
    #[cycle(lay)]
    pub fn select(
        src: &[u8],
        table: &[u32],
        fmt: &mut Formatter,
        queue: &mut Queue,
        out: &mut [u8],
        k: RecordNo,
        depth: u32,
    )
        ensures { Parses src table fmt queue out depth select k }
    {
        let mut p = records_of(table, k);
        word(src, table, fmt, queue, out, &mut p, Kind::Select);
        if p.next_is(table, Kind::OpenBrace) {
            open_select(src, table, fmt, queue, out, &mut p);
            while p.next_is(table, Kind::ExprSelectArm) {
                let n = p.pump(table, fmt);
                before_line(src, table, fmt, queue, out);
                Lay::arm(src, table, fmt, queue, out, n, false, depth);
                arm_comma(src, table, fmt, queue, out, &mut p, is_block_arm(table, n));
            }
            close_select(src, table, fmt, queue, out, &mut p);
            p.left_over(table, fmt);
            return;
        }
        lit(src, table, fmt, queue, out, Literal::Braces);
        p.left_over(table, fmt);
    }

    // An arm: in a select `default` or a pattern, then a value or none; in a match a pattern, then a guard or none; `=>` and its body.
    #[cycle(lay)]
    pub fn arm(
        src: &[u8],
        table: &[u32],
        fmt: &mut Formatter,
        queue: &mut Queue,
        out: &mut [u8],
        k: RecordNo,
        in_match: bool,
        depth: u32,
    )
        ensures { Lays src table fmt queue out depth (Rule.Arm in_match) k }
    {
        if depth == 0 {
            fmt.refuse(Refusal::TreeDeep(k));
            return;
        }
        let mut p = records_of(table, k);
        arm_pat(src, table, fmt, queue, out, &mut p, in_match);
        let kind = guard_kind(in_match);
        Lay::guard(src, table, fmt, queue, out, &mut p, kind, depth - 1);
        between(src, table, fmt, queue, out, &mut p, Kind::Rocket);
        let n = p.pump(table, fmt);
        Lay::expr(src, table, fmt, queue, out, n, false, depth - 1);
        p.left_over(table, fmt);
    }

    // What may stand in front of `=>`: the value of a select arm behind its `=`, the guard of a match arm behind its `if`.
    #[cycle(lay)]
    pub fn guard(
        src: &[u8],
        table: &[u32],
        fmt: &mut Formatter,
        queue: &mut Queue,
        out: &mut [u8],
        p: &mut Stream,
        kind: u8,
        depth: u32,
    )
        ensures { Steps src table fmt queue out p depth (λ x lay. guard x lay kind) }
    {
        if p.next_is(table, kind) {
            between(src, table, fmt, queue, out, p, kind);
            let n = take_guard(table, fmt, p, kind);
            Lay::expr(src, table, fmt, queue, out, n, false, depth);
        }
    }

    // The subject, then arms in braces.
    #[cycle(lay)]
    pub fn match_(
        src: &[u8],
        table: &[u32],
        fmt: &mut Formatter,
        queue: &mut Queue,
        out: &mut [u8],
        k: RecordNo,
        depth: u32,
    )
        ensures { Parses src table fmt queue out depth matches k }
    {
        let mut p = records_of(table, k);
        word(src, table, fmt, queue, out, &mut p, Kind::Match);
        let n = p.pump(table, fmt);
        Lay::expr(src, table, fmt, queue, out, n, false, depth);
        open_match(src, table, fmt, queue, out, &mut p);
        let mut seen = false;
        while p.next_is(table, Kind::ExprMatchArm) {
            let n = p.pump(table, fmt);
            open_arm(src, table, fmt, queue, out, seen);
            Lay::arm(src, table, fmt, queue, out, n, true, depth);
            arm_comma(src, table, fmt, queue, out, &mut p, is_block_arm(table, n));
            seen = true;
        }
        close_arms(src, table, fmt, queue, out, seen);
        token(src, table, fmt, queue, out, &mut p, Kind::CloseBrace);
        p.left_over(table, fmt);
    }
}
