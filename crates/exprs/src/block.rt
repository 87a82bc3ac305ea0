// Blocks and their statements: format.rs 205 to 236, 1601 to 1674.
ghost use Rattle.exprs.specs.Rule.{Rule};
ghost use Rattle.exprs.specs.Block.{stmt, stmts};
ghost use Rattle.lent.specs.Loans.{Made, script};
ghost use Rattle.exprs.specs.Lay.{Lays, Steps, lay};

use crate::Lay;
use calls::comments;
use gaps::statements::{enter, gap, is_spread, leave, semicolon};
use kinds::Kind;
use lent::formatter::Formatter;
use lent::ring::Queue;
use meaning::answer::Refusal;
use meaning::call::Hint;
use parts::sorts::{is_item, is_let};
use paths::attribute::inner_attributes;
use tree::record::RecordNo;
use tree::table::kind_at;
use walk::stream::{Stream, records_of};
use walk::tokens::token;

impl Lay {
    // `block_with`: braces around a body.
    #[cycle(lay)]
    pub fn block(
        src: &[u8],
        table: &[u32],
        fmt: &mut Formatter,
        queue: &mut Queue,
        out: &mut [u8],
        k: RecordNo,
        compact: bool,
        depth: u32,
    )
        ensures { Lays src table fmt queue out depth (Rule.Block compact) k }
    {
        if depth == 0 {
            fmt.refuse(Refusal::TreeDeep(k));
            return;
        }
        let mut p = records_of(table, k);
        token(src, table, fmt, queue, out, &mut p, Kind::OpenBrace);
        let n = p.expect(table, fmt, Kind::BlockBody);
        Lay::body(src, table, fmt, queue, out, n, compact, depth - 1);
        token(src, table, fmt, queue, out, &mut p, Kind::CloseBrace);
        p.left_over(table, fmt);
    }

    // A compact one that has no statement stays on its line.
    #[cycle(lay)]
    pub fn body(
        src: &[u8],
        table: &[u32],
        fmt: &mut Formatter,
        queue: &mut Queue,
        out: &mut [u8],
        k: RecordNo,
        compact: bool,
        depth: u32,
    )
        ensures { Lays src table fmt queue out depth (Rule.Body compact) k }
    {
        if depth == 0 {
            fmt.refuse(Refusal::TreeDeep(k));
            return;
        }
        let mut p = records_of(table, k);
        let spread = is_spread(table, &p, compact);
        enter(src, table, fmt, queue, out, spread);
        Lay::stmts(src, table, fmt, queue, out, &mut p, depth - 1);
        leave(src, table, fmt, queue, out, spread);
        p.left_over(table, fmt);
    }

    // `block_content`: inner attributes, then statements with their semicolons.
    #[cycle(lay)]
    pub fn stmts(
        src: &[u8],
        table: &[u32],
        fmt: &mut Formatter,
        queue: &mut Queue,
        out: &mut [u8],
        p: &mut Stream,
        depth: u32,
    )
        ensures { Steps src table fmt queue out p depth stmts }
    {
        inner_attributes(src, table, fmt, queue, out, p);
        let mut last: u8 = 0;
        while p.has_next(table) {
            let n = p.pump(table, fmt);
            let kind = kind_at(table, n);
            gap(src, table, fmt, queue, out, last, kind);
            comments(src, table, fmt, queue, out, Hint::Line);
            Lay::stmt(src, table, fmt, queue, out, n, kind, depth);
            semicolon(src, table, fmt, queue, out, p, kind);
            last = kind;
        }
    }

    // A statement, by its kind.
    #[cycle(lay)]
    pub fn stmt(
        src: &[u8],
        table: &[u32],
        fmt: &mut Formatter,
        queue: &mut Queue,
        out: &mut [u8],
        k: RecordNo,
        kind: u8,
        depth: u32,
    )
        ensures { Made src table fmt queue out (stmt (lay (script src table) depth) kind k) }
    {
        if is_item(kind) {
            Lay::item(src, table, fmt, queue, out, k, depth);
            return;
        }
        if is_let(kind) {
            Lay::let_(src, table, fmt, queue, out, k, true, depth);
            return;
        }
        Lay::expr(src, table, fmt, queue, out, k, false, depth);
    }
}
