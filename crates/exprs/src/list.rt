// Lists of expressions: format.rs 387 to 418, 783 to 845.
ghost use Rattle.exprs.specs.List.{exprs, loose, tuple};
ghost use Rattle.exprs.specs.Lay.{Parses, Steps};

use crate::Lay;
use calls::comments;
use gaps::lines::{close_lines, end_entry, open_lines};
use kinds::Kind;
use lent::formatter::Formatter;
use lent::ring::Queue;
use loose::reason::goes_loose;
use meaning::call::Hint;
use parts::spaced::next_expr;
use patterns::pat_parts::close_tuple;
use steps::items::{Few, before_item, behind_item, close_list};
use steps::remaining::Remaining;
use tree::cursor::children_of;
use tree::record::RecordNo;
use walk::stream::{Stream, records_of};
use walk::tokens::token;

impl Lay {
    // Between two tokens: `exprs_loose`, or `exprs_compact`, all on one line.
    #[cycle(lay)]
    pub fn exprs(
        src: &[u8],
        table: &[u32],
        fmt: &mut Formatter,
        queue: &mut Queue,
        out: &mut [u8],
        k: RecordNo,
        opening: u8,
        closing: u8,
        depth: u32,
    )
        ensures { Parses src table fmt queue out depth (λ x lay. exprs x lay opening closing) k }
    {
        let mut p = records_of(table, k);
        let loose = goes_loose(src, table, k, children_of(table, k).at, false);
        token(src, table, fmt, queue, out, &mut p, opening);
        if loose {
            Lay::loose(src, table, fmt, queue, out, &mut p, depth);
            token(src, table, fmt, queue, out, &mut p, closing);
            p.left_over(table, fmt);
            return;
        }
        let mut comma = Remaining::Fresh;
        while next_expr(table, &p) {
            before_item(src, table, fmt, queue, out, comma);
            let n = p.pump(table, fmt);
            Lay::expr(src, table, fmt, queue, out, n, false, depth);
            comma = behind_item(src, table, fmt, queue, out, &mut p);
        }
        close_list(src, table, fmt, queue, out, comma);
        token(src, table, fmt, queue, out, &mut p, closing);
        p.left_over(table, fmt);
    }

    // `exprs_loose`: each on a line of its own.
    #[cycle(lay)]
    pub fn loose(
        src: &[u8],
        table: &[u32],
        fmt: &mut Formatter,
        queue: &mut Queue,
        out: &mut [u8],
        p: &mut Stream,
        depth: u32,
    )
        ensures { Steps src table fmt queue out p depth loose }
    {
        open_lines(src, table, fmt, queue, out);
        while next_expr(table, p) {
            let n = p.pump(table, fmt);
            comments(src, table, fmt, queue, out, Hint::Line);
            Lay::expr(src, table, fmt, queue, out, n, false, depth);
            end_entry(src, table, fmt, queue, out, p);
        }
        close_lines(src, table, fmt, queue, out);
    }

    // `(a, b)`; the comma of a single one stays.
    #[cycle(lay)]
    pub fn tuple(
        src: &[u8],
        table: &[u32],
        fmt: &mut Formatter,
        queue: &mut Queue,
        out: &mut [u8],
        k: RecordNo,
        depth: u32,
    )
        ensures { Parses src table fmt queue out depth tuple k }
    {
        let mut p = records_of(table, k);
        token(src, table, fmt, queue, out, &mut p, Kind::OpenParenthesis);
        let mut count = Few::Zero;
        let mut comma = Remaining::Fresh;
        while next_expr(table, &p) {
            before_item(src, table, fmt, queue, out, comma);
            let n = p.pump(table, fmt);
            Lay::expr(src, table, fmt, queue, out, n, false, depth);
            comma = behind_item(src, table, fmt, queue, out, &mut p);
            count = count.more();
        }
        close_tuple(src, table, fmt, queue, out, comma, count, true);
        token(src, table, fmt, queue, out, &mut p, Kind::CloseParenthesis);
        p.left_over(table, fmt);
    }
}
