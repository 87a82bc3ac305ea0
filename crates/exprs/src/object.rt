// Objects: format.rs 420 to 505.
ghost use Rattle.exprs.specs.List.{object, rows, pair};
ghost use Rattle.exprs.specs.Lay.{Parses, Steps};

use crate::Lay;
use calls::ws;
use gaps::lines::{close_keys, end_entry, key_line, next_key, open_lines};
use kinds::Kind;
use lent::formatter::Formatter;
use lent::ring::Queue;
use loose::reason::goes_loose;
use patterns::pat_parts::{close_object, object_name};
use steps::remaining::{Mark, Remaining, put_remaining, take_remaining};
use tree::cursor::behind;
use tree::record::RecordNo;
use walk::stream::{Stream, records_of};
use walk::tokens::{any, token};

impl Lay {
    // Keys, each alone or with a value: `expr_object_loose`, or `expr_object_compact`, all on one line. Only what stands behind the name
    // decides.
    #[cycle(lay)]
    pub fn object(
        src: &[u8],
        table: &[u32],
        fmt: &mut Formatter,
        queue: &mut Queue,
        out: &mut [u8],
        k: RecordNo,
        depth: u32,
    )
        ensures { Parses src table fmt queue out depth object k }
    {
        let mut p = records_of(table, k);
        // no Option: `goes_loose` counts from the record behind it; where there is none, definition `behind_name` has the tree's end
        let name = p.peek(table).unwrap_or(RecordNo(8192));
        let loose = goes_loose(src, table, k, behind(table, name), true);
        object_name(src, table, fmt, queue, out, &mut p);
        token(src, table, fmt, queue, out, &mut p, Kind::OpenBrace);
        if loose {
            Lay::rows(src, table, fmt, queue, out, &mut p, depth);
            p.left_over(table, fmt);
            return;
        }
        let mut comma = Remaining::Fresh;
        while p.next_is(table, Kind::ObjectKey) {
            next_key(src, table, fmt, queue, out, &mut p, comma);
            Lay::pair(src, table, fmt, queue, out, &mut p, depth);
            comma = take_remaining(table, fmt, &mut p, Mark::Comma);
        }
        close_object(src, table, fmt, queue, out, comma);
        put_remaining(src, table, fmt, queue, out, &mut p, Mark::CloseBrace);
        p.left_over(table, fmt);
    }

    // `expr_object_loose`: each key on a line of its own.
    #[cycle(lay)]
    pub fn rows(
        src: &[u8],
        table: &[u32],
        fmt: &mut Formatter,
        queue: &mut Queue,
        out: &mut [u8],
        p: &mut Stream,
        depth: u32,
    )
        ensures { Steps src table fmt queue out p depth rows }
    {
        open_lines(src, table, fmt, queue, out);
        while p.next_is(table, Kind::ObjectKey) {
            key_line(src, table, fmt, queue, out, p);
            Lay::pair(src, table, fmt, queue, out, p, depth);
            end_entry(src, table, fmt, queue, out, p);
        }
        close_keys(src, table, fmt, queue, out, p);
    }

    // A colon and a value behind a key.
    #[cycle(lay)]
    pub fn pair(
        src: &[u8],
        table: &[u32],
        fmt: &mut Formatter,
        queue: &mut Queue,
        out: &mut [u8],
        p: &mut Stream,
        depth: u32,
    )
        ensures { Steps src table fmt queue out p depth pair }
    {
        if p.next_is(table, Kind::Colon) {
            any(src, table, fmt, queue, out, p);
            ws(src, table, fmt, queue, out);
            let n = p.pump(table, fmt);
            Lay::expr(src, table, fmt, queue, out, n, false, depth);
        }
    }
}
