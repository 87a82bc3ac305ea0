// What stands in uses and leads to no group.
ghost use Rattle.std.specs.Prelude.{◌≡◌, not, ℕ};
ghost use Rattle.kinds.specs.declared.Kind.{Kind};
ghost use Rattle.walk.specs.Stream.{tree, records_of, next_is, stream_here};
ghost use Rattle.walk.specs.Flow.{Walked, expect_byte, is};
ghost use Rattle.uses.specs.Use.{how_many, is_one, braced, as_name};

use calls::{ignore, write_owned, ws};
use kinds::{Kind, KindByte, bytes};
use lent::formatter::Formatter;
use lent::ring::Queue;
use tree::record::RecordNo;
use tree::table::kind_at;
use walk::stream::{Stream, records_of};
use walk::tokens::{any, spaced_if};

// Whether one of the records of node k is a path, and no more.
pub fn is_single(table: &[u32], k: RecordNo) -> bool
    ensures { result ≡ is_one (how_many (is (tree table) Kind.ItemUsePath) (records_of (tree table) k).left) }
{
    let mut p = records_of(table, k);
    let mut found = false;
    while p.has_next(table) {
        if p.next_is(table, Kind::ItemUsePath) {
            if found {
                return false;
            }
            found = true;
        }
        p.take(table);
    }
    found
}

// A brace: around one path it is passed over.
pub fn brace<K: KindByte>(
    src: &[u8],
    table: &[u32],
    fmt: &mut Formatter,
    queue: &mut Queue,
    out: &mut [u8],
    p: &mut Stream,
    kind: K,
    single: bool,
)
    ensures { Walked src table fmt queue out p (expect_byte (tree table) (K.as_byte kind) (braced single)) }
{
    let k = p.expect(table, fmt, kind);
    if single {
        ignore(src, table, fmt, queue, out, k);
        return;
    }
    write_owned(src, table, fmt, queue, out, k);
}

// A record that is not `as` is next.
pub fn before_as(table: &[u32], p: &Stream) -> bool
    ensures { result ≡ next_is (λ (k : ℕ). not (is (tree table) Kind.As k)) (stream_here table p) }
{
    match p.peek(table) {
        Some(k) => kind_at(table, k) != bytes::KW_AS,
        None => false,
    }
}

// `as` and a name, or `as` alone; what stands behind is left over.
pub fn as_name(
    src: &[u8],
    table: &[u32],
    fmt: &mut Formatter,
    queue: &mut Queue,
    out: &mut [u8],
    p: &mut Stream,
)
    ensures { Walked src table fmt queue out p (as_name (tree table)) }
{
    if p.next_is(table, Kind::As) {
        ws(src, table, fmt, queue, out);
        any(src, table, fmt, queue, out, p);
        spaced_if(src, table, fmt, queue, out, p, Kind::Ident);
    }
}
