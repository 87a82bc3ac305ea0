// What the program asks of a reader and of a lent engine: each makes one, lends it, and hands back what was left.
ghost use Rattle.std.specs.Prelude.{◌≡◌};
ghost use Rattle.tree.specs.Table.{tree_of};
ghost use Rattle.tree.specs.Cursor.{child_of};
ghost use Rattle.entry.specs.Served.{Served, record_left};

use engine_mut::{Engine, record};
use entry::state::{State, Step};
use reader::Reader;
use tree::cursor::Cursor;
use tree::record::RecordNo;

// What a reader at this place passes over; the place is then the reader's.
pub fn passed(table: &[u32], place: &mut Cursor) -> Option<RecordNo>
    ensures found { result ≡ (child_of (tree_of table.now) place.old).found }
    ensures rest { place.new ≡ (child_of (tree_of table.now) place.old).rest }
{
    let mut r = Reader {
        table,
        place: *place,
    };
    let found = r.skip();
    *place = r.place;
    found
}

// One call record through an engine that has this state.
pub fn replayed(source: &[u8], tree: &[u8], out: &mut [u8], s: State, bytes: &[u8]) -> Step
    ensures { Served s result out.new (record_left source.now tree.now s out.old bytes.now) }
{
    let mut e = Engine { state: s };
    let answer = record(&mut e, source, tree, out, bytes);
    let state = e.state;
    Step { answer, state }
}
