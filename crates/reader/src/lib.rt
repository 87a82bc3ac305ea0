// One reader holds the lent tree with its place: the decoded table and a cursor over it. Each method calls the cursor's method of `tree`, so
// none has work of its own.
#![tactic(auto)]

ghost use Rattle.std.specs.Prelude.{◌≡◌};
ghost use Rattle.tree.specs.Table.{tree_of};
ghost use Rattle.tree.specs.Cursor.{peek_of, take_of, child_of};
ghost use Rattle.reader.specs.Moved.{Moved};

use tree::cursor::Cursor;
use tree::record::RecordNo;

#[derive(Clone, Copy)]
pub struct Reader<'a> {
    pub table: &'a [u32],
    pub place: Cursor,
}

impl<'a> Reader<'a> {
    // The next record, behind white space and comments; the reader stays.
    pub fn peek(self) -> Option<RecordNo>
        ensures { result ≡ peek_of (tree_of self.entry.table.now) self.entry.place }
    {
        self.place.peek(self.table)
    }

    // Takes the next record, behind white space and comments. No `Iterator`: a walk peeks and skips in between, and no loop goes over a reader.
    pub fn next(&mut self) -> Option<RecordNo>
        ensures { Moved self.old result self.new (take_of (tree_of self.old.table.now) self.old.place) }
    {
        self.place.take(self.table)
    }

    // Passes over the next record, white space and comments too, and says which it was.
    pub fn skip(&mut self) -> Option<RecordNo>
        ensures { Moved self.old result self.new (child_of (tree_of self.old.table.now) self.old.place) }
    {
        self.place.children(self.table)
    }
}
