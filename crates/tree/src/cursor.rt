// The cursor over siblings: a record number, and the number behind the last.
ghost use Rattle.std.specs.Prelude.{◌≡◌};
ghost use Rattle.tree.specs.Table.{tree_of, node_of};
ghost use Rattle.tree.specs.Cursor.{cursor_of, behind, children_of, top_of, passes, first_of, peek_of, take_of, child_of, eof_of};

use crate::record::RecordNo;
use crate::table::{kind_at, node, size};

// The records from `at` up to, not including, `end`.
#[derive(Clone, Copy)]
pub struct Cursor {
    pub at: RecordNo,
    pub end: RecordNo,
}

// The first record behind k and all below it; where there is none, the number of records.
pub fn behind(table: &[u32], k: RecordNo) -> RecordNo
    ensures { result.0 ≡ behind (tree_of table.now) k.0 }
{
    let n = size(table).0;
    let below = node(table, k).below;
    let to = (k.0 as u64) + 1 + (below as u64);
    RecordNo(to.min(n as u64) as u32)
}

// All records of a tree of n.
pub fn top(n: RecordNo) -> Cursor
    ensures { result ≡ top_of n.0 }
{
    Cursor {
        at: RecordNo(0),
        end: n,
    }
}

// The children of k.
pub fn children_of(table: &[u32], k: RecordNo) -> Cursor
    ensures { result ≡ children_of (tree_of table.now) k.0 }
{
    Cursor {
        at: RecordNo(k.0.saturating_add(1).min(size(table).0)),
        end: behind(table, k),
    }
}

// The first record below k.
pub fn below(table: &[u32], k: RecordNo) -> Option<RecordNo>
    ensures { result ≡ first_of (tree_of table.now) (children_of (tree_of table.now) k.0) }
{
    children_of(table, k).first(table)
}

// White space, a line comment or a block comment.
#[tactic(auto, unfolding(crate::specs::Cursor::passes))]
fn is_passed(table: &[u32], k: RecordNo) -> bool
    ensures { result ≡ passes (node_of (tree_of table.now) k.0) }
{
    kind_at(table, k) < 3
}

// From a record on and before `end`, the first that is passed over by no cursor.
pub fn kept_from(table: &[u32], from: RecordNo, end: RecordNo) -> Option<RecordNo>
    ensures { result ≡ peek_of (tree_of table.now) (cursor_of from.0 end.0) }
{
    let last = size(table).0.min(end.0);
    let mut at = from;
    // No `for`: the next place is behind all that lies below.
    while at.0 < last {
        if !is_passed(table, at) {
            return Some(at);
        }
        at = behind(table, at);
    }
    None
}

impl Cursor {
    // The first record left, white space and comments too.
    fn first(self, table: &[u32]) -> Option<RecordNo>
        ensures { result ≡ first_of (tree_of table.now) self }
    {
        let at = self.at;
        if at.0 < self.end.0 && at.0 < size(table).0 {
            return Some(at);
        }
        None
    }

    // The next record, behind white space and comments.
    pub fn peek(self, table: &[u32]) -> Option<RecordNo>
        ensures { result ≡ peek_of (tree_of table.now) self }
    {
        kept_from(table, self.at, self.end)
    }

    // Takes the next record, behind white space and comments, and all below it; where there is none, the cursor stays.
    pub fn take(&mut self, table: &[u32]) -> Option<RecordNo>
        ensures found { result ≡ (take_of (tree_of table.now) self.old).found }
        ensures rest { self.new ≡ (take_of (tree_of table.now) self.old).rest }
    {
        let k = self.peek(table)?;
        self.at = behind(table, k);
        Some(k)
    }

    // Takes the next record, white space and comments too: one after another, these are all the children left.
    pub fn children(&mut self, table: &[u32]) -> Option<RecordNo>
        ensures found { result ≡ (child_of (tree_of table.now) self.old).found }
        ensures rest { self.new ≡ (child_of (tree_of table.now) self.old).rest }
    {
        let k = self.first(table)?;
        self.at = behind(table, k);
        Some(k)
    }

    // Nothing is left but white space and comments.
    pub fn is_eof(self, table: &[u32]) -> bool
        ensures { result ≡ eof_of (tree_of table.now) self }
    {
        self.peek(table).is_none()
    }
}
