// The stream of a rule over its node's records, lent in place: `peek`, `eat`, `expect` and `pump` of the Rust's `Stream`. `expect` and `pump`
// give a record number where nothing may be, no Option: the step has refused then, behind a refusal no call does anything, and so no rule
// asks what was found.
ghost use Rattle.std.specs.Prelude.{◌≡◌, true, ℕ};
ghost use Rattle.lent.specs.Loans.{Refused};
ghost use Rattle.walk.specs.Stream.{is_byte, next_is, take_if, take_any, records_of, tree, passed};
ghost use Rattle.walk.specs.Stream.{stream_at, stream_here, stream_in, stream_out, Peeked, Ate};
ghost use Rattle.walk.specs.Flow.{not_met, left_over, Asked, Pumped, Expected};

use kinds::KindByte;
use lent::formatter::Formatter;
use meaning::answer::Refusal;
use tree::cursor::{behind, children_of, kept_from};
use tree::record::RecordNo;
use tree::table::kind_at;

// What is left of a node's records: the next that is no white space and no comment, and the record behind the last.
#[derive(Clone, Copy)]
pub struct Stream {
    pub node: RecordNo,
    pub next: Option<RecordNo>,
    pub end: RecordNo,
}

// The records of node k.
pub fn records_of(table: &[u32], k: RecordNo) -> Stream
    ensures { stream_at (tree table) result ≡ records_of (tree table) k }
{
    let children = children_of(table, k);
    Stream {
        node: k,
        next: children.peek(table),
        end: children.end,
    }
}

// A rule asks at every record: `peek`, `next_is`, `take` and `eat` are inlined, as a call of each costs more than what it does.
impl Stream {
    // The node whose records these are.
    pub fn node_of(&self, table: &[u32]) -> RecordNo
        ensures { result ≡ (stream_here table self).node }
    {
        self.node
    }

    // The next record.
    #[inline(always)]
    pub fn peek(&self, table: &[u32]) -> Option<RecordNo>
        ensures { Peeked (stream_here table self) result }
    {
        self.next
    }

    // Whether there is a next record.
    pub fn has_next(&self, table: &[u32]) -> bool
        ensures { result ≡ next_is (λ (k : ℕ). true) (stream_here table self) }
    {
        self.peek(table).is_some()
    }

    // Whether the next record is of this kind.
    #[inline(always)]
    pub fn next_is<K: KindByte>(&self, table: &[u32], kind: K) -> bool
        ensures { result ≡ next_is (is_byte (tree table) (K.as_byte kind)) (stream_here table self) }
    {
        match self.peek(table) {
            Some(k) => kind_at(table, k) == kind.as_byte(),
            None => false,
        }
    }

    // The stream goes on behind record k.
    #[inline(always)]
    fn pass_over(&mut self, table: &[u32], k: RecordNo)
        ensures { stream_out table self ≡ passed (tree table) self.old k.0 }
    {
        self.next = kept_from(table, behind(table, k), self.end);
    }

    // The next record, whatever it is.
    #[inline(always)]
    pub fn take(&mut self, table: &[u32]) -> Option<RecordNo>
        ensures { Ate (take_any (stream_in table self)) result (stream_out table self) }
    {
        let k = self.peek(table)?;
        self.pass_over(table, k);
        Some(k)
    }

    // The next record, if it is of this kind.
    #[inline(always)]
    pub fn eat<K: KindByte>(&mut self, table: &[u32], kind: K) -> Option<RecordNo>
        ensures { Ate (take_if (is_byte (tree table) (K.as_byte kind)) (stream_in table self)) result (stream_out table self) }
    {
        if self.next_is(table, kind) {
            return self.take(table);
        }
        None
    }

    // Refusal 8 at the record met, or at the node where there is none.
    pub fn not_met(&self, table: &[u32], fmt: &mut Formatter)
        ensures { Refused fmt (not_met (stream_here table self)) }
    {
        let met = self.peek(table).unwrap_or(self.node_of(table));
        fmt.refuse(Refusal::WrongKind(met));
    }

    // The record found; where there is none, refusal 8, and a number past the table.
    pub fn or_refused(
        &self,
        table: &[u32],
        fmt: &mut Formatter,
        found: Option<RecordNo>,
    ) -> RecordNo
        ensures { Asked table fmt self found result }
    {
        match found {
            Some(k) => k,
            None => {
                self.not_met(table, fmt);
                RecordNo(8192)
            }
        }
    }

    // The next record, of any kind.
    pub fn pump(&mut self, table: &[u32], fmt: &mut Formatter) -> RecordNo
        ensures { Pumped table fmt self result }
    {
        let found = self.take(table);
        self.or_refused(table, fmt, found)
    }

    // The next record, of this kind.
    pub fn expect<K: KindByte>(&mut self, table: &[u32], fmt: &mut Formatter, kind: K) -> RecordNo
        ensures { Expected table fmt self (K.as_byte kind) result }
    {
        let found = self.eat(table, kind);
        self.or_refused(table, fmt, found)
    }

    // A node's rule may leave white space and comments, nothing else.
    pub fn left_over(&self, table: &[u32], fmt: &mut Formatter)
        ensures { Refused fmt (left_over (stream_here table self)) }
    {
        if let Some(k) = self.peek(table) {
            fmt.refuse(Refusal::WrongKind(k));
        }
    }
}
