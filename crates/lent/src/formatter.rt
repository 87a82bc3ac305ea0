// The engine's scalars, lent beside the queue. A refusal is sticky: it stays, and nothing changes any more.
ghost use Rattle.std.specs.Prelude.{◌≡◌, true, false, ◌≤◌};
ghost use Rattle.tree.specs.Table.{tree_of};
ghost use Rattle.meaning.specs.Plan.{refuse};
ghost use Rattle.lent.specs.Run.{is_refused, answered, moved_run, hinted_run, let_out_run, collected_run, Readied, Present};
ghost use Rattle.lent.specs.Loans.{Refused};

use meaning::answer::{Answer, Refusal};
use tree::record::RecordNo;
use tree::table::size;

// `count` comments wait in the ring, from slot `head` on.
#[derive(Clone, Copy)]
pub struct Formatter {
    pub answer: Answer,
    pub len: usize,
    pub head: u32,
    pub count: u32,
    pub lines: u32,
    pub use_lines: bool,
    pub ws: bool,
    pub indent: u8,
    pub finished: bool,
}

// What calls ask and change of it; a single scalar is read and written as a field.
impl Formatter {
    // Has a call been refused?
    pub fn stopped(&self) -> bool
        ensures { result ≡ is_refused self.now.answer }
    {
        matches!(self.answer, Err(_))
    }

    // Newlines are due.
    pub fn set_lines(&mut self, lines: u32)
        ensures { self.new ≡ hinted_run self.old lines true self.old.ws }
    {
        self.lines = lines;
        self.use_lines = true;
    }

    // No hint is left.
    pub fn clear(&mut self)
        ensures { self.new ≡ hinted_run self.old 0 false false }
    {
        self.lines = 0;
        self.use_lines = false;
        self.ws = false;
    }

    // The first n comments are gone, and the output is so long.
    pub fn let_out(&mut self, n: u32, len: usize)
        requires { n ≤ self.old.count }
        ensures { self.new ≡ let_out_run self.old n len }
    {
        let first = (self.head as usize) + (n as usize);
        self.head = (first % 256) as u32;
        self.count -= n;
        self.len = len;
    }

    // What a collecting leaves.
    pub fn collected(&mut self, lines: u32, count: u32)
        ensures { self.new ≡ collected_run self.old lines count }
    {
        self.lines = lines;
        self.count = count;
    }

    // The output is so long, and neither newlines nor a space are due.
    pub fn written(&mut self, len: usize)
        ensures { self.new ≡ hinted_run (moved_run self.old len) self.old.lines false false }
    {
        self.len = len;
        self.use_lines = false;
        self.ws = false;
    }

    // The same engine, refused.
    pub fn refused(&mut self, refusal: Refusal)
        ensures { self.new ≡ answered self.old (Err refusal) }
    {
        self.answer = Err(refusal);
    }

    // The first refusal stays.
    pub fn refuse(&mut self, refusal: Refusal)
        ensures { Refused self (refuse refusal) }
    {
        if !self.stopped() {
            self.refused(refusal);
        }
    }

    // Refusal 10: what every call asks first. True where the call is to stop.
    #[tactic(auto, unfolding(crate::specs::Run::ready_run))]
    pub fn stops(&mut self) -> bool
        ensures { Readied self.old self.new result }
    {
        if self.stopped() {
            return true;
        }
        if self.finished {
            self.refused(Refusal::Finished(self.len));
            return true;
        }
        false
    }

    // Refusals 10 and 11: what a call on node k asks first.
    #[tactic(auto, unfolding(crate::specs::Run::present_run))]
    pub fn stops_for(&mut self, table: &[u32], k: RecordNo) -> bool
        ensures { Present (tree_of table.now) k self.old self.new result }
    {
        if self.stops() {
            return true;
        }
        if size(table).0 <= k.0 {
            self.refused(Refusal::NoNode(k));
            return true;
        }
        false
    }
}
