// A token that may be missing, as `remaining` of the Rust gives it.
ghost use Rattle.std.specs.Prelude.{◌≡◌};
ghost use Rattle.lent.specs.Loans.{Made, Refused};
ghost use Rattle.walk.specs.Stream.{tree, stream_here};
ghost use Rattle.walk.specs.Flow.{Walked};
ghost use Rattle.steps.specs.Remaining.{token_of, literal_of, second, fmt as written, ignore, says, is_present, write_if, write_only_if};
ghost use Rattle.steps.specs.Remaining.{remaining_of, put_remaining, Rested, Tells, MadeOf};

use calls::{ignore, lit, write_owned};
use kinds::Kind;
use lent::formatter::Formatter;
use lent::ring::Queue;
use meaning::call::Literal;
use tree::record::RecordNo;
use walk::stream::Stream;

// The tokens that format.rs lets be missing.
#[derive(Clone, Copy)]
pub enum Mark {
    Comma,
    SemiColon,
    Colon,
    CloseBrace,
}

impl Mark {
    // The token that is looked for.
    fn token(self) -> Kind
        ensures { result ≡ token_of self }
    {
        match self {
            Mark::Comma => Kind::Comma,
            Mark::SemiColon => Kind::SemiColon,
            Mark::Colon => Kind::Colon,
            Mark::CloseBrace => Kind::CloseBrace,
        }
    }

    // What is written where it is missing.
    fn literal(self) -> Literal
        ensures { result ≡ literal_of self }
    {
        match self {
            Mark::Comma => Literal::Comma,
            Mark::SemiColon => Literal::Semicolon,
            Mark::Colon => Literal::Colon,
            Mark::CloseBrace => Literal::CloseBrace,
        }
    }
}

#[derive(Clone, Copy)]
pub enum Remaining {
    // Before the first item of a list, when none was looked for: the Rust's `Remaining::default`.
    Fresh,
    Missing,
    There(RecordNo),
}

impl Remaining {
    // What `put` and `pass` say: no for a fresh one.
    #[tactic(auto, unfolding(crate::specs::Remaining::says, crate::specs::Remaining::remaining_of))]
    pub fn says(self) -> bool
        ensures { Tells says self result }
    {
        match self {
            Remaining::Fresh => false,
            Remaining::Missing | Remaining::There(_) => true,
        }
    }

    // The token is there.
    #[tactic(auto, unfolding(crate::specs::Remaining::is_present, crate::specs::Remaining::remaining_of))]
    pub fn is_present(self) -> bool
        ensures { Tells is_present self result }
    {
        match self {
            Remaining::There(_) => true,
            Remaining::Fresh | Remaining::Missing => false,
        }
    }
}

// A second one is refused. Inlined, as `take_remaining` and `put_remaining` are: a list has them at every item.
#[inline(always)]
fn once(table: &[u32], fmt: &mut Formatter, p: &Stream, mark: Mark)
    ensures { Refused fmt (second (tree table) mark (stream_here table p)) }
{
    if p.next_is(table, mark.token()) {
        p.not_met(table, fmt);
    }
}

// None or one.
#[inline(always)]
pub fn take_remaining(table: &[u32], fmt: &mut Formatter, p: &mut Stream, mark: Mark) -> Remaining
    ensures { Rested table fmt p mark result }
{
    match p.eat(table, mark.token()) {
        Some(k) => {
            once(table, fmt, p, mark);
            Remaining::There(k)
        }
        None => Remaining::Missing,
    }
}

// The token, or the literal if it is missing.
pub fn put(
    src: &[u8],
    table: &[u32],
    fmt: &mut Formatter,
    queue: &mut Queue,
    out: &mut [u8],
    r: Remaining,
    mark: Mark,
)
    ensures { Made src table fmt queue out (written (remaining_of mark r)) }
{
    match r {
        Remaining::Fresh => {}
        Remaining::Missing => lit(src, table, fmt, queue, out, mark.literal()),
        Remaining::There(k) => write_owned(src, table, fmt, queue, out, k),
    }
}

// Nothing is written; what stands behind the token is collected.
pub fn pass(
    src: &[u8],
    table: &[u32],
    fmt: &mut Formatter,
    queue: &mut Queue,
    out: &mut [u8],
    r: Remaining,
)
    ensures { MadeOf src table fmt queue out ignore r }
{
    if let Remaining::There(k) = r {
        ignore(src, table, fmt, queue, out, k);
    }
}

// Written if it is needed or there.
pub fn write_if(
    src: &[u8],
    table: &[u32],
    fmt: &mut Formatter,
    queue: &mut Queue,
    out: &mut [u8],
    r: Remaining,
    mark: Mark,
    needed: bool,
)
    ensures { Made src table fmt queue out (write_if needed (remaining_of mark r)) }
{
    if needed || r.is_present() {
        put(src, table, fmt, queue, out, r, mark);
    }
}

// `put` for yes, `pass` for no.
pub fn write_only_if(
    src: &[u8],
    table: &[u32],
    fmt: &mut Formatter,
    queue: &mut Queue,
    out: &mut [u8],
    r: Remaining,
    mark: Mark,
    wanted: bool,
)
    ensures { Made src table fmt queue out (write_only_if wanted (remaining_of mark r)) }
{
    if wanted {
        put(src, table, fmt, queue, out, r, mark);
    } else {
        pass(src, table, fmt, queue, out, r);
    }
}

// `p.remaining(fmt, K)?.fmt(fmt)?`.
#[inline(always)]
pub fn put_remaining(
    src: &[u8],
    table: &[u32],
    fmt: &mut Formatter,
    queue: &mut Queue,
    out: &mut [u8],
    p: &mut Stream,
    mark: Mark,
)
    ensures { Walked src table fmt queue out p (put_remaining (tree table) mark) }
{
    let r = take_remaining(table, fmt, p, mark);
    put(src, table, fmt, queue, out, r, mark);
}
