// Places in a source, and the spans between two of them.
ghost use Rattle.std.specs.Prelude.{◌≡◌};
ghost use Rattle.text.specs.Span.{joined, head_of, text_of};

// A place in the source, in bytes. No record number is one.
#[derive(Clone, Copy, PartialEq, Eq, PartialOrd, Ord)]
pub struct BytePos(pub u32);

// A span of the source: from start up to, not including, end.
#[derive(Clone, Copy)]
pub struct Span {
    pub start: BytePos,
    pub end: BytePos,
}

impl Span {
    // The empty span at the start.
    pub fn head(self) -> Span
        ensures { result ≡ head_of self }
    {
        let at = self.start;
        Span { start: at, end: at }
    }

    // The smallest span that holds both.
    pub fn join(self, other: Span) -> Span
        ensures { result ≡ joined self other }
    {
        Span {
            start: self.start.min(other.start),
            end: self.end.max(other.end),
        }
    }
}

// The bytes of a span, as far as the slice has them.
pub fn part(s: &[u8], span: Span) -> &[u8]
    ensures { result.now ≡ text_of s.now span }
{
    let end = s.len().min(span.end.0 as usize);
    let start = end.min(span.start.0 as usize);
    &s[start..end]
}
