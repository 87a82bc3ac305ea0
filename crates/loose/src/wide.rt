// The width question of the layout rules, `Source::is_at_least`, answered with a count.
ghost use Rattle.std.specs.Prelude.{◌≡◌};
ghost use Rattle.width.specs.Count.{width_of, is_wide};

use text::span::{Span, part};
use width::count::count;

// How many characters of the span are outside White_Space, up to one above the limit.
fn width_of(src: &[u8], span: Span, limit: u32) -> u64
    ensures { result ≡ width_of src.now span limit }
{
    count(part(src, span), limit)
}

// Whether that is more than the limit: for 80 it is the 81st character that answers yes.
pub fn is_wide(src: &[u8], span: Span, limit: u32) -> bool
    ensures { result ≡ is_wide src.now span limit }
{
    // as few bytes as the limit have no more characters, and are not counted
    part(src, span).len() > limit as usize && width_of(src, span, limit) == limit as u64 + 1
}
