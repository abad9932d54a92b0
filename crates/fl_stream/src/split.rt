//! Where a line ends.
ghost use Rattle.std.specs.Prelude.{◌≡◌, ◌<◌, ◌+◌, ◌∷◌, ◌++◌, MatchOption, IfSome};
ghost use Rattle.std.specs.Prelude.{drop, length, take};
ghost use Rattle.std.specs.Str.Lines.{strip_carriage_return};
ghost use Rattle.fl_stream.specs.Served.{HasNoFeed};

use memchr::memchr;

/// The line without the carriage return at its end, if it has one.
pub fn without_return(line: &[u8]) -> &[u8]
    ensures { result.now ≡ strip_carriage_return line.now }
{
    match line {
        [front @ .., b'\r'] => front,
        _ => line,
    }
}

/// Where the first line feed stands.
#[inline(always)]
pub fn find_feed(text: &[u8]) -> Option<usize>
    ensures cut { MatchOption result (HasNoFeed text.now)
        (λ at. text.now ≡ take at text.now ++ 10 ∷ drop (at + 1) text.now) }
    ensures first { IfSome result (λ at. HasNoFeed (take at text.now)) }
    ensures inside { IfSome result (λ at. at < length text.now) }
{
    memchr(b'\n', text)
}
