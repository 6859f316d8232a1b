//! What is known of a match that was found.
ghost use Rattle.std.specs.Prelude.{◌≡◌, option_map, IfSome, true};
ghost use Rattle.rx_search.specs.Told.{LiesIn, HalfLiesIn};
ghost use Rattle.rx_strategy.specs.Narrow.{narrowed, of_len, BeginsWithSpan, from_start};

use rx_search::{Anchored, HalfMatch, Input, Match, Span};

/// The input narrowed to the match that was found in it: to its span, anchored to its pattern.
pub(crate) fn narrowed<'h>(input: &Input<'h>, found: &Match) -> Input<'h>
    requires { LiesIn input.now found.now }
    ensures value { result ≡ narrowed input.now found.now }
{
    let mut part = input.clone();
    part.set_span(Span {
        start: found.start(),
        end: found.end(),
    });
    part.set_anchored(Anchored::Pattern(found.pattern()));
    part
}

/// The match of this length that ends there, if an end was found. It begins in the span, also where no match of this length would.
pub(crate) fn match_of_len(input: &Input<'_>, found: Option<HalfMatch>, len: usize) -> Option<Match>
    requires { IfSome found (HalfLiesIn input.now) }
    ensures { result ≡ option_map (of_len input.now len) found }
{
    match found {
        Some(end) => Some(match_to(input, end, len)),
        None => None,
    }
}

/// The match of this length that ends there.
fn match_to(input: &Input<'_>, end: HalfMatch, len: usize) -> Match
    requires { HalfLiesIn input.now end }
    ensures { result ≡ of_len input.now len end }
{
    let place = end.offset();
    let start = place.saturating_sub(len).max(input.start());
    Match::new(end.pattern(), Span { start, end: place })
}

/// Whether a match that ends there can begin where the span does and nowhere else: it is empty, or the search is anchored.
pub(crate) fn begins_with_span(input: &Input<'_>, end: HalfMatch) -> bool
    ensures { result ≡ true → BeginsWithSpan input.now end }
{
    if end.offset() == input.start() {
        return true;
    }
    input.get_anchored().is_anchored()
}

/// The match that begins where the span does and ends there.
pub(crate) fn match_from_start(input: &Input<'_>, end: HalfMatch) -> Match
    requires { HalfLiesIn input.now end }
    ensures { result ≡ from_start input.now end }
{
    let place = end.offset();
    Match::new(
        end.pattern(),
        Span {
            start: input.start(),
            end: place,
        },
    )
}
