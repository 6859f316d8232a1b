//! Laws of what a search finds.
ghost use Rattle.std.specs.Prelude.{ℕ, List, take};
ghost use Rattle.rx_search.specs.declared.span.Span.{Span};
ghost use Rattle.rx_prefilter.specs.Needles.{IsFirstSpan, find_in};

/// What a search of a part of a text finds begins at the least place of that part at which a needle lies within it,
/// and is the first needle of the list that lies there. It finds nothing only where none does.
pub fn a_search_finds_the_first_span()
    ensures { (needles : List (List ℕ)) (text : List ℕ) (part : Span)
        → IsFirstSpan needles (take part.end text) part.start (find_in needles text part) }
{}
