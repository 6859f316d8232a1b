//! The search for a match that ends where the searched span does.
ghost use Rattle.std.specs.Prelude.{◌≡◌, ◌<◌, ◌≤◌, false, true, length, None, option_map, is_some, IfOk, IfSome};
ghost use Rattle.rx_model.specs.Search.{Patterns, is_anchored};
ghost use Rattle.rx_search.specs.Matches.{match_value};
ghost use Rattle.rx_search.specs.Told.{LiesIn, HalfLiesIn};
ghost use Rattle.rx_search.specs.declared.anchored.MatchKind.{MatchKind};
ghost use Rattle.rx_dfa.specs.LazyCache.{IsCacheOf};
ghost use Rattle.rx_dfa.specs.Search.{IsAnswerFor, TellsStarts};
ghost use Rattle.rx_strategy.specs.Dfas.{ArePaired, SearchFor, are_lazy, pair_of, FitsLazies, IsPatternOf};
ghost use Rattle.rx_strategy.specs.Ending.{EndsWithSpan, to_end};

use crate::dfas::{Dfas, NoAnswer};
use crate::lazies::Lazies;
use rx_dfa::lazy::Lazy;
use rx_dfa::{Automaton, try_search_half_rev};
use rx_search::{Anchored, HalfMatch, Input, Match, Span};

impl Dfas {
    /// The next match in the input's span, where each match ends with it, or no answer. The input is not anchored. With `earliest` it
    /// is some match. Nothing is read forwards.
    pub(crate) fn try_search_ending(
        &self,
        lazies: &mut Option<Lazies>,
        input: &Input<'_>,
    ) -> Result<Option<Match>, NoAnswer>
        requires fits { FitsLazies self.now lazies.old }
        requires paired { ArePaired self.now }
        requires free { is_anchored input.now.anchor ≡ false }
        ensures answer { (kind : MatchKind) (r : Patterns) → SearchFor self.now None kind r input.now → EndsWithSpan r input.now
            → IfOk result (IsAnswerFor kind r input.now match_value) }
        ensures within { IfOk result (λ found. IfSome found (LiesIn input.now)) }
        ensures in_range { IfOk result (λ found. IfSome found (λ m. IsPatternOf self.now m.pattern)) }
        ensures fits { FitsLazies self.now lazies.new }
        ensures same { are_lazy self.now ≡ false → lazies.new ≡ lazies.old }
    {
        match self {
            Dfas::Absent => Err(NoAnswer),
            Dfas::Full { backward, .. } => ending(backward, &mut (), input),
            Dfas::Lazy { backward, .. } => {
                let Some(both) = lazies else {
                    unreachable!();
                };
                ending_in(backward, both, input)
            }
        }
    }

    /// Whether they are there.
    pub(crate) fn are_there(&self) -> bool
        ensures { result ≡ is_some (pair_of self.now) }
    {
        match self {
            Dfas::Absent => false,
            Dfas::Full { .. } => true,
            Dfas::Lazy { .. } => true,
        }
    }
}

/// The match that begins first of those that end with the input's span, by a DFA that reads backwards.
fn ending<B: Automaton>(
    backward: &B,
    cache: &mut B::Cache,
    input: &Input<'_>,
) -> Result<Option<Match>, NoAnswer>
    requires fits { B.fits backward.now cache.old }
    requires backward { (B.dfa backward.now).nfa.reverse ≡ true }
    requires free { is_anchored input.now.anchor ≡ false }
    ensures answer { (kind : MatchKind) (r : Patterns) → TellsStarts (B.dfa backward.now) r → EndsWithSpan r input.now
        → IfOk result (IsAnswerFor kind r input.now match_value) }
    ensures within { IfOk result (λ found. IfSome found (LiesIn input.now)) }
    ensures in_range { IfOk result (λ found. IfSome found (λ m. m.pattern < length (B.dfa backward.now).nfa.starts)) }
    ensures fits { B.fits backward.now cache.new }
{
    let first = input.clone().anchored(Anchored::Yes);
    match try_search_half_rev(backward, cache, &first) {
        Ok(found) => Ok(to_end(input, found)),
        Err(_) => Err(NoAnswer),
    }
}

/// The same by a lazy DFA, with the cache that is its own.
fn ending_in(
    backward: &Lazy,
    both: &mut Lazies,
    input: &Input<'_>,
) -> Result<Option<Match>, NoAnswer>
    requires fits { IsCacheOf backward.now both.old.backward }
    requires backward { backward.now.dfa.nfa.reverse ≡ true }
    requires free { is_anchored input.now.anchor ≡ false }
    ensures answer { (kind : MatchKind) (r : Patterns) → TellsStarts backward.now.dfa r → EndsWithSpan r input.now
        → IfOk result (IsAnswerFor kind r input.now match_value) }
    ensures within { IfOk result (λ found. IfSome found (LiesIn input.now)) }
    ensures in_range { IfOk result (λ found. IfSome found (λ m. m.pattern < length backward.now.dfa.nfa.starts)) }
    ensures fits { IsCacheOf backward.now both.new.backward }
    ensures same { both.new.forward ≡ both.old.forward }
{
    ending(backward, &mut both.backward, input)
}

/// The match from this start to the end of the input's span, if a start was found.
fn to_end(input: &Input<'_>, found: Option<HalfMatch>) -> Option<Match>
    requires { IfSome found (HalfLiesIn input.now) }
    ensures { result ≡ option_map (to_end input.now) found }
{
    match found {
        Some(first) => Some(match_from(input, first)),
        None => None,
    }
}

/// The match from this start to the end of the input's span.
fn match_from(input: &Input<'_>, first: HalfMatch) -> Match
    requires { HalfLiesIn input.now first }
    ensures { result ≡ to_end input.now first }
{
    let span = Span {
        start: first.offset(),
        end: input.end(),
    };
    Match::new(first.pattern(), span)
}
