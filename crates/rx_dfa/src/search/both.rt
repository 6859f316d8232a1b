//! The search for a whole match: first for its end, and then for its start.
ghost use Rattle.std.specs.Prelude.{◌≡◌, ◌≤◌, ◌<◌, true, false, Some, None, IfOk, IfSome, length};
ghost use Rattle.std.specs.Result.{IfErr};
ghost use Rattle.rx_model.specs.Search.{Patterns};
ghost use Rattle.rx_model.specs.Utf8.{MeansUtf8};
ghost use Rattle.rx_search.specs.Answer.{half_of};
ghost use Rattle.rx_search.specs.Matches.{match_value, half_match_value};
ghost use Rattle.rx_search.specs.Promise.{Premises};
ghost use Rattle.rx_search.specs.Told.{LiesIn, HalfLiesIn};
ghost use Rattle.rx_search.specs.declared.anchored.MatchKind.{MatchKind};
ghost use Rattle.rx_nfa.specs.Nfa.{IsNfaOf};
ghost use Rattle.rx_dfa.specs.Search.{BothFail, SearchFails, IsAnswerFor, TellsStarts, part_of};

use crate::automaton::Automaton;
use crate::search::forward::try_search_half_fwd;
use crate::search::reverse::try_search_half_rev;
use rx_search::{Anchored, HalfMatch, Input, Match, MatchError, Span};

/// A match in the input's span. The first automaton is one of an NFA that reads forwards, and the second one of an NFA that reads
/// backwards, under `All`; both are of the same patterns.
///
/// Under leftmost-first it is the next match; and with `earliest`, or where the first automaton is one under `All`, it is some match,
/// where there is one.
///
/// # Errors
///
/// `Quit` with a byte above 7F in the span or directly beside it, and its place, where an NFA asks for words of Unicode;
/// `GaveUp` and `Memory` for the automata's own reasons.
pub fn try_search<F: Automaton, B: Automaton>(
    fwd: &F,
    fwd_cache: &mut F::Cache,
    rev: &B,
    rev_cache: &mut B::Cache,
    input: &Input<'_>,
) -> Result<Option<Match>, MatchError>
    requires fwd_fits { F.fits fwd.now fwd_cache.old }
    requires rev_fits { B.fits rev.now rev_cache.old }
    requires forward { (F.dfa fwd.now).nfa.reverse ≡ false }
    requires reverse { (B.dfa rev.now).nfa.reverse ≡ true }
    ensures answer { (r : Patterns) → Premises (IsNfaOf (F.dfa fwd.now).nfa r) None r input.now → TellsStarts (B.dfa rev.now) r
        → IfOk result (IsAnswerFor (F.dfa fwd.now).kind r input.now match_value) }
    ensures within { IfOk result (λ found. IfSome found (LiesIn input.now)) }
    ensures in_range { IfOk result (λ found. IfSome found (λ m. m.pattern < length (F.dfa fwd.now).nfa.starts)) }
    ensures err { IfErr result (BothFail (F.dfa fwd.now).nfa (B.dfa rev.now).nfa input.now (F.gives_up fwd.now fwd_cache.new) (F.wants fwd.now)
        (B.gives_up rev.now rev_cache.new) (B.wants rev.now)) }
    ensures fwd_fits { F.fits fwd.now fwd_cache.new }
    ensures rev_fits { B.fits rev.now rev_cache.new }
{
    let found = match try_search_half_fwd(fwd, fwd_cache, input) {
        Ok(found) => found,
        Err(error) => return Err(error),
    };
    let Some(end) = found else {
        return Ok(None);
    };
    match try_search_start(rev, rev_cache, input, end) {
        Ok(whole) => Ok(whole),
        Err(error) => Err(error),
    }
}

/// The match that ends there, where a search of the input found this end: its start is that of the span, where the search is anchored,
/// and else the least start of a part up to the end that the pattern means. The automaton is one of an NFA that reads backwards, under
/// `All`.
///
/// # Errors
///
/// Those of `try_search_half_rev`.
pub fn try_search_start<B: Automaton>(
    rev: &B,
    rev_cache: &mut B::Cache,
    input: &Input<'_>,
    end: HalfMatch,
) -> Result<Option<Match>, MatchError>
    requires fits { B.fits rev.now rev_cache.old }
    requires reverse { (B.dfa rev.now).nfa.reverse ≡ true }
    requires lies { HalfLiesIn input.now end }
    ensures answer { (kind : MatchKind) (r : Patterns) → TellsStarts (B.dfa rev.now) r → (r.utf8_empty ≡ true → MeansUtf8 r input.now.haystack)
        → IsAnswerFor kind r input.now half_match_value (Some end) → IfOk result (IsAnswerFor kind r input.now match_value) }
    ensures half { IfOk result (λ found. IfSome found (λ m. half_of m ≡ end)) }
    ensures within { IfOk result (λ found. IfSome found (LiesIn input.now)) }
    ensures err { IfErr result (SearchFails (B.dfa rev.now).nfa input.now (B.gives_up rev.now rev_cache.new) (B.wants rev.now)) }
    ensures fits { B.fits rev.now rev_cache.new }
{
    if input.get_anchored().is_anchored() {
        return Ok(Some(from_start(input, end)));
    }
    let part = up_to(input, end);
    let begins = match try_search_half_rev(rev, rev_cache, &part) {
        Ok(begins) => begins,
        Err(error) => return Err(error),
    };
    let Some(first) = begins else {
        return Ok(None);
    };
    Ok(Some(from_half(first, end)))
}

/// The match from the start of the input's span to this end.
fn from_start(input: &Input<'_>, end: HalfMatch) -> Match
    requires { HalfLiesIn input.now end }
    ensures { result ≡ record { pattern = end.pattern; start = input.now.start; end = end.offset } }
{
    Match::new(
        end.pattern(),
        Span {
            start: input.start(),
            end: end.offset(),
        },
    )
}

/// The match from this start to this end, with the pattern that ends there.
fn from_half(first: HalfMatch, end: HalfMatch) -> Match
    requires { first.offset ≤ end.offset }
    ensures { result ≡ record { pattern = end.pattern; start = first.offset; end = end.offset } }
{
    Match::new(
        end.pattern(),
        Span {
            start: first.offset(),
            end: end.offset(),
        },
    )
}

/// What is searched for the start of the match that ends there.
fn up_to<'h>(input: &Input<'h>, end: HalfMatch) -> Input<'h>
    requires { HalfLiesIn input.now end }
    ensures { result ≡ part_of input.now end }
{
    let mut part = input.clone();
    part.set_end(end.offset());
    part.set_anchored(Anchored::Pattern(end.pattern()));
    part.set_earliest(false);
    part
}
