//! Attempts: searches from candidate to candidate that give up where they would read bytes again, with the number of their steps.
#![tactic(auto, unfolding(crate::specs::Cache::Fits, crate::specs::Cache::AccountsAlike, crate::specs::Regex::pattern_count, crate::specs::Attempts::SuffixFails, crate::specs::Attempts::InnerFails, crate::specs::Attempts::CountsSuffix, crate::specs::Attempts::CountsInner))]

ghost use Rattle.std.specs.Prelude.{◌≡◌, ◌≤◌, ◌<◌, ◌+◌, ◌*◌, codes, false, None, IfOk, IfSome};
ghost use Rattle.std.specs.Result.{IfErr};
ghost use Rattle.rx_model.specs.Search.{Patterns, is_anchored};
ghost use Rattle.rx_search.specs.Input.{span_len};
ghost use Rattle.rx_search.specs.Matches.{match_value};
ghost use Rattle.rx_search.specs.Promise.{Premises};
ghost use Rattle.rx_search.specs.Told.{LiesIn};
ghost use Rattle.rx_meta.specs.Attempts.{IsAnswerFor, SuffixFails, InnerFails, CountsSuffix, CountsInner};
ghost use Rattle.rx_meta.specs.Cache.{Fits, AccountsAlike};
ghost use Rattle.rx_meta.specs.Regex.{Serves, kind_in, pattern_count, name_of};

use crate::cache::Cache;
use crate::regex::Regex;
use rx_limited::RetryError;
use rx_search::{Input, Match, Steps};
use std::sync::ledger::Ledger;

/// The next match in the input's span, by one attempt of a regex whose strategy is `reverse suffix`: the span is searched for the
/// literal that ends each match, backwards from each place where it lies for the start of a match, and forwards from there for its end.
/// With `earliest` it is some match, and there is one exactly where there is a next match. It is told under every kind of captures.
///
/// The regex has that strategy, the cache serves it, and the input is not anchored. A span of n bytes takes at most 8 * (n + 1) steps.
///
/// # Errors
///
/// `Quadratic` with what was met at a candidate before which none is confirmed: bytes under the end of the candidate before it would
/// be read again (`Below`), or the search backwards found a later start than that of the span, and was not over there (`AtStart`).
/// `Fail` with the place at which a DFA quit or gave up; `Memory`, where there was no memory for its states. A search of the regex
/// then goes on in another way, and answers all the same.
pub fn reverse_suffix_attempt<L: Ledger>(
    regex: &Regex,
    cache: &mut Cache,
    input: &Input<'_>,
    steps: &mut Steps<L>,
) -> Result<Option<Match>, RetryError>
    requires strategy { name_of regex.now ≡ codes "reverse suffix" }
    requires fits { Fits regex.now cache.old }
    requires free { is_anchored input.now.anchor ≡ false }
    ensures answer { (r : Patterns) → Premises (Serves regex.now r) None r input.now
        → IfOk result (IsAnswerFor (kind_in regex.now) r input.now match_value) }
    ensures within { IfOk result (λ found. IfSome found (LiesIn input.now)) }
    ensures in_range { IfOk result (λ found. IfSome found (λ m. m.pattern < pattern_count regex.now)) }
    ensures err { IfErr result (SuffixFails regex.now input.now cache.new) }
    ensures ticks { input.now.earliest ≡ false → IfOk result (CountsSuffix regex.now input.now steps.old steps.new) }
    ensures few { steps.new ≤ steps.old + 8 * (span_len input.now + 1) }
    ensures cache { Fits regex.now cache.new }
    ensures memory { AccountsAlike regex.now cache.old cache.new }
{
    rx_strategies::reverse_suffix_attempt(regex.strategy(), &mut cache.rooms, input, steps)
}

/// The next match in the input's span, by one attempt of a regex whose strategy is `reverse inner`: the span is searched for the
/// literals, one of which lies within each match, backwards from each place where one lies for the start that what stands before them
/// has, and forwards from there for the end of a match. Else it is as `reverse_suffix_attempt`.
///
/// # Errors
///
/// As by `reverse_suffix_attempt`, and `Quadratic` where a candidate begins before the place at which the last search forwards stopped
/// without a match (`Candidate`).
pub fn reverse_inner_attempt<L: Ledger>(
    regex: &Regex,
    cache: &mut Cache,
    input: &Input<'_>,
    steps: &mut Steps<L>,
) -> Result<Option<Match>, RetryError>
    requires strategy { name_of regex.now ≡ codes "reverse inner" }
    requires fits { Fits regex.now cache.old }
    requires free { is_anchored input.now.anchor ≡ false }
    ensures answer { (r : Patterns) → Premises (Serves regex.now r) None r input.now
        → IfOk result (IsAnswerFor (kind_in regex.now) r input.now match_value) }
    ensures within { IfOk result (λ found. IfSome found (LiesIn input.now)) }
    ensures in_range { IfOk result (λ found. IfSome found (λ m. m.pattern < pattern_count regex.now)) }
    ensures err { IfErr result (InnerFails regex.now input.now cache.new) }
    ensures ticks { input.now.earliest ≡ false → IfOk result (CountsInner regex.now input.now steps.old steps.new) }
    ensures few { steps.new ≤ steps.old + 8 * (span_len input.now + 1) }
    ensures cache { Fits regex.now cache.new }
    ensures memory { AccountsAlike regex.now cache.old cache.new }
{
    rx_strategies::reverse_inner_attempt(regex.strategy(), &mut cache.rooms, input, steps)
}
