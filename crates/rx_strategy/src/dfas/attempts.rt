//! Attempts by the DFAs of a core: searches from one place where a literal lies to the next.
ghost use Rattle.std.specs.Prelude.{◌≡◌, ◌≤◌, ◌<◌, ◌+◌, ◌*◌, false, true, length, None, is_some, IfOk, IfSome};
ghost use Rattle.std.specs.Result.{IfErr};
ghost use Rattle.rx_model.specs.Search.{Patterns, is_anchored};
ghost use Rattle.rx_search.specs.Input.{span_len};
ghost use Rattle.rx_search.specs.Matches.{match_value};
ghost use Rattle.rx_search.specs.Told.{LiesIn};
ghost use Rattle.rx_search.specs.declared.anchored.MatchKind.{MatchKind};
ghost use Rattle.rx_dfa.specs.Automaton.{Dfa};
ghost use Rattle.rx_dfa.specs.LazyCache.{IsCacheOf, GaveUpOn};
ghost use Rattle.rx_dfa.specs.Search.{IsAnswerFor};
ghost use Rattle.rx_attempts.specs.Candidates.{AreNotEmpty};
ghost use Rattle.rx_attempts.specs.Counts.{HasCounted, HasCountedFirst};
ghost use Rattle.rx_attempts.specs.Refusals.{SuffixFails, InnerFails};
ghost use Rattle.rx_attempts.specs.Stops.{StopsBy};
ghost use Rattle.rx_strategy.specs.Dfas.{ArePaired, IsSearchFor, SearchFor, are_lazy, pair_of, FitsLazies, IsPatternOf, AreCachesOf};
ghost use Rattle.rx_strategy.specs.Attempts.{HasSuffix, HasInner, IsOneNeedle, SuffixFailsIn, InnerFailsIn, HasCountedSuffix, HasCountedInner};

use crate::dfas::Dfas;
use crate::lazies::Lazies;
use rx_attempts::{Patience, Stop, reverse_inner_attempt, reverse_suffix_attempt};
use rx_dfa::Automaton;
use rx_dfa::lazy::Lazy;
use rx_prefilter::Prefilter;
use rx_search::{Input, Match, Steps};
use std::sync::ledger::Ledger;

impl Dfas {
    /// The next match in the input's span of one expression that ends with this literal, by an attempt; or why it has no answer. The DFAs
    /// are there, and the input is not anchored.
    pub(crate) fn try_reverse_suffix<L: Ledger>(
        &self,
        lazies: &mut Option<Lazies>,
        pre: &Prefilter,
        input: &Input<'_>,
        patience: Patience,
        steps: &mut Steps<L>,
    ) -> Result<Option<Match>, Stop>
        requires fits { FitsLazies self.now lazies.old }
        requires there { is_some (pair_of self.now) ≡ true }
        requires paired { ArePaired self.now }
        requires free { is_anchored input.now.anchor ≡ false }
        requires suffix { IsOneNeedle pre.now }
        ensures answer { (kind : MatchKind) (r : Patterns) → SearchFor self.now None kind r input.now → HasSuffix pre.now r
            → IfOk result (IsAnswerFor kind r input.now match_value) }
        ensures within { IfOk result (λ found. IfSome found (LiesIn input.now)) }
        ensures in_range { IfOk result (λ found. IfSome found (λ m. IsPatternOf self.now m.pattern)) }
        ensures err { IfErr result (StopsBy patience (SuffixFailsIn self.now pre.now input.now lazies.new)) }
        ensures ticks { input.now.earliest ≡ false → IfOk result (HasCountedSuffix self.now pre.now input.now steps.old steps.new) }
        ensures few { steps.new ≤ steps.old + 8 * (span_len input.now + 1) }
        ensures fits { FitsLazies self.now lazies.new }
        ensures same { are_lazy self.now ≡ false → lazies.new ≡ lazies.old }
    {
        match self {
            Dfas::Absent => unreachable!(),
            Dfas::Full { forward, backward } => by_suffix(
                forward,
                &mut (),
                backward,
                &mut (),
                pre,
                input,
                patience,
                steps,
            ),
            Dfas::Lazy { forward, backward } => {
                let Some(both) = lazies else {
                    unreachable!();
                };
                by_suffix_in(forward, backward, both, pre, input, patience, steps)
            }
        }
    }

    /// The next match in the input's span of one expression with one of these literals behind its prefix, by an attempt; or why it has no
    /// answer. The automaton reads the prefix backwards. The DFAs are there, and the input is not anchored.
    pub(crate) fn try_reverse_inner<B: Automaton, L: Ledger>(
        &self,
        lazies: &mut Option<Lazies>,
        pre: &Prefilter,
        rev: &B,
        rev_cache: &mut B::Cache,
        input: &Input<'_>,
        patience: Patience,
        steps: &mut Steps<L>,
    ) -> Result<Option<Match>, Stop>
        requires fits { FitsLazies self.now lazies.old }
        requires rev_fits { B.fits rev.now rev_cache.old }
        requires there { is_some (pair_of self.now) ≡ true }
        requires paired { ArePaired self.now }
        requires reverse { (B.dfa rev.now).nfa.reverse ≡ true }
        requires free { is_anchored input.now.anchor ≡ false }
        requires needles { AreNotEmpty pre.now }
        ensures answer { (kind : MatchKind) (r : Patterns) → SearchFor self.now None kind r input.now → HasInner (B.dfa rev.now) pre.now r
            → IfOk result (IsAnswerFor kind r input.now match_value) }
        ensures within { IfOk result (λ found. IfSome found (LiesIn input.now)) }
        ensures in_range { IfOk result (λ found. IfSome found (λ m. IsPatternOf self.now m.pattern)) }
        ensures err { IfErr result (StopsBy patience (InnerFailsIn self.now (B.dfa rev.now) pre.now input.now lazies.new
            (B.gives_up rev.now rev_cache.new) (B.wants rev.now))) }
        ensures ticks { input.now.earliest ≡ false
            → IfOk result (HasCountedInner self.now (B.dfa rev.now) pre.now input.now steps.old steps.new) }
        ensures few { steps.new ≤ steps.old + 8 * (span_len input.now + 1) }
        ensures fits { FitsLazies self.now lazies.new }
        ensures rev_fits { B.fits rev.now rev_cache.new }
        ensures same { are_lazy self.now ≡ false → lazies.new ≡ lazies.old }
    {
        match self {
            Dfas::Absent => unreachable!(),
            Dfas::Full { forward, .. } => by_inner(
                forward,
                &mut (),
                rev,
                rev_cache,
                pre,
                input,
                patience,
                steps,
            ),
            Dfas::Lazy { forward, .. } => {
                let Some(both) = lazies else {
                    unreachable!();
                };
                by_inner_in(forward, both, rev, rev_cache, pre, input, patience, steps)
            }
        }
    }
}

/// The attempt by a suffix, with DFAs that read forwards and backwards.
fn by_suffix<F: Automaton, B: Automaton, L: Ledger>(
    forward: &F,
    fwd_cache: &mut F::Cache,
    backward: &B,
    rev_cache: &mut B::Cache,
    pre: &Prefilter,
    input: &Input<'_>,
    patience: Patience,
    steps: &mut Steps<L>,
) -> Result<Option<Match>, Stop>
    requires fwd_fits { F.fits forward.now fwd_cache.old }
    requires rev_fits { B.fits backward.now rev_cache.old }
    requires forward { (F.dfa forward.now).nfa.reverse ≡ false }
    requires backward { (B.dfa backward.now).nfa.reverse ≡ true }
    requires free { is_anchored input.now.anchor ≡ false }
    requires suffix { IsOneNeedle pre.now }
    ensures answer { (kind : MatchKind) (r : Patterns) → IsSearchFor None kind r input.now (F.dfa forward.now, B.dfa backward.now) → HasSuffix pre.now r
        → IfOk result (IsAnswerFor kind r input.now match_value) }
    ensures within { IfOk result (λ found. IfSome found (LiesIn input.now)) }
    ensures in_range { IfOk result (λ found. IfSome found (λ m. m.pattern < length (F.dfa forward.now).nfa.starts)) }
    ensures err { IfErr result (StopsBy patience (SuffixFails (F.dfa forward.now) (B.dfa backward.now) pre.now input.now (F.gives_up forward.now fwd_cache.new)
        (F.wants forward.now) (B.gives_up backward.now rev_cache.new) (B.wants backward.now))) }
    ensures ticks { input.now.earliest ≡ false
        → IfOk result (HasCountedFirst (F.dfa forward.now) (B.dfa backward.now) pre.now input.now (λ s. s.end) steps.old steps.new) }
    ensures few { steps.new ≤ steps.old + 8 * (span_len input.now + 1) }
    ensures fwd_fits { F.fits forward.now fwd_cache.new }
    ensures rev_fits { B.fits backward.now rev_cache.new }
{
    reverse_suffix_attempt(
        pre, forward, fwd_cache, backward, rev_cache, input, patience, steps,
    )
}

/// The same by lazy DFAs, with the caches that are their own.
fn by_suffix_in<L: Ledger>(
    forward: &Lazy,
    backward: &Lazy,
    both: &mut Lazies,
    pre: &Prefilter,
    input: &Input<'_>,
    patience: Patience,
    steps: &mut Steps<L>,
) -> Result<Option<Match>, Stop>
    requires fits { AreCachesOf (forward.now, backward.now) both.old }
    requires forward { forward.now.dfa.nfa.reverse ≡ false }
    requires backward { backward.now.dfa.nfa.reverse ≡ true }
    requires free { is_anchored input.now.anchor ≡ false }
    requires suffix { IsOneNeedle pre.now }
    ensures answer { (kind : MatchKind) (r : Patterns) → IsSearchFor None kind r input.now (forward.now.dfa, backward.now.dfa) → HasSuffix pre.now r
        → IfOk result (IsAnswerFor kind r input.now match_value) }
    ensures within { IfOk result (λ found. IfSome found (LiesIn input.now)) }
    ensures in_range { IfOk result (λ found. IfSome found (λ m. m.pattern < length forward.now.dfa.nfa.starts)) }
    ensures err { IfErr result (StopsBy patience (SuffixFails forward.now.dfa backward.now.dfa pre.now input.now (GaveUpOn forward.now both.new.forward.rows)
        (Unit {0}) (GaveUpOn backward.now both.new.backward.rows) (Unit {0}))) }
    ensures ticks { input.now.earliest ≡ false
        → IfOk result (HasCountedFirst forward.now.dfa backward.now.dfa pre.now input.now (λ s. s.end) steps.old steps.new) }
    ensures few { steps.new ≤ steps.old + 8 * (span_len input.now + 1) }
    ensures fits { AreCachesOf (forward.now, backward.now) both.new }
{
    by_suffix(
        forward,
        &mut both.forward,
        backward,
        &mut both.backward,
        pre,
        input,
        patience,
        steps,
    )
}

/// The attempt by literals behind a prefix, with a DFA that reads forwards, and one that reads the prefix backwards.
fn by_inner<F: Automaton, B: Automaton, L: Ledger>(
    forward: &F,
    fwd_cache: &mut F::Cache,
    rev: &B,
    rev_cache: &mut B::Cache,
    pre: &Prefilter,
    input: &Input<'_>,
    patience: Patience,
    steps: &mut Steps<L>,
) -> Result<Option<Match>, Stop>
    requires fwd_fits { F.fits forward.now fwd_cache.old }
    requires rev_fits { B.fits rev.now rev_cache.old }
    requires forward { (F.dfa forward.now).nfa.reverse ≡ false }
    requires reverse { (B.dfa rev.now).nfa.reverse ≡ true }
    requires free { is_anchored input.now.anchor ≡ false }
    requires needles { AreNotEmpty pre.now }
    ensures answer { (kind : MatchKind) (r : Patterns) (back : Dfa) → IsSearchFor None kind r input.now (F.dfa forward.now, back) → HasInner (B.dfa rev.now) pre.now r
        → IfOk result (IsAnswerFor kind r input.now match_value) }
    ensures within { IfOk result (λ found. IfSome found (LiesIn input.now)) }
    ensures in_range { IfOk result (λ found. IfSome found (λ m. m.pattern < length (F.dfa forward.now).nfa.starts)) }
    ensures err { IfErr result (StopsBy patience (InnerFails (F.dfa forward.now) (B.dfa rev.now) pre.now input.now (F.gives_up forward.now fwd_cache.new)
        (F.wants forward.now) (B.gives_up rev.now rev_cache.new) (B.wants rev.now))) }
    ensures ticks { input.now.earliest ≡ false
        → IfOk result (HasCounted (F.dfa forward.now) (B.dfa rev.now) pre.now input.now (λ s. s.start) steps.old steps.new) }
    ensures few { steps.new ≤ steps.old + 8 * (span_len input.now + 1) }
    ensures fwd_fits { F.fits forward.now fwd_cache.new }
    ensures rev_fits { B.fits rev.now rev_cache.new }
{
    reverse_inner_attempt(
        pre, forward, fwd_cache, rev, rev_cache, input, patience, steps,
    )
}

/// The same by a lazy DFA that reads forwards, with the cache that is its own.
fn by_inner_in<B: Automaton, L: Ledger>(
    forward: &Lazy,
    both: &mut Lazies,
    rev: &B,
    rev_cache: &mut B::Cache,
    pre: &Prefilter,
    input: &Input<'_>,
    patience: Patience,
    steps: &mut Steps<L>,
) -> Result<Option<Match>, Stop>
    requires fits { IsCacheOf forward.now both.old.forward }
    requires rev_fits { B.fits rev.now rev_cache.old }
    requires forward { forward.now.dfa.nfa.reverse ≡ false }
    requires reverse { (B.dfa rev.now).nfa.reverse ≡ true }
    requires free { is_anchored input.now.anchor ≡ false }
    requires needles { AreNotEmpty pre.now }
    ensures answer { (kind : MatchKind) (r : Patterns) (back : Dfa) → IsSearchFor None kind r input.now (forward.now.dfa, back) → HasInner (B.dfa rev.now) pre.now r
        → IfOk result (IsAnswerFor kind r input.now match_value) }
    ensures within { IfOk result (λ found. IfSome found (LiesIn input.now)) }
    ensures in_range { IfOk result (λ found. IfSome found (λ m. m.pattern < length forward.now.dfa.nfa.starts)) }
    ensures err { IfErr result (StopsBy patience (InnerFails forward.now.dfa (B.dfa rev.now) pre.now input.now (GaveUpOn forward.now both.new.forward.rows)
        (Unit {0}) (B.gives_up rev.now rev_cache.new) (B.wants rev.now))) }
    ensures ticks { input.now.earliest ≡ false
        → IfOk result (HasCounted forward.now.dfa (B.dfa rev.now) pre.now input.now (λ s. s.start) steps.old steps.new) }
    ensures few { steps.new ≤ steps.old + 8 * (span_len input.now + 1) }
    ensures fits { IsCacheOf forward.now both.new.forward }
    ensures rev_fits { B.fits rev.now rev_cache.new }
    ensures same { both.new.backward ≡ both.old.backward }
{
    by_inner(
        forward,
        &mut both.forward,
        rev,
        rev_cache,
        pre,
        input,
        patience,
        steps,
    )
}
