//! From expressions to an NFA.
ghost use Rattle.std.specs.Prelude.{◌≡◌, ℕ, ◌+◌, ◌*◌, ◌<◌, ◌≤◌, length, All, IfOk, IfErr, IfSome, OnOk, MatchOption, None, Some, true, ◌∷◌, [], slice_get};
ghost use Rattle.rx_model.specs.Expression.{Expression};
ghost use Rattle.rx_model.specs.Graph.{build_state};
ghost use Rattle.rx_model.specs.Search.{greatest_group};
ghost use Rattle.rx_search.specs.Limits.{id_limit};
ghost use Rattle.rx_hir.specs.Cost.{accounted_states};
ghost use Rattle.rx_hir.specs.Sound.{IsSound};
ghost use Rattle.rx_nfa.specs.Built.{Built, bound, compiled_pattern, HasPart, HasParts, StartsAll};
ghost use Rattle.rx_nfa.specs.Config.{captures_kind, captures_of, overwritten, nothing_set};
ghost use Rattle.rx_nfa.specs.Compiled.{patterns_of, groups_of, slots_of, slots_written, nfa_states, AreFew, AreAllowed, IsCompiled, IsRefusal};
ghost use Rattle.rx_nfa.specs.Directed.{directed_part, part_for};
ghost use Rattle.rx_nfa.specs.Draft.{Continues};
ghost use Rattle.rx_nfa.specs.Room.{HasRoom};
ghost use Rattle.rx_nfa.specs.Slots.{IsSlotOf};

mod accounting;
mod anchors;
mod config;
mod constant;
mod expression;
mod grouping;
mod groups;
mod slots;

use crate::builder::{Builder, Facts};
use crate::error::BuildError;
use crate::nfa::{NFA, STATE_SIZE};
use crate::prefixes::share_prefixes;
use crate::state::{Alternates, State};
use accounting::{nfa_states, slot_len};
use anchors::all_start_anchored;
pub use config::{Config, WhichCaptures};
use expression::compile;
use grouping::group_info;
use groups::Groups;
use rx_hir::{Hir, one_can_be_empty};
use rx_search::{Memory, PatternID, StateID};
use slots::{first_slot, second_slot, slot_after, slots_written, whole_slot, written_in};
use std::alloc::Global;
use std::slice;

/// The most patterns that an NFA may have.
pub const PATTERN_LIMIT: usize = PatternID::LIMIT;

/// The most slots that a match may have.
pub const SLOT_LIMIT: usize = PatternID::LIMIT - 1;

/// The most states that an NFA may have.
pub const STATE_LIMIT: usize = StateID::LIMIT;

/// Makes NFAs of expressions.
#[derive(Clone, Copy)]
pub struct Compiler {
    config: Config,
}

impl Compiler {
    /// With the configuration that `Config::new` makes.
    pub fn new() -> Compiler
        ensures { result.config ≡ nothing_set }
    {
        Compiler {
            config: Config::new(),
        }
    }

    /// Takes what this configuration sets, and keeps what it leaves open.
    pub fn configure(&mut self, config: Config)
        ensures { self.new.config ≡ overwritten self.old.config config }
    {
        self.config = self.config.overwrite(config);
    }

    /// How NFAs are built.
    pub fn get_config(&self) -> &Config
        ensures { result.now ≡ self.now.config }
    {
        &self.config
    }

    /// The NFA of this expression, as the only pattern: as `build_many_from_hir` answers.
    pub fn build_from_hir(&self, alloc: Global, expr: &Hir) -> Result<NFA, BuildError>
        ensures compiled { IfOk result (IsCompiled self.now.config (expr.now ∷ [])) }
        ensures allowed { OnOk result (AreAllowed self.now.config (expr.now ∷ [])) }
        ensures refused { IfErr result (IsRefusal self.now.config (expr.now ∷ [])) }
    {
        self.build_many_from_hir(alloc, slice::from_ref(expr))
    }

    /// The NFA of these expressions, one pattern each. A match's slots come in the order of the patterns: two for each
    /// whole match, and after these two for each group that a pattern names. Groups that the configuration leaves out
    /// have slots that stay empty. The NFA has no more states than are accounted for the expressions.
    ///
    /// The NFA's first runs are those of the patterns' graphs, wherever acceptance is permitted, by pattern and place, and
    /// the runs of each pattern's graph cover exactly the spans that its expression means: the laws
    /// `runs_cover_the_meaning` and `the_first_permitted_run_is_meant` of rx_model say so, and the clause `compiled` gives
    /// their premise, that the counts of the expression are in order. So an NFA has a run over exactly the spans that are
    /// meant, from each pattern's start and from that of all: `the_runs_of_one_span_are_meant`,
    /// `the_common_start_has_the_runs_of_each_pattern`.
    ///
    /// Where the configuration asks for it the NFA reads texts backwards. Then its walks lead from a place to exactly
    /// those places at which a match starts that ends there, from the start of each pattern and from that of all. It
    /// writes no slot.
    ///
    /// Refused before anything is built, in this order: more than 2147483647 patterns, more than 2147483646 slots,
    /// more than 2147483647 states accounted, more bytes accounted than the configured limit. Want of
    /// memory comes last, and is then the only reason left.
    pub fn build_many_from_hir(&self, alloc: Global, exprs: &[Hir]) -> Result<NFA, BuildError>
        // First runs, and no state of it (DECISIONS: the compiler's contract says nothing of how an NFA is built).
        ensures compiled { IfOk result (IsCompiled self.now.config exprs.now) }
        ensures allowed { OnOk result (AreAllowed self.now.config exprs.now) }
        ensures refused { IfErr result (IsRefusal self.now.config exprs.now) }
    {
        if exprs.len() > PATTERN_LIMIT {
            return Err(BuildError::TooManyPatterns {
                given: exprs.len(),
                limit: PATTERN_LIMIT,
            });
        }
        let slots = slot_len(exprs);
        if slots > SLOT_LIMIT {
            return Err(BuildError::TooManyGroups {
                given: slots,
                limit: SLOT_LIMIT,
            });
        }
        let states = nfa_states(exprs);
        if states > STATE_LIMIT {
            return Err(BuildError::TooManyStates {
                given: states,
                limit: STATE_LIMIT,
            });
        }
        let size = STATE_SIZE * states;
        if let Some(limit) = exceeded(self.config.get_nfa_size_limit(), size) {
            return Err(BuildError::ExceededSizeLimit { limit, size });
        }
        let nfa = build(alloc, self.config, exprs, slots, states)?;
        Ok(nfa)
    }
}

/// The limit, where the size is above it.
fn exceeded(limit: Option<usize>, size: usize) -> Option<usize>
    ensures { MatchOption result (IfSome limit (λ most. size ≤ most)) (λ most. (limit ≡ Some most) × (most < size)) }
{
    match limit {
        Some(most) => { if most < size { Some(most) } else { None } }
        None => None,
    }
}

/// The NFA of few enough patterns, slots and accounted states.
fn build(
    alloc: Global,
    config: Config,
    exprs: &[Hir],
    slots: usize,
    states: usize,
) -> Result<NFA, Memory>
    requires few { AreFew exprs.now }
    requires slots { slots ≡ slots_of exprs.now }
    requires states { states ≡ nfa_states exprs.now }
    requires few_states { states ≤ id_limit }
    ensures { IfOk result (IsCompiled config exprs.now) }
{
    // Only the parts differ by it (DECISIONS: one compiler builds both directions).
    let reverse = config.get_reverse();
    let which = written_in(reverse, config.get_which_captures());
    let group_info = group_info(alloc, exprs)?;
    let mut builder = Builder::new(alloc, group_info, slots_written(which, exprs, slots));
    let starts = match compile_patterns(alloc, &mut builder, reverse, which, exprs) {
        Ok(starts) => starts,
        Err(error) => {
            // By a call (DECISIONS: large values are let go by name).
            drop(builder);
            return Err(error);
        }
    };
    let start = match start_of_all(alloc, &mut builder, &starts) {
        Ok(start) => start,
        Err(error) => {
            drop(builder);
            return Err(error);
        }
    };
    match share_prefixes(alloc, &mut builder, start, &starts) {
        Ok(()) => (),
        Err(error) => {
            drop(builder);
            return Err(error);
        }
    }
    let facts = Facts {
        utf8: config.get_utf8(),
        reverse,
        look_matcher: config.get_look_matcher(),
        always_start_anchored: all_start_anchored(exprs),
        has_empty: one_can_be_empty(exprs),
        accounted_states: states,
    };
    let nfa = builder.finish(alloc, start, starts, facts)?;
    Ok(nfa)
}

/// The states of the patterns, one after another, and where each starts.
fn compile_patterns(
    alloc: Global,
    builder: &mut Builder,
    reverse: bool,
    which: WhichCaptures,
    exprs: &[Hir],
) -> Result<Vec<StateID>, Memory>
    requires few { AreFew exprs.now }
    requires groups { builder.old.groups ≡ groups_of exprs.now }
    requires slots { builder.old.slots ≡ slots_written (captures_kind which) exprs.now }
    requires new { builder.old.accepted ≡ 0 }
    requires fits { length builder.old.states + nfa_states exprs.now ≤ id_limit }
    ensures extends { OnOk result (Continues builder.old builder.new) }
    ensures len { IfOk result (λ starts. length starts.items ≡ length exprs.now) }
    ensures has { IfOk result (λ starts. HasParts builder.new.states (directed_part reverse (patterns_of exprs.now true 0 (captures_kind which))) exprs.now
        (length exprs.now) starts.items) }
    ensures inside { IfOk result (λ starts. All (λ q. q < length builder.new.states) starts.items) }
    ensures count { OnOk result (length builder.new.states + 4 ≤ length builder.old.states + nfa_states exprs.now) }
    ensures sound { OnOk result ((p : ℕ) (h : Expression) → slice_get exprs.now p ≡ Some h → IsSound h) }
{
    let mut starts = Vec::new(alloc);
    let mut first_slot = first_slot(which, exprs);
    for hir in exprs {
        let pattern = PatternID::new(starts.len()).unwrap();
        let groups = Groups {
            pattern,
            reverse,
            whole_slot: whole_slot(which, pattern),
            first_slot,
        };
        let start = compile_pattern(alloc, builder, &groups, hir)?;
        starts.push(start)?;
        first_slot = slot_after(first_slot, hir);
    }
    Ok(starts)
}

/// The states of a pattern: its expression between the slots of its whole match, and the state that accepts it.
fn compile_pattern(
    alloc: Global,
    builder: &mut Builder,
    groups: &Groups,
    hir: &Hir,
) -> Result<StateID, Memory>
    requires room { HasRoom builder.old groups.now (greatest_group hir.now) }
    requires whole { IfSome groups.now.whole_slot (λ slot. slot + 1 < builder.old.slots) }
    requires own { IfSome groups.now.whole_slot (λ slot. slot ≡ 2 * groups.now.pattern) }
    requires new { builder.old.accepted ≤ groups.now.pattern }
    requires fits { length builder.old.states + (accounted_states hir.now + 3) ≤ id_limit }
    ensures extends { OnOk result (Continues builder.old builder.new) }
    ensures accepted { OnOk result (builder.new.accepted ≡ groups.now.pattern + 1) }
    ensures has { IfOk result (λ start. HasPart builder.new.states
        (compiled_pattern groups.now.whole_slot (part_for groups.now hir.now) groups.now.pattern) start) }
    ensures inside { IfOk result (λ start. start < length builder.new.states) }
    ensures count { OnOk result (length builder.new.states ≤ length builder.old.states + (accounted_states hir.now + 3)) }
    ensures sound { OnOk result (IsSound hir.now) }
{
    let pattern = groups.pattern;
    let last_slot = second_slot(groups.whole_slot);
    let accept = builder.push_match(pattern)?;
    let close = push_bound(alloc, builder, pattern, last_slot, accept)?;
    let body = compile(alloc, builder, groups, hir, close)?;
    let open = push_bound(alloc, builder, pattern, groups.whole_slot, body)?;
    Ok(open)
}

/// A state that writes the slot, or one that just goes on where there is none.
fn push_bound(
    alloc: Global,
    builder: &mut Builder,
    pattern: PatternID,
    slot: Option<usize>,
    next: StateID,
) -> Result<StateID, Memory>
    requires next { next < length builder.old.states }
    requires pattern { pattern < length builder.old.groups }
    requires slot { IfSome slot (λ number. number < builder.old.slots) }
    requires own { IfSome slot (λ number. IsSlotOf builder.old.groups pattern number) }
    requires fits { length builder.old.states < id_limit }
    ensures built { IfOk result (λ start. Built (build_state (bound slot)) next builder.old builder.new start) }
    ensures inside { IfOk result (λ start. start < length builder.new.states) }
    ensures count { OnOk result (length builder.new.states ≤ length builder.old.states + 1) }
{
    match slot {
        Some(slot) => builder.push(State::Capture {
            next,
            pattern,
            slot,
        }),
        None => {
            // As many states as with a slot (DECISIONS: under `None` the states of the whole match's slots are there).
            let alternates = one_way(alloc, next)?;
            builder.push(State::Union { alternates })
        }
    }
}

/// On to this state alone.
fn one_way(alloc: Global, next: StateID) -> Result<Alternates, Memory>
    ensures { IfOk result (λ alternates. alternates ≡ next ∷ []) }
{
    let mut ids = Vec::new(alloc);
    ids.push(next)?;
    Ok(Alternates::new(ids))
}

/// Where the runs of all the patterns start: at the only start, or at a choice between them.
fn start_of_all(alloc: Global, builder: &mut Builder, starts: &[StateID]) -> Result<StateID, Memory>
    requires inside { All (λ q. q < length builder.old.states) starts.now }
    requires fits { length builder.old.states < id_limit }
    ensures starts { IfOk result (StartsAll builder.old builder.new starts.now) }
    ensures count { OnOk result (length builder.new.states ≤ length builder.old.states + 1) }
    ensures inside { IfOk result (λ start. start < length builder.new.states) }
{
    if let [only] = starts {
        return Ok(*only);
    }
    let alternates = Alternates::new(Vec::from_slice(alloc, starts)?);
    let start = builder.push(State::Union { alternates })?;
    Ok(start)
}
