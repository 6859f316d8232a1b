//! How the table of a one-pass DFA is built.
ghost use Rattle.std.specs.Prelude.{◌≡◌, ℕ, suc, ◌+◌, ◌*◌, ◌^◌, ◌<◌, ◌≤◌, true, false, EachIndex, List, [], length, map, All, IfOk, OnOk, IfErr, Some, slice_get, slice_index};
ghost use Rattle.rx_search.specs.ByteClasses.{AreClasses, alphabet_len, class_count, IsLeastPower};
ghost use Rattle.rx_nfa.specs.Automaton.{state_at};
ghost use Rattle.rx_nfa.specs.ByteClasses.{AreOfOneClass};
ghost use Rattle.rx_nfa.specs.Ordered.{target};
ghost use Rattle.rx_onepass_build.specs.Build.{IsBuiltOf, IsRefusalOf, IsAdmitted, IsInVain, IsMadeInVain, AreStarts, IsStartAt, start_count};
ghost use Rattle.rx_onepass_build.specs.Config.{overwritten, nothing_set};
ghost use Rattle.rx_onepass_build.specs.Entries.{AreMet, AreEntries};
ghost use Rattle.rx_onepass_build.specs.Filling.{IsJob};
ghost use Rattle.rx_onepass_build.specs.Stop.{error_of};
ghost use Rattle.rx_onepass_build.specs.Rows.{AreOf, AreFilled};
ghost use Rattle.rx_onepass_build.specs.Settled.{LeadInside};
ghost use Rattle.rx_onepass_build.specs.Finished.{IsFinished, IsTableFor};

use crate::admit::{admit, explicit_start};
use crate::build_error::BuildError;
use crate::built::Built;
use crate::closure::Closure;
use crate::config::Config;
use crate::entries::{Entries, Layout};
use crate::job::Job;
use crate::rows::{Rows, fill};
use crate::settled::{Order, settle};
use crate::stop::Stop;
use rx_nfa::NFA;
use rx_onepass_table::Table;
use rx_search::{ByteClasses, Memory};
use std::alloc::Global;

/// Makes the tables of one-pass DFAs.
#[derive(Clone, Copy)]
pub struct Builder {
    pub config: Config,
}

impl Builder {
    /// With the default configuration.
    pub fn new() -> Builder
        ensures { result.config ≡ nothing_set }
    {
        Builder {
            config: Config::new(),
        }
    }

    /// Takes what this configuration sets, and keeps what it leaves open.
    pub fn configure(&mut self, config: Config)
        ensures { self.new.config ≡ overwritten self.old.config config }
    {
        self.config = self.config.overwrite(config);
    }

    /// The table of the NFA, with its starts.
    ///
    /// Before a state is made are refused, in this order: a kind of look-around past `Look::WordUnicodeNegate`, more patterns than
    /// 4194303, more than 32 slots of groups that the patterns name, where these are told. Then, as the states are made, what is
    /// met first: a state that two walks lead to, two patterns that match, two steps on a byte that differ, too many states, or a
    /// table above the size limit.
    ///
    /// # Errors
    ///
    /// `UnsupportedLook`, `TooManyPatterns`, `NotOnePass`, `TooManyStates`, `ExceededSizeLimit`, as above; `Memory`.
    pub fn build_from_nfa(&self, alloc: Global, nfa: &NFA) -> Result<Built, BuildError>
        ensures built { IfOk result (λ b. IsBuiltOf self.now.config nfa.now b.table b.starts.items) }
        ensures refused { IfErr result (IsRefusalOf self.now.config nfa.now) }
    {
        admit(nfa)?;
        match make(alloc, nfa, &self.config) {
            Ok(built) => Ok(built),
            Err(stop) => Err(stop.error()),
        }
    }
}

/// The classes of the NFA, or one for each byte.
fn classes_of(nfa: &NFA, shared: bool) -> ByteClasses
    ensures own { shared ≡ true → result ≡ nfa.now.classes }
    ensures single { shared ≡ false → EachIndex result (λ b. slice_index result b ≡ b) }
    ensures classes { AreClasses result }
    ensures alike { (q b c : ℕ) → AreOfOneClass result b c → target (state_at nfa.now.states q) b ≡ target (state_at nfa.now.states q) c }
{
    if shared {
        return *nfa.byte_classes();
    }
    ByteClasses::singletons()
}

/// How many starts there are: that of all patterns, and that of each, if these are asked for.
fn start_count(nfa: &NFA, each: bool) -> usize
    ensures value { result ≡ start_count nfa.now each }
    ensures few { result ≤ 2 ^ 31 }
{
    if each { 1 + nfa.pattern_len() } else { 1 }
}

/// How many cells a row has: 2 to this power.
fn stride2_of(classes: &ByteClasses) -> usize
    ensures power { IsLeastPower (alphabet_len classes.now) result }
    ensures small { result ≤ 9 }
{
    // That there are at most 257 is what this call ensures.
    let _len = classes.alphabet_len();
    classes.stride2()
}

/// How many cells a row has.
fn stride_of(stride2: usize) -> usize
    requires { stride2 ≤ 9 }
    ensures power { result ≡ 2 ^ stride2 }
    ensures narrow { result ≤ 512 }
{
    1 << stride2
}

/// The table of an NFA that was admitted, with its starts.
fn make(alloc: Global, nfa: &NFA, config: &Config) -> Result<Built, Stop>
    requires { IsAdmitted nfa.now }
    ensures built { IfOk result (λ b. IsBuiltOf config.now nfa.now b.table b.starts.items) }
    ensures refused { IfErr result (λ stop. IsInVain config.now nfa.now (error_of stop)) }
{
    // That its parts fit together is what this call ensures.
    let _states = nfa.states_len();
    let shared = config.get_byte_classes();
    let each = config.get_starts_for_each_pattern();
    let classes = classes_of(nfa, shared);
    let stride2 = stride2_of(&classes);
    let stride = stride_of(stride2);
    let starts = start_count(nfa, each);
    let limit = config.get_size_limit();
    let layout = Layout {
        stride,
        starts,
        limit,
    };
    let first = explicit_start(nfa);
    let bytes = classes.representatives(alloc)?;
    let job = Job {
        nfa,
        classes: &classes,
        bytes: bytes.as_slice(),
        explicit_start: first,
        each,
    };
    make_table(alloc, &job, layout)
}

/// The table in this layout, with its starts.
fn make_table(alloc: Global, job: &Job<'_>, layout: Layout) -> Result<Built, Stop>
    requires job { IsJob job.now }
    requires narrow { layout.stride ≤ 512 }
    requires wide { class_count job.now.classes.now < layout.stride }
    requires starts { layout.starts ≤ 2 ^ 31 }
    ensures built { IfOk result (IsTableFor job.now layout) }
    ensures refused { IfErr result (λ stop. IsMadeInVain job.now.nfa.now job.now.each layout (error_of stop)) }
{
    let states = job.nfa.states_len();
    let mut entries = Entries::new(alloc, layout, states)?;
    let mut starts = Vec::new(alloc);
    push_starts(job, &mut entries, &mut starts)?;
    let mut closure = Closure::new(alloc, states)?;
    let mut rows = Rows::new(alloc);
    fill(job, &mut closure, &mut entries, &mut rows)?;
    Ok(finish(alloc, job, layout.stride, &rows, starts.as_slice())?)
}

/// Appends the rows of the starts.
fn push_starts(job: &Job<'_>, entries: &mut Entries, starts: &mut Vec<usize>) -> Result<(), Stop>
    requires job { IsJob job.now }
    requires none { entries.old.items.items ≡ [] }
    requires empty { starts.old.items ≡ [] }
    requires met { AreMet entries.old }
    requires numbers { length entries.old.numbers.items ≡ length job.now.nfa.now.states }
    ensures met { OnOk result (AreMet entries.new) }
    ensures of { OnOk result (AreOf entries.old entries.new) }
    ensures are { OnOk result (AreEntries job.now.nfa.now job.now.each entries.new.items.items) }
    ensures starts { OnOk result (AreStarts job.now.nfa.now job.now.each entries.new.items.items starts.new.items) }
    ensures err { IfErr result (λ stop. IsMadeInVain job.now.nfa.now job.now.each entries.old.layout (error_of stop)) }
{
    let common = entries.row_of(job.nfa.start_anchored())?;
    starts.push(common)?;
    if !job.each {
        return Ok(());
    }
    push_each(job, entries, starts)
}

/// Appends the row of the start of each pattern.
fn push_each(job: &Job<'_>, entries: &mut Entries, starts: &mut Vec<usize>) -> Result<(), Stop>
    requires job { IsJob job.now }
    requires each { job.now.each ≡ true }
    requires met { AreMet entries.old }
    requires numbers { length entries.old.numbers.items ≡ length job.now.nfa.now.states }
    requires are { AreEntries job.now.nfa.now job.now.each entries.old.items.items }
    requires one { length starts.old.items ≡ 1 }
    requires common { IsStartAt entries.old.items.items starts.old.items 0 job.now.nfa.now.start_anchored }
    ensures met { OnOk result (AreMet entries.new) }
    ensures of { OnOk result (AreOf entries.old entries.new) }
    ensures are { OnOk result (AreEntries job.now.nfa.now job.now.each entries.new.items.items) }
    ensures starts { OnOk result (AreStarts job.now.nfa.now job.now.each entries.new.items.items starts.new.items) }
    ensures err { IfErr result (λ stop. IsMadeInVain job.now.nfa.now job.now.each entries.old.layout (error_of stop)) }
{
    let of_each = job.nfa.starts();
    for pattern in 0..of_each.len() {
        let row = entries.row_of(of_each[pattern])?;
        starts.push(row)?;
    }
    Ok(())
}

/// The table with its rows in their order in the end, and its starts by their numbers there.
fn finish(
    alloc: Global,
    job: &Job<'_>,
    stride: usize,
    rows: &Rows,
    starts: &[usize],
) -> Result<Built, Memory>
    requires job { IsJob job.now }
    requires few { length rows.now.finals.items < 2 ^ 21 }
    requires narrow { stride ≤ 512 }
    requires wide { class_count job.now.classes.now < stride }
    requires inside { All (λ row. row < suc (length rows.now.finals.items)) starts.now }
    requires lead { LeadInside rows.now.steps.items (class_count job.now.classes.now) (length rows.now.finals.items) }
    requires len { length rows.now.steps.items ≡ length rows.now.finals.items * class_count job.now.classes.now }
    ensures { IfOk result (λ b. (entries : List ℕ) → length entries ≡ length rows.now.finals.items
        → ((k q : ℕ) → slice_get entries k ≡ Some q → q < length job.now.nfa.now.states)
        → AreFilled job.now entries rows.now.steps.items rows.now.finals.items
        → AreStarts job.now.nfa.now job.now.each entries starts.now
        → IsFinished job.now entries stride b) }
{
    let classes = job.bytes.len();
    let order = Order::new(alloc, rows.finals.as_slice())?;
    let count = order.before.len();
    let cells = settle(alloc, rows, &order, classes, stride)?;
    let settled = renumbered(alloc, starts, order.after.as_slice())?;
    let table = Table::new(*job.classes, stride, cells, count, order.least_match);
    Ok(Built {
        table,
        starts: settled,
    })
}

/// The rows by the numbers that they have in the end.
fn renumbered(alloc: Global, rows: &[usize], after: &[usize]) -> Result<Vec<usize>, Memory>
    requires { All (λ row. row < length after.now) rows.now }
    ensures { IfOk result (λ v. v.items ≡ map (slice_index after.now) rows.now) }
{
    let mut settled = Vec::new(alloc);
    for k in 0..rows.len() {
        settled.push(after[rows[k]])?;
    }
    Ok(settled)
}
