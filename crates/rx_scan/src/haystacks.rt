//! The rows of haystacks.
ghost use Rattle.std.specs.Prelude.{◌≡◌, ◌<◌, [], ℕ, List, true, length, map, replicate, IfOk};
ghost use Rattle.std.specs.List.{All};
ghost use Rattle.std.specs.Vec.{vec_items};
ghost use Rattle.rx_model.specs.Expression.{Expression};
ghost use Rattle.rx_model.specs.Utf8.{MeansUtf8};
ghost use Rattle.rx_search.specs.Needles.{BeginsEachMatch};
ghost use Rattle.rx_search.specs.Told.{tells};
ghost use Rattle.rx_search.specs.declared.anchored.MatchKind.TheVariants.{LeftmostFirst};
ghost use Rattle.rx_meta.specs.Build.{IsBuilt, patterns_for};
ghost use Rattle.rx_meta.specs.Config.{ConfigValue, kind_of, utf8_of, prefilter_of, captures_of};
ghost use Rattle.rx_meta.specs.Regex.{groups_in};
ghost use Rattle.rx_scan.specs.Haystacks.{HasOutcome, HaveOutcomes};
ghost use Rattle.rx_scan.specs.Row.{scan_rows};

use crate::lines::{Haystacks, Slices};
use crate::outcome::{AllRows, Outcome};
use crate::row::{Layout, Row};
use rx_meta::{Regex, RegexFinder, WhichCaptures, a_search_is_for_its_patterns};
use rx_search::{Gate, Input, Memory, Searcher};
use rx_workers::{Task, do_all};
use std::alloc::{AllocError, AllocFailed, Global};
use std::sync::Wait;
use std::thread::Threads;

/// Why a scan has no rows.
#[derive(Clone, Copy, Debug, PartialEq, Eq)]
pub enum ScanError {
    /// There was no memory.
    Memory,
}

impl From<Memory> for ScanError {
    fn from(_error: Memory) -> ScanError {
        ScanError::Memory
    }
}

impl From<AllocError> for ScanError {
    fn from(_error: AllocError) -> ScanError {
        ScanError::Memory
    }
}

impl<T: Drop> From<AllocFailed<T>> for ScanError {
    fn from(_error: AllocFailed<T>) -> ScanError {
        ScanError::Memory
    }
}

impl From<ScanError> for Memory {
    fn from(error: ScanError) -> Memory {
        match error {
            ScanError::Memory => Memory,
        }
    }
}

/// The rows of the successive matches in each haystack, in order. Each has two slots for each group of its pattern, and
/// those of a group that the configuration leaves out are empty. Where the regex asks for no captures, there are no rows.
///
/// That these are the rows is promised under `MatchKind::LeftmostFirst`, and, where no match may start inside a character,
/// of haystacks that are UTF-8 as all is that the patterns mean in them; and, where a prefilter was handed in, of patterns
/// each match of which begins with one of its needles.
///
/// So many workers search, but no more than haystacks: the caller, and each other in a thread of its own where one can be
/// started. Each draws one haystack after another, and some ahead where there are hundreds for each worker; their number
/// changes no row. `gate` is told of each haystack before it is searched, by the worker that drew it.
///
/// # Errors
///
/// `Memory`, where there was no memory for a cache, a search or the rows.
///
/// # Examples
///
/// ```
/// for rows in &scan(&rt, alloc, &regex, &[line], 1, &Open)? {
///     for row in rows {
///         if let [_, _, Some(start), Some(end), ..] = row.slots.as_slice() {
///             keys.push((start.get(), end.get()))?;
///         }
///     }
/// }
/// ```
pub fn scan<R: Threads + Wait + Sync, G: Gate + Sync>(
    rt: &R,
    alloc: Global,
    regex: &Regex,
    haystacks: &[&[u8]],
    workers: usize,
    gate: &G,
) -> Result<Vec<Vec<Row>>, ScanError>
    requires { 0 < workers }
    ensures { (config : ConfigValue) (hs : List Expression) → IsBuilt config hs regex.now → kind_of config ≡ LeftmostFirst
        → BeginsEachMatch (prefilter_of config) (patterns_for config hs)
        → (utf8_of config ≡ true → All (λ h. MeansUtf8 (patterns_for config hs) h.now) haystacks.now)
        → IfOk result (λ rows. map vec_items rows.items ≡ map (λ h. scan_rows (patterns_for config hs) h.now) haystacks.now) }
{
    let haystacks = Slices { all: haystacks };
    let rows = scan_for(rt, alloc, regex, &haystacks, workers, gate, &AllRows)?;
    Ok(rows)
}

/// What the rows of all haystacks become: the same, whatever that is (DECISIONS: one scan for rows, their text and their numbers).
///
/// # Errors
///
/// `Memory`, where there was no memory for a cache, a search or the rows.
pub fn scan_for<R: Threads + Wait + Sync, H: Haystacks + Sync, G: Gate + Sync, O: Outcome + Sync>(
    rt: &R,
    alloc: Global,
    regex: &Regex,
    haystacks: &H,
    workers: usize,
    gate: &G,
    outcome: &O,
) -> Result<O::Whole, Memory>
    requires { 0 < workers }
    ensures { (config : ConfigValue) (hs : List Expression) → IsBuilt config hs regex.now → kind_of config ≡ LeftmostFirst
        → BeginsEachMatch (prefilter_of config) (patterns_for config hs)
        → (utf8_of config ≡ true → All (MeansUtf8 (patterns_for config hs)) (H.texts haystacks.now))
        → IfOk result (O.are outcome.now (map (scan_rows (patterns_for config hs)) (H.texts haystacks.now))) }
{
    if !tells_matches(regex) {
        return no_rows(alloc, haystacks, gate, outcome);
    }
    let layout = Layout::new(alloc, regex.group_info())?;
    let works = Works {
        regex,
        haystacks,
        layout,
        gate,
        outcome,
    };
    let caches = regex.get_config().get_pool_capacity();
    do_all(rt, alloc, &works, workers, caches)
}

/// The works of a scan: what the rows of each haystack become.
#[derive(Drop)]
struct Works<'a, H, G, O> {
    regex: &'a Regex,
    haystacks: &'a H,
    layout: Layout<'a>,
    gate: &'a G,
    outcome: &'a O,
    ghost own: { layout.groups.now ≡ groups_in regex.now },
}

impl<'a, H: Haystacks, G: Gate, O: Outcome> Task for Works<'a, H, G, O> {
    type Value = O::Value;

    type Scratch = RegexFinder<'a>;

    type Whole = O::Whole;

    ghost size = { λ w. length (H.texts w.haystacks.now) };

    ghost answers = { λ w i n value. HasOutcome (O.holds w.outcome.now) w.regex.now (H.texts w.haystacks.now) i n value };

    ghost fits = { λ w f. f.regex.now ≡ w.regex.now };

    ghost gathers = { λ w n whole. HaveOutcomes (O.are w.outcome.now) w.regex.now (H.texts w.haystacks.now) n whole };

    fn count(&self) -> usize {
        self.haystacks.count()
    }

    fn make(&self, alloc: Global) -> Result<RegexFinder<'a>, Memory> {
        RegexFinder::new(alloc, self.regex)
    }

    fn fit(&self, alloc: Global, finder: &mut RegexFinder<'a>) -> Result<(), Memory> {
        finder.refit(alloc, self.regex)
    }

    fn open(&self, alloc: Global, room: usize) -> Result<O::Value, Memory> {
        self.outcome.open(alloc, room)
    }

    fn room(&self, value: &O::Value) -> usize {
        self.outcome.room(value)
    }

    fn answer(
        &self,
        alloc: Global,
        index: usize,
        finder: &mut RegexFinder<'a>,
        value: &mut O::Value,
    ) -> Result<(), Memory> {
        a_search_is_for_its_patterns();
        self.gate.reached(index);
        let haystack = self.haystacks.get(index);
        let mut searcher = Searcher::new(Input::new(haystack));
        // Each row is handed on as it is found (DECISIONS: one scan for rows, their text and their numbers).
        'matches: while let Some(found) = searcher.advance(finder)? {
            let row = self.layout.row(alloc, found.pattern(), finder.slots())?;
            self.outcome.add(index, row, value)?;
        }
        self.outcome.end(alloc, value)
    }

    fn begin(&self, alloc: Global) -> O::Whole {
        self.outcome.nothing(alloc)
    }

    fn put(
        &self,
        _index: usize,
        _count: usize,
        value: O::Value,
        whole: &mut O::Whole,
    ) -> Result<(), Memory> {
        self.outcome.put(value, whole)
    }
}

/// Whether the regex tells matches.
fn tells_matches(regex: &Regex) -> bool
    ensures { result ≡ tells (captures_of regex.now.config) }
{
    match regex.get_config().get_which_captures() {
        WhichCaptures::All => true,
        WhichCaptures::Implicit => true,
        WhichCaptures::None => false,
    }
}

/// What no rows become, for each haystack. `gate` is told of each.
fn no_rows<H: Haystacks, G: Gate, O: Outcome>(
    alloc: Global,
    haystacks: &H,
    gate: &G,
    outcome: &O,
) -> Result<O::Whole, Memory>
    ensures { IfOk result (O.are outcome.now (replicate (length (H.texts haystacks.now)) [])) }
{
    let mut value = outcome.open(alloc, 0)?;
    for index in 0..haystacks.count() {
        gate.reached(index);
        outcome.end(alloc, &mut value)?;
    }
    let mut whole = outcome.nothing(alloc);
    outcome.put(value, &mut whole)?;
    Ok(whole)
}
