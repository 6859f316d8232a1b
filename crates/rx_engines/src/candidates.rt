//! The places at which a match may begin, by what an engine knows before a search.
ghost use Rattle.std.specs.Prelude.{◌≡◌, ◌≤◌, length, take, is_some};
ghost use Rattle.rx_prefilter.specs.Needles.{span_at};
ghost use Rattle.rx_engines.specs.Candidates.{AreOf, is_begun, is_candidate, IsNext};

mod start_bytes;

use rx_nfa::NFA;
use rx_prefilter::Prefilter;
use rx_search::Span;
use start_bytes::StartBytes;

// The same of both engines (DECISIONS: both engines begin threads at candidates).
/// What an engine knows beforehand of where its matches begin.
#[derive(Drop)]
pub struct Candidates {
    /// A needle of it lies where a match begins.
    pub needles: Option<Prefilter>,
    /// One of these bytes stands where a match begins.
    pub bytes: Option<StartBytes>,
}

impl Candidates {
    /// What is known of an NFA, with the prefilter that was handed in, if one was.
    pub fn of(nfa: &NFA, pre: Option<Prefilter>) -> Candidates
        ensures needles { result.needles ≡ pre }
        ensures known { AreOf nfa.now result }
    {
        let bytes = StartBytes::of(nfa.states(), nfa.start_anchored());
        Candidates {
            needles: pre,
            bytes,
        }
    }

    /// Whether a match may begin at the place, in a search up to `end`, by one look at the byte there.
    pub fn may_begin(&self, text: &[u8], end: usize, place: usize) -> bool
        requires { (place ≤ end) × (end ≤ length text.now) }
        ensures { result ≡ is_begun self.now text.now end place }
    {
        match &self.bytes {
            Some(bytes) => bytes.stand_at(text, end, place),
            None => true,
        }
    }

    /// The first candidate from the place on, in a search up to `end`. A candidate is a place at which a needle lies, and
    /// without needles one at which a match may begin by its byte.
    pub fn next(&self, text: &[u8], end: usize, place: usize) -> Option<usize>
        requires { (place ≤ end) × (end ≤ length text.now) }
        ensures { IsNext (is_candidate self.now text.now end) end place result }
    {
        match &self.needles {
            Some(prefilter) => next_needle(prefilter, text, end, place),
            None => match &self.bytes {
                Some(bytes) => bytes.next(text, end, place),
                None => Some(place),
            },
        }
    }
}

/// The first place from this one on at which a needle lies.
fn next_needle(prefilter: &Prefilter, text: &[u8], end: usize, place: usize) -> Option<usize>
    requires { (place ≤ end) × (end ≤ length text.now) }
    ensures { IsNext (λ i. is_some (span_at prefilter.now (take end text.now) i)) end place result }
{
    match prefilter.find(text, Span { start: place, end }) {
        Some(span) => Some(span.start),
        None => None,
    }
}
