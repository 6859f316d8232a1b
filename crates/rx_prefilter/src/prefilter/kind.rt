//! The search that a prefilter runs.
ghost use Rattle.std.specs.Prelude.{◌≡◌, ◌≢◌, ◌+◌, ◌*◌, ◌≤◌, false, [], ◌∷◌, length, map, IfOk};
ghost use Rattle.std.specs.List.{list_any};
ghost use Rattle.std.specs.Vec.{vec_items};
ghost use Rattle.rx_prefilter.specs.Bytes.{single};
ghost use Rattle.rx_prefilter.specs.Choices.{is_empty, choice_of_bytes, saturated};
ghost use Rattle.rx_prefilter.specs.Needles.{span_at, first_span};

use crate::aho_corasick::AhoCorasick;
use crate::byte_set::ByteSet;
use crate::multi::Multi;
use crate::{Choice, bytes, memmem, needles};
use memchr::memmem::{Finder, FinderBuilder};
use rx_search::{Memory, Span};
use std::alloc::Global;

/// What the clones of a prefilter share: one of the kinds of search.
#[derive(Drop)]
pub enum Kind {
    Memchr(u8),
    Memchr2(u8, u8),
    Memchr3(u8, u8, u8),
    Memmem(Finder<'static>),
    Multi(Multi),
    ByteSet(ByteSet),
    AhoCorasick(AhoCorasick),
}

impl Kind {
    ghost use Rattle.rx_prefilter.specs.Kinds.{needles_of, kind_choice, IsChosen, IsMadeFor, IsSearchFor};
    ghost use Rattle.rx_prefilter.specs.Choices.{accounted, greatest_length, is_fast};

    /// The search by the first kind that the needles fit. None exactly where there is no needle, or where one is empty.
    #[tactic(auto, unfolding(crate::specs::Choices::choice_of))]
    pub fn new(alloc: Global, needles: &[Vec<u8>]) -> Result<Option<Kind>, Memory>
        ensures { IfOk result (IsMadeFor (map vec_items needles.now)) }
    {
        if needles.is_empty() {
            return Ok(None);
        }
        if needles::has_empty(needles) {
            return Ok(None);
        }
        Ok(Some(Kind::fitting(alloc, needles)?))
    }

    /// The search by the first kind that the needles fit, of which there are some, none of them empty.
    #[tactic(auto, unfolding(crate::specs::Choices::choice_of, crate::specs::Kinds::needles_of, crate::specs::Kinds::kind_choice))]
    fn fitting(alloc: Global, needles: &[Vec<u8>]) -> Result<Kind, Memory>
        requires some { length needles.now ≢ 0 }
        requires none_empty { list_any is_empty (map vec_items needles.now) ≡ false }
        ensures { IfOk result (λ kind. (needles_of kind ≡ map vec_items needles.now) × IsChosen kind) }
    {
        if needles::are_single(needles) {
            return Ok(Kind::of_bytes(needles::first_bytes(alloc, needles)?));
        }
        if needles.len() == 1 {
            return Ok(Kind::of_needle(Vec::from_slice(alloc, &needles[0])?));
        }
        if needles.len() <= 64 {
            if needles::have_bytes(needles, 2) {
                return Ok(Kind::Multi(Multi::new(alloc, needles)?));
            }
        }
        Ok(Kind::AhoCorasick(AhoCorasick::new(alloc, needles)?))
    }

    /// The search for needles of one byte that are these bytes.
    #[tactic(auto, unfolding(crate::specs::Choices::choice_of_bytes, crate::specs::Kinds::needles_of, crate::specs::Kinds::kind_choice))]
    fn of_bytes(bytes: Vec<u8>) -> Kind
        ensures same { needles_of result ≡ map single bytes.items }
        ensures by { kind_choice result ≡ choice_of_bytes (length bytes.items) }
    {
        if bytes.len() == 1 {
            return Kind::Memchr(bytes[0]);
        }
        if bytes.len() == 2 {
            return Kind::Memchr2(bytes[0], bytes[1]);
        }
        if bytes.len() == 3 {
            return Kind::Memchr3(bytes[0], bytes[1], bytes[2]);
        }
        Kind::ByteSet(ByteSet::new(bytes))
    }

    /// The search for this one needle.
    #[tactic(auto, unfolding(crate::specs::Kinds::needles_of, crate::specs::Kinds::kind_choice))]
    fn of_needle(needle: Vec<u8>) -> Kind
        ensures same { needles_of result ≡ needle.items ∷ [] }
        ensures by { kind_choice result ≡ Choice.Memmem }
    {
        Kind::Memmem(FinderBuilder::new().build_forward_owned(needle))
    }

    /// Where the first needle of the list lies that begins at the least place from `from` on. The calls of the kit are
    /// put in line, so that nothing stands between a caller and them.
    #[inline(always)]
    #[tactic(auto, unfolding(crate::specs::Kinds::needles_of))]
    pub fn find(&self, text: &[u8], from: usize) -> Option<Span>
        requires { from ≤ length text.now }
        ensures { result ≡ first_span (needles_of self.now) text.now from }
    {
        match self {
            Kind::Memchr(a) => bytes::find(*a, text, from),
            Kind::Memchr2(a, b) => bytes::find2(*a, *b, text, from),
            Kind::Memchr3(a, b, c) => bytes::find3(*a, *b, *c, text, from),
            Kind::Memmem(finder) => memmem::find(finder, text, from),
            Kind::Multi(multi) => multi.find(text, from),
            Kind::ByteSet(set) => set.find(text, from),
            Kind::AhoCorasick(automaton) => automaton.find(text, from),
        }
    }

    /// The same of the needles that begin at `at`.
    #[tactic(auto, unfolding(crate::specs::Kinds::needles_of))]
    pub fn prefix(&self, text: &[u8], at: usize) -> Option<Span>
        requires { at ≤ length text.now }
        ensures { result ≡ span_at (needles_of self.now) text.now at }
    {
        match self {
            Kind::Memchr(a) => bytes::prefix(&[*a], text, at),
            Kind::Memchr2(a, b) => bytes::prefix(&[*a, *b], text, at),
            Kind::Memchr3(a, b, c) => bytes::prefix(&[*a, *b, *c], text, at),
            Kind::Memmem(finder) => memmem::prefix(finder, text, at),
            Kind::Multi(multi) => multi.prefix(text, at),
            Kind::ByteSet(set) => set.prefix(text, at),
            Kind::AhoCorasick(automaton) => automaton.prefix(text, at),
        }
    }

    /// Which kind it is.
    #[tactic(auto, unfolding(crate::specs::Kinds::kind_choice))]
    pub fn choice(&self) -> Choice
        ensures { result ≡ kind_choice self.now }
    {
        match self {
            Kind::Memchr(_) => Choice::Memchr,
            Kind::Memchr2(_, _) => Choice::Memchr2,
            Kind::Memchr3(_, _, _) => Choice::Memchr3,
            Kind::Memmem(_) => Choice::Memmem,
            Kind::Multi(_) => Choice::Multi,
            Kind::ByteSet(_) => Choice::ByteSet,
            Kind::AhoCorasick(_) => Choice::AhoCorasick,
        }
    }

    /// The bytes that are accounted for it.
    #[tactic(auto, unfolding(crate::specs::Kinds::kind_choice, crate::specs::Kinds::needles_of, crate::specs::Choices::accounted))]
    pub fn memory_usage(&self) -> usize
        ensures { result ≡ accounted (kind_choice self.now) (needles_of self.now) }
    {
        match self {
            Kind::Memmem(finder) => finder.needle().len(),
            Kind::Multi(multi) => needles::total_length(multi.needles()),
            Kind::AhoCorasick(automaton) => accounted_states(needles::total_length(
                automaton.needles(),
            )),
            Kind::Memchr(_) => 0,
            Kind::Memchr2(_, _) => 0,
            Kind::Memchr3(_, _, _) => 0,
            Kind::ByteSet(_) => 0,
        }
    }

    /// The length of the longest needle.
    #[tactic(auto, unfolding(crate::specs::Kinds::needles_of))]
    pub fn max_needle_len(&self) -> usize
        ensures { result ≡ greatest_length (needles_of self.now) }
    {
        match self {
            Kind::Memmem(finder) => finder.needle().len(),
            Kind::Multi(multi) => needles::greatest_length(multi.needles()),
            Kind::AhoCorasick(automaton) => needles::greatest_length(automaton.needles()),
            Kind::Memchr(_) => 1,
            Kind::Memchr2(_, _) => 1,
            Kind::Memchr3(_, _, _) => 1,
            Kind::ByteSet(set) => set.max_needle_len(),
        }
    }

    /// Whether it is expected to be fast.
    #[tactic(auto, unfolding(crate::specs::Kinds::kind_choice, crate::specs::Kinds::needles_of, crate::specs::Choices::is_fast))]
    pub fn is_fast(&self) -> bool
        ensures { result ≡ is_fast (kind_choice self.now) (needles_of self.now) }
    {
        match self {
            Kind::Multi(multi) => needles::have_bytes(multi.needles(), 3),
            Kind::Memchr(_) => true,
            Kind::Memchr2(_, _) => true,
            Kind::Memchr3(_, _, _) => true,
            Kind::Memmem(_) => true,
            Kind::ByteSet(_) => false,
            Kind::AhoCorasick(_) => false,
        }
    }
}

/// What is accounted for an automaton of needles that have so many bytes together.
fn accounted_states(total: usize) -> usize
    ensures { result ≡ saturated (1028 * (1 + total)) }
{
    total.saturating_add(1).saturating_mul(1028)
}
