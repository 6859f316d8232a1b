//! Prefilters: searches for needles.
ghost use Rattle.std.specs.Prelude.{◌≡◌, ℕ, List, Option, map, IfOk};
ghost use Rattle.std.specs.Vec.{vec_items};
ghost use Rattle.rx_prefilter.specs.Needles.{IsPart, find_in, prefix_in};

mod kind;

use crate::Choice;
use kind::Kind;
use rx_search::{MatchKind, Memory, Span};
use std::alloc::Global;
use std::marker::Model;
use std::sync::Arc;

/// A search for the least place at which one of its needles lies. Clones share their tables.
#[derive(Drop)]
pub struct Prefilter {
    kind: Arc<Kind, Global>,
}

impl Model for Prefilter {
    ghost use Rattle.std.specs.Prelude.{ℕ, List};

    ghost Value = { List (List ℕ) };

    ghost use Rattle.std.specs.Arc.{arc_value};
    ghost use Rattle.rx_prefilter.specs.Kinds.{needles_of, IsChosen};

    ghost view = { λ p. needles_of (arc_value p.kind) };

    ghost invariant = { λ p. IsChosen (arc_value p.kind) };
}

impl Prefilter {
    ghost use Rattle.rx_prefilter.specs.Choices.{served, chosen, accounted, greatest_length, is_fast};

    /// A search for these needles, the first of which is preferred at each place. None exactly where there is no
    /// needle, or where one is empty.
    ///
    /// # Errors
    ///
    /// `Memory`, where there was no memory for the search.
    pub fn new(
        alloc: Global,
        _kind: MatchKind,
        needles: &[Vec<u8>],
    ) -> Result<Option<Prefilter>, Memory>
        ensures { IfOk result (λ made. made ≡ served (map vec_items needles.now)) }
    {
        match Kind::new(alloc, needles)? {
            Some(kind) => Ok(Some(Prefilter {
                kind: Arc::new(alloc, kind)?,
            })),
            None => Ok(None),
        }
    }

    /// Where the first needle of the list lies that begins at the least place of this part of the haystack at which one
    /// does. It ends in that part too. None exactly where there is none.
    pub fn find(&self, haystack: &[u8], span: Span) -> Option<Span>
        requires { IsPart haystack.now span }
        ensures { result ≡ find_in self.now haystack.now span }
    {
        self.kind.find(&haystack[..span.end], span.start)
    }

    /// The same of the needles that begin where the part does.
    pub fn prefix(&self, haystack: &[u8], span: Span) -> Option<Span>
        requires { IsPart haystack.now span }
        ensures { result ≡ prefix_in self.now haystack.now span }
    {
        self.kind.prefix(&haystack[..span.end], span.start)
    }

    /// The kind of search.
    pub fn choice(&self) -> Choice
        ensures { result ≡ chosen self.now }
    {
        self.kind.choice()
    }

    /// The bytes that are accounted for the search, beside those of its kind.
    pub fn memory_usage(&self) -> usize
        ensures { result ≡ accounted (chosen self.now) self.now }
    {
        self.kind.memory_usage()
    }

    /// The length of the longest needle.
    pub fn max_needle_len(&self) -> usize
        ensures { result ≡ greatest_length self.now }
    {
        self.kind.max_needle_len()
    }

    /// Whether the search is expected to be fast.
    pub fn is_fast(&self) -> bool
        ensures { result ≡ is_fast (chosen self.now) self.now }
    {
        self.kind.is_fast()
    }

    /// The same search. It shares the tables.
    ///
    /// # Errors
    ///
    /// `Memory`, where there was no memory for it.
    pub fn clone(&self) -> Result<Prefilter, Memory>
        ensures { IfOk result (λ copy. copy ≡ self.now) }
    {
        Ok(Prefilter {
            kind: Arc::try_clone(&self.kind)?,
        })
    }
}
