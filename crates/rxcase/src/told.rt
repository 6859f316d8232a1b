//! How answers are written.

use crate::call::Call;
use crate::failure::Failure;
use rx_search::{HalfMatch, Match, MatchError, NonMaxUsize, PatternID, PatternSet};
use std::alloc::{AllocError, Global};
use std::fmt::Write;

/// What is told, or why nothing is: the first failure.
#[derive(Drop)]
pub struct Told {
    text: String,
    failure: Option<Failure>,
}

impl Told {
    /// Nothing yet.
    pub fn new(alloc: Global) -> Told {
        Told {
            text: String::new(alloc),
            failure: None,
        }
    }

    /// What is told.
    ///
    /// # Errors
    ///
    /// Why nothing is.
    pub fn text(&self) -> Result<&str, Failure> {
        match self.failure {
            Some(failure) => Err(failure),
            None => Ok(self.text.as_str()),
        }
    }

    /// How many bytes were told.
    pub fn len(&self) -> usize {
        self.text.len()
    }

    /// Tells nothing, if nothing failed before.
    pub fn refuse(&mut self, failure: Failure) {
        if self.failure.is_none() {
            self.failure = Some(failure);
        }
    }

    /// Tells nothing where the engine was refused.
    pub fn end(&mut self, ended: Result<(), Failure>) {
        if let Err(failure) = ended {
            self.refuse(failure);
        }
    }

    /// Tells nothing where this took more memory than there is.
    fn note(&mut self, written: Result<(), AllocError>) {
        if written.is_err() {
            self.refuse(Failure::Memory);
        }
    }

    /// Appends a text.
    pub fn push(&mut self, text: &str) {
        let written = self.text.push_str(text);
        self.note(written);
    }

    /// Appends a place and a pattern: `5 of 0`.
    fn push_of(&mut self, place: usize, pattern: PatternID) {
        let written = write!(self.text, "{place} of {}\n", pattern.as_usize());
        self.note(written);
    }

    /// Appends a match: `3..5 of 0`.
    pub fn tell_match(&mut self, found: Result<Option<Match>, MatchError>) {
        match found {
            Ok(Some(found)) => {
                let written = write!(self.text, "{}..", found.start());
                self.note(written);
                self.push_of(found.end(), found.pattern());
            }
            Ok(None) => self.push("none\n"),
            Err(error) => self.tell_error(error),
        }
    }

    /// Appends an end, or a start: `5 of 0`.
    pub fn tell_half(&mut self, found: Result<Option<HalfMatch>, MatchError>) {
        match found {
            Ok(Some(half)) => self.push_of(half.offset(), half.pattern()),
            Ok(None) => self.push("none\n"),
            Err(error) => self.tell_error(error),
        }
    }

    /// Appends the end of a match.
    pub fn tell_end(&mut self, found: Result<Option<Match>, MatchError>) {
        match found {
            Ok(Some(found)) => self.push_of(found.end(), found.pattern()),
            Ok(None) => self.push("none\n"),
            Err(error) => self.tell_error(error),
        }
    }

    /// Appends a number of bytes.
    pub fn tell_bytes(&mut self, bytes: usize) {
        let written = write!(self.text, "{bytes} bytes\n");
        self.note(written);
    }

    /// Appends whether there is a match.
    pub fn tell_test(&mut self, is_there: bool) {
        self.push(if is_there { "yes\n" } else { "no\n" });
    }

    /// Appends why a search came to no end: `quit 206 at 4`. Tells nothing where that is want of memory.
    pub fn tell_error(&mut self, error: MatchError) {
        let written = match error {
            MatchError::Quit { byte, offset } => write!(self.text, "quit {byte} at {offset}\n"),
            MatchError::GaveUp { offset } => write!(self.text, "gave up at {offset}\n"),
            MatchError::HaystackTooLong { len } => write!(self.text, "too long: {len}\n"),
            MatchError::UnsupportedAnchored { .. } => self.text.push_str("no such mode\n"),
            MatchError::Memory => {
                self.refuse(Failure::Memory);
                return;
            }
        };
        self.note(written);
    }

    /// Appends a match among others: `0:3..5`, with a space before it.
    pub fn tell_one(&mut self, found: Match, is_first: bool) {
        if !is_first {
            self.push(" ");
        }
        let pattern = found.pattern().as_usize();
        let written = write!(self.text, "{pattern}:{}..{}", found.start(), found.end());
        self.note(written);
    }

    /// Appends the numbers of the patterns: `0 2`.
    pub fn tell_set(&mut self, set: &PatternSet) {
        if set.is_empty() {
            self.push("none");
        }
        let mut is_first = true;
        for pattern in set.iter() {
            if !is_first {
                self.push(" ");
            }
            is_first = false;
            let written = write!(self.text, "{}", pattern.as_usize());
            self.note(written);
        }
        self.push("\n");
    }

    /// Appends what a search left in the slots: their spans, or what stands in each of them.
    pub fn tell_slots(
        &mut self,
        call: Call,
        pattern: Option<PatternID>,
        slots: &[Option<NonMaxUsize>],
    ) {
        if call == Call::Slots {
            self.tell_groups(pattern, slots);
        } else {
            self.tell_places(pattern, slots);
        }
    }

    /// Appends why a search came to no end, and what stands in each slot, where that is asked for.
    pub fn tell_error_and_slots(
        &mut self,
        call: Call,
        error: MatchError,
        slots: &[Option<NonMaxUsize>],
    ) {
        self.tell_error(error);
        if call == Call::Places {
            self.tell_places(None, slots);
        }
    }

    /// Appends the pattern and, for each two slots, their span: `0: 3..5 -`.
    fn tell_groups(&mut self, pattern: Option<PatternID>, slots: &[Option<NonMaxUsize>]) {
        let Some(pattern) = pattern else {
            self.push("none\n");
            return;
        };
        self.push_pattern(pattern);
        for k in 0..slots.len() / 2 {
            self.push_group(slots[2 * k], slots[2 * k + 1]);
        }
        self.push("\n");
    }

    fn push_pattern(&mut self, pattern: PatternID) {
        let written = write!(self.text, "{}:", pattern.as_usize());
        self.note(written);
    }

    fn push_group(&mut self, start: Option<NonMaxUsize>, end: Option<NonMaxUsize>) {
        let written = match (start, end) {
            (Some(start), Some(end)) => write!(self.text, " {}..{}", start.get(), end.get()),
            (None, None) => self.text.push_str(" -"),
            _ => self.text.push_str(" ?"),
        };
        self.note(written);
    }

    /// Appends the pattern, if there is a match, and what stands in each slot: `0: 3 5 -`.
    fn tell_places(&mut self, pattern: Option<PatternID>, slots: &[Option<NonMaxUsize>]) {
        match pattern {
            Some(pattern) => self.push_pattern(pattern),
            None => self.push("none:"),
        }
        for slot in slots {
            self.push_place(*slot);
        }
        self.push("\n");
    }

    fn push_place(&mut self, slot: Option<NonMaxUsize>) {
        let written = match slot {
            Some(place) => write!(self.text, " {}", place.get()),
            None => self.text.push_str(" -"),
        };
        self.note(written);
    }
}
