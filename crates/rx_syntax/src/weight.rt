//! What a pattern weighs, found over its syntax before an expression is made: how the weights of parts make that of
//! the whole. They go through the normal forms of the constructors of `Hir`.
ghost use Rattle.std.specs.Prelude.{◌≡◌, ◌≢◌, ◌≤◌, IfSome, Some};
ghost use Rattle.std.specs.Int.NonZero.{non_zero_usize_get};
ghost use Rattle.rx_model.specs.Expression.{empty};
ghost use Rattle.rx_hir.specs.Cost.{capped, states_of_copies};
ghost use Rattle.rx_hir.specs.HirViews.{kind_view};
ghost use Rattle.rx_hir.specs.Length.{maximum_len};
ghost use Rattle.rx_hir.specs.Normal.{fail, is_zero};
ghost use Rattle.rx_syntax.specs.Weight.{shape_of, weight_of, is_nothing, in_row, followed, alternatives_in, either, either_of, choice_weight, some_copies, copies, repeated, captured, grouped, IsAtom};

mod known;
mod list;
mod syntax;

pub use list::{weigh_all, weigh_each};
use rx_hir::{Hir, HirKind, accounted_states};
use rx_reader::GroupKind;
use std::num::NonZeroUsize;

/// What several patterns weigh.
#[derive(Clone, Copy, Debug, PartialEq, Eq)]
pub struct Weights {
    /// How many slots a match of them has, or the greatest `usize`.
    pub slots: usize,
    /// How many states are accounted for their NFA, or the greatest `usize`.
    pub states: usize,
}

// A weight need not hold its parts (DECISIONS: a row of parts is none, one or more).
/// What an expression is to a concatenation or an alternation around it.
#[derive(Clone, Copy)]
pub(crate) enum Shape {
    /// The empty expression, which adds nothing to a concatenation.
    Empty,
    /// An alternation, with the states of its alternatives.
    Alternatives(u64),
    /// Any other.
    Other,
}

/// What an expression weighs. Numbers of states saturate at the greatest `u64`.
#[derive(Clone, Copy)]
pub(crate) struct Weight {
    /// The states that are accounted for it.
    states: u64,
    shape: Shape,
    /// Its greatest length is 0.
    is_null: bool,
    /// The greatest number of a group that stands in it.
    greatest_group: usize,
}

impl Shape {
    fn is_nothing(self) -> bool
        ensures { result ≡ is_nothing self }
    {
        match self {
            Shape::Empty => true,
            Shape::Alternatives(_) => false,
            Shape::Other => false,
        }
    }
}

impl Weight {
    fn empty() -> Weight
        ensures { result ≡ weight_of empty }
    {
        Weight {
            states: 1,
            shape: Shape::Empty,
            is_null: true,
            greatest_group: 0,
        }
    }

    /// That of what nothing matches.
    fn fail() -> Weight
        ensures { result ≡ weight_of fail }
    {
        Weight {
            states: 1,
            shape: Shape::Other,
            is_null: false,
            greatest_group: 0,
        }
    }

    /// That of an expression without parts.
    fn of(hir: &Hir) -> Weight
        requires { IsAtom hir.now }
        ensures { result ≡ weight_of hir.now }
    {
        Weight {
            states: accounted_states(hir),
            shape: shape_of(hir.kind()),
            is_null: has_no_length(hir),
            greatest_group: 0,
        }
    }

    /// The same, of an expression that was made to be weighed: it is let go.
    fn of_made(hir: Hir) -> Weight
        requires { IsAtom hir }
        ensures { result ≡ weight_of hir }
    {
        Weight::of(&hir)
    }

    /// One after another.
    fn followed(self, next: Weight) -> Weight
        ensures { result ≡ followed self next }
    {
        if self.shape.is_nothing() {
            return next;
        }
        if next.shape.is_nothing() {
            return self;
        }
        Weight {
            states: self.states.saturating_add(next.states),
            shape: Shape::Other,
            is_null: self.is_null && next.is_null,
            greatest_group: self.greatest_group.max(next.greatest_group),
        }
    }

    /// What it adds to the states of an alternation around it.
    fn alternatives(self) -> u64
        ensures { result ≡ alternatives_in self.shape self.states }
    {
        match self.shape {
            Shape::Empty => self.states,
            Shape::Alternatives(states) => states,
            Shape::Other => self.states,
        }
    }

    /// One or the other.
    fn either(self, next: Weight) -> Weight
        ensures { result ≡ either self next }
    {
        let states = self.alternatives().saturating_add(next.alternatives());
        Weight {
            states: states.saturating_add(1),
            shape: Shape::Alternatives(states),
            is_null: self.is_null && next.is_null,
            greatest_group: self.greatest_group.max(next.greatest_group),
        }
    }

    /// Copies of it. Where its greatest length is 0, there is at most one; no copies are the empty expression, and just
    /// one is the body.
    fn repeated(self, least: u32, greatest: Option<u32>) -> Weight
        requires { IfSome greatest (λ m. least ≤ m) }
        ensures { result ≡ repeated least greatest self }
    {
        if self.is_null {
            let most = greatest.map_or(1, |m| m.min(1));
            return self.copies(least.min(1), Some(most));
        }
        self.copies(least, greatest)
    }

    fn copies(self, least: u32, greatest: Option<u32>) -> Weight
        requires { IfSome greatest (λ m. least ≤ m) }
        ensures { result ≡ copies least greatest self }
    {
        match greatest {
            Some(0) => Weight::empty(),
            Some(1) if least == 1 => self,
            _ => self.some_copies(least, greatest),
        }
    }

    fn some_copies(self, least: u32, greatest: Option<u32>) -> Weight
        ensures { result ≡ some_copies least greatest self }
    {
        Weight {
            states: states_of_copies(least, greatest, self.states),
            shape: Shape::Other,
            is_null: self.is_null,
            greatest_group: self.greatest_group,
        }
    }

    /// That of the group, or of its body alone where it does not capture.
    fn grouped(self, kind: &GroupKind) -> Weight
        ensures { result ≡ grouped kind.now self }
    {
        match kind {
            GroupKind::NonCapturing => self,
            GroupKind::CaptureIndex(index) => self.captured(*index),
            GroupKind::CaptureName { index, .. } => self.captured(*index),
        }
    }

    fn captured(self, index: NonZeroUsize) -> Weight
        ensures { result ≡ captured (non_zero_usize_get index) self }
    {
        Weight {
            states: self.states.saturating_add(2),
            shape: Shape::Other,
            is_null: self.is_null,
            greatest_group: index.get().max(self.greatest_group),
        }
    }
}

/// One or the other, where there is one before.
fn either_of(before: Option<Weight>, next: Weight) -> Weight
    ensures { result ≡ either_of before next }
{
    match before {
        None => next,
        Some(before) => before.either(next),
    }
}

/// What was chosen from; nothing matches where there was nothing.
fn choice_weight(whole: Option<Weight>) -> Weight
    ensures { result ≡ choice_weight whole }
{
    match whole {
        None => Weight::fail(),
        Some(weight) => weight,
    }
}

fn shape_of(kind: &HirKind) -> Shape
    requires { IsAtom (kind_view kind.now) }
    ensures { result ≡ shape_of (kind_view kind.now) }
{
    match kind {
        HirKind::Empty => Shape::Empty,
        HirKind::Literal(_) => Shape::Other,
        HirKind::Class(_) => Shape::Other,
        HirKind::Look(_) => Shape::Other,
        HirKind::Repetition(_) => Shape::Other,
        HirKind::Capture(_) => Shape::Other,
        HirKind::Concat(_) => Shape::Other,
        HirKind::Alternation(_) => Shape::Other,
    }
}

fn has_no_length(hir: &Hir) -> bool
    ensures { result ≡ is_zero (maximum_len hir.now) }
{
    match hir.maximum_len() {
        Some(len) => len == 0,
        None => false,
    }
}

/// The states of so many copies of a body of so many.
fn states_of_copies(least: u32, greatest: Option<u32>, body: u64) -> u64
    ensures { result ≡ capped (states_of_copies least greatest body) }
{
    match greatest {
        None if least == 0 => body.saturating_add(2),
        None => (least as u64).saturating_mul(body).saturating_add(1),
        Some(greatest) => {
            let options = u64::from(greatest.saturating_sub(least));
            u64::from(greatest)
                .saturating_mul(body)
                .saturating_add(options + 1)
        }
    }
}
