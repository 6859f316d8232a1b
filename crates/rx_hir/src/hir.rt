//! Expressions.
ghost use Rattle.std.specs.Prelude.{◌≡◌, ◌≢◌, ◌<◌, ◌≤◌, IfSome, Some, option_map, string_bytes};
ghost use Rattle.std.specs.Int.NonZero.{non_zero_usize_get};
ghost use Rattle.rx_model.specs.Expression.{empty, look, repetition, capture};
ghost use Rattle.rx_model.specs.Length.{minimum_len};
ghost use Rattle.rx_search.specs.Look.{kind_of};
ghost use Rattle.rx_hir.specs.Length.{maximum_len, saturated, in_64_bits};
ghost use Rattle.rx_hir.specs.Normal.{fail, literal_of, copies_of, repetition_of};

mod alternation;
mod concat;
mod copy;
mod emptiness;
mod equality;
mod groups;
mod kind;
mod laws;
mod names;
mod parts;
mod properties;
mod set;

pub use emptiness::{can_be_empty, one_can_be_empty};
pub use groups::greatest_group;
pub use laws::{
    lengths_bound_the_meaning, look_sets_hold_at_the_ends, normal_forms_add_no_names,
    normal_forms_keep_the_meaning, normal_forms_keep_utf8, sound_expressions_are_ordered,
    told_names_stand, utf8_expressions_mean_utf8,
};
pub use names::group_names;
pub use properties::Properties;
use rx_class::{Class, ClassBytes};
use rx_search::Look;
use std::alloc::Global;
use std::marker::Model;
use std::num::NonZeroUsize;

/// A regular expression, which a contract sees as an `Expression`. Only the constructors make one: no literal
/// in it is without bytes, and the counts of each repetition are in order.
#[cycle(hir)]
#[derive(Drop)]
pub struct Hir {
    kind: HirKind,
    properties: Properties,
}

/// What an expression is made of.
#[cycle(hir)]
#[derive(Drop)]
pub enum HirKind {
    /// The empty text.
    Empty,
    /// These bytes.
    Literal(Vec<u8>),
    /// A member of the class.
    Class(Class),
    /// The empty text, where this look-around holds.
    Look(Look),
    /// Copies of the body, one after another.
    Repetition(Repetition),
    // Its number is above 0 by its type (DECISIONS: a group's number is a `NonZeroUsize`).
    /// A capture group.
    Capture(Capture),
    /// One after another.
    Concat(Vec<Hir>),
    /// One of these, the first preferred.
    Alternation(Vec<Hir>),
}

/// From `min` to `max` copies of the body, or `min` and more. More copies are preferred where it is greedy,
/// else fewer.
#[cycle(hir)]
#[derive(Drop)]
pub struct Repetition {
    /// The least number of copies.
    pub min: u32,
    /// The greatest number of copies. None: there is no bound.
    pub max: Option<u32>,
    /// Whether more copies are preferred.
    pub greedy: bool,
    /// The body.
    pub sub: Box<Hir>,
}

/// The group of this number, from 1 on, and of this name.
#[cycle(hir)]
#[derive(Drop)]
pub struct Capture {
    /// The group's number.
    pub index: NonZeroUsize,
    /// The group's name, if it has one.
    pub name: Option<String>,
    /// The body.
    pub sub: Box<Hir>,
}

impl Model for Hir {
    ghost use Rattle.std.specs.Prelude.{◌≡◌};
    ghost use Rattle.rx_model.specs.Expression.{Expression};
    ghost use Rattle.rx_model.specs.Coded.{coded_expression};
    ghost use Rattle.rx_hir.specs.Depth.{depth};
    ghost use Rattle.rx_hir.specs.PropertiesViews.{AreOf};
    ghost use Rattle.rx_hir.specs.Sound.{IsSound};

    ghost Value = { Expression };

    ghost coded = { coded_expression };

    ghost use Rattle.rx_hir.specs.HirViews.{kind_view};

    ghost view = { λ h. kind_view h.kind };

    ghost invariant = { λ h. AreOf (kind_view h.kind) h.properties × IsSound (kind_view h.kind) };

    ghost size = { depth };

    ghost use Rattle.rx_hir.specs.HirFalls.{kind_falls};

    ghost size_decreases = { λ h _. kind_falls h.kind };
}

impl Hir {
    /// The empty expression.
    pub fn empty() -> Hir
        ensures { result ≡ empty }
    {
        Hir {
            kind: HirKind::Empty,
            properties: Properties::of_empty(),
        }
    }

    /// What nothing matches: the class of bytes without members.
    pub fn fail(alloc: Global) -> Hir
        ensures { result ≡ fail }
    {
        Hir {
            kind: HirKind::Class(Class::Bytes(ClassBytes::empty(alloc))),
            properties: Properties::of_fail(),
        }
    }

    /// The literal of these bytes; of none, the empty expression.
    pub fn literal(bytes: Vec<u8>) -> Hir
        ensures { result ≡ literal_of bytes.items }
    {
        if bytes.is_empty() {
            return Hir::empty();
        }
        let properties = Properties::of_literal(&bytes);
        Hir {
            kind: HirKind::Literal(bytes),
            properties,
        }
    }

    /// The empty text at each place where the look-around holds.
    pub fn look(kind: Look) -> Hir
        ensures { result ≡ look (kind_of kind) }
    {
        Hir {
            kind: HirKind::Look(kind),
            properties: Properties::of_look(kind),
        }
    }

    /// Copies of an expression. Where only the empty text can match the body, there is at most one copy. No
    /// copies are the empty expression, and just one copy is the body.
    pub fn repetition(repetition: Repetition) -> Hir
        requires { IfSome repetition.max (λ m. repetition.min ≤ m) }
        ensures { result ≡ repetition_of repetition.min repetition.max repetition.greedy repetition.sub.value }
    {
        let mut repetition = repetition;
        if repetition.sub.maximum_len() == Some(0) {
            repetition.min = repetition.min.min(1);
            repetition.max = Some(repetition.max.map_or(1, |m| m.min(1)));
        }
        copies(repetition)
    }

    /// The capture group of this number, with its name.
    pub fn capture(group: Capture) -> Hir
        ensures { result ≡ capture (non_zero_usize_get group.index) (option_map string_bytes group.name) group.sub.value }
    {
        let properties = group.sub.properties.captured();
        Hir {
            kind: HirKind::Capture(group),
            properties,
        }
    }

    /// The least length in bytes of what the expression matches, or the greatest `usize` where it is above.
    /// None: no bound is known.
    pub fn minimum_len(&self) -> Option<usize>
        ensures { result ≡ saturated (minimum_len self.now) }
    {
        self.properties.minimum_len()
    }

    /// The greatest length in bytes of what the expression matches. None: no bound is known, or it is above
    /// the greatest `usize`.
    pub fn maximum_len(&self) -> Option<usize>
        ensures { result ≡ in_64_bits (maximum_len self.now) }
    {
        self.properties.maximum_len()
    }
}

fn copies(repetition: Repetition) -> Hir
    requires { IfSome repetition.max (λ m. repetition.min ≤ m) }
    ensures { result ≡ copies_of repetition.min repetition.max repetition.greedy repetition.sub.value }
{
    match repetition.max {
        Some(0) => Hir::empty(),
        Some(1) if repetition.min == 1 => Box::into_inner(repetition.sub),
        _ => some_copies(repetition),
    }
}

fn some_copies(copies: Repetition) -> Hir
    requires some { copies.max ≢ Some 0 }
    requires ordered { IfSome copies.max (λ m. copies.min ≤ m) }
    ensures { result ≡ repetition copies.min copies.max copies.greedy copies.sub.value }
{
    let properties = copies.sub.properties.repeated(copies.min, copies.max);
    Hir {
        kind: HirKind::Repetition(copies),
        properties,
    }
}
