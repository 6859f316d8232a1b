//! A pattern as it is written: what the reader makes of a text, before it is translated.
ghost use Rattle.std.specs.Prelude.{◌≡◌, ◌+◌, ◌<◌, ◌≤◌, ◌^◌, [], ◌∷◌, IfOk, IfSome};
ghost use Rattle.rx_reader.specs.Syntax.{Syntax, literal, atom, repeated, group, cat, alt, syntaxes, depth, deepest};
ghost use Rattle.rx_reader.specs.AstViews.{expanded, literal_of, only_branch};

use crate::atom::Atom;
use crate::flags::Flags;
use crate::group_kind::GroupKind;
use crate::piece::Piece;
use std::alloc::{AllocError, Global};
use std::marker::Model;

mod kind;

/// A pattern as it is written, which a contract sees as a `Syntax`.
#[cycle(ast)]
#[derive(Drop)]
pub struct Ast {
    kind: AstKind,
    /// How deep repetitions and groups nest in it.
    nesting: u32,
}

// So translation needs no state (DECISIONS: the syntax tree keeps the flags at each atom).
/// What a pattern, or a part of one, is made of. Each atom has the flags that stand there.
#[cycle(ast)]
#[derive(Drop)]
pub enum AstKind {
    /// A character that stands for itself.
    Literal {
        flags: Flags,
        character: char,
    },
    /// Any other atom, with its piece of the pattern.
    Atom {
        flags: Flags,
        piece: Piece,
        atom: Atom,
    },
    /// A repetition. Without `max` there is no upper bound.
    Repetition {
        min: u32,
        max: Option<u32>,
        greedy: bool,
        sub: Box<Ast>,
    },
    /// A group.
    Group {
        kind: GroupKind,
        sub: Box<Ast>,
    },
    /// Items one after another.
    Concat(Vec<Item>),
    /// Branches, of which the first that matches is preferred.
    Alternation(Vec<Ast>),
    // It has no list of branches (DECISIONS: a branch that is the only one has a node of its own).
    /// A branch that is the only one: items one after another.
    Branch(Vec<Item>),
}

/// A part of a concatenation. Characters in a row that stand for themselves, under the same flags, are one
/// part, so that a long text takes little more memory than its characters.
#[cycle(ast)]
#[derive(Drop)]
pub enum Item {
    Literals { flags: Flags, run: Vec<char> },
    One(Ast),
}

impl Model for Ast {
    ghost use Rattle.std.specs.Prelude.{◌≡◌};
    ghost use Rattle.rx_reader.specs.Syntax.{Syntax, depth};
    ghost use Rattle.rx_reader.specs.Coded.{coded_syntax, syntax_size};

    ghost Value = { Syntax };

    ghost coded = { coded_syntax };

    ghost use Rattle.rx_reader.specs.AstViews.{kind_view, IsWellFormed};

    ghost view = { λ h. kind_view h.kind };

    ghost invariant = { λ h. (h.nesting ≡ depth (kind_view h.kind)) × IsWellFormed h.kind };

    ghost size = { syntax_size };

    ghost use Rattle.rx_reader.specs.AstFalls.{kind_falls};

    ghost size_decreases = { λ h _. kind_falls h.kind };
}

impl Ast {
    /// How deep repetitions and groups nest in it.
    pub fn depth(&self) -> u32
        ensures { result ≡ depth self.now }
    {
        self.nesting
    }

    /// The character with its flags, if it is one that stands for itself.
    pub(crate) fn as_literal(&self) -> Option<(Flags, char)>
        ensures { IfSome result (λ c. self.now ≡ literal_of c) }
    {
        match &self.kind {
            AstKind::Literal { flags, character } => Some((*flags, *character)),
            _ => None,
        }
    }

    pub(crate) fn literal(flags: Flags, character: char) -> Ast
        ensures { result ≡ literal flags character }
    {
        Ast {
            kind: AstKind::Literal { flags, character },
            nesting: 0,
        }
    }

    pub(crate) fn atom(flags: Flags, piece: Piece, kind: Atom) -> Ast
        ensures { result ≡ atom flags piece kind }
    {
        Ast {
            kind: AstKind::Atom {
                flags,
                piece,
                atom: kind,
            },
            nesting: 0,
        }
    }

    pub(crate) fn repetition(
        alloc: Global,
        min: u32,
        max: Option<u32>,
        greedy: bool,
        sub: Ast,
    ) -> Result<Ast, AllocError>
        requires shallow { depth sub + 1 < 2 ^ 32 }
        requires in_order { IfSome max (λ m. min ≤ m) }
        ensures { IfOk result (λ a. a ≡ repeated min max greedy sub) }
    {
        let nesting = sub.depth() + 1;
        Ok(Ast {
            kind: AstKind::Repetition {
                min,
                max,
                greedy,
                sub: Box::new(alloc, sub)?,
            },
            nesting,
        })
    }

    pub(crate) fn group(alloc: Global, kind: GroupKind, sub: Ast) -> Result<Ast, AllocError>
        requires { depth sub + 1 < 2 ^ 32 }
        ensures { IfOk result (λ a. a ≡ group kind sub) }
    {
        let nesting = sub.depth() + 1;
        Ok(Ast {
            kind: AstKind::Group {
                kind,
                sub: Box::new(alloc, sub)?,
            },
            nesting,
        })
    }

    pub(crate) fn concat(items: Vec<Item>) -> Ast
        ensures { result ≡ cat (syntaxes (expanded items.items)) }
    {
        let mut items = items;
        items.shrink_to_fit();
        let nesting = deepest_item(&items);
        Ast {
            kind: AstKind::Concat(items),
            nesting,
        }
    }

    /// The only branch of a group, or of a pattern.
    pub(crate) fn branch(items: Vec<Item>) -> Ast
        ensures { result ≡ only_branch items.items }
    {
        let mut items = items;
        items.shrink_to_fit();
        let nesting = deepest_item(&items);
        Ast {
            kind: AstKind::Branch(items),
            nesting,
        }
    }

    pub(crate) fn alternation(branches: Vec<Ast>) -> Ast
        ensures { result ≡ alt (syntaxes branches.items) }
    {
        let mut branches = branches;
        branches.shrink_to_fit();
        let nesting = deepest(&branches);
        Ast {
            kind: AstKind::Alternation(branches),
            nesting,
        }
    }
}

fn deepest(asts: &[Ast]) -> u32
    ensures { result ≡ deepest (syntaxes asts.now) }
{
    let mut most = 0;
    for ast in asts {
        most = most.max(ast.depth());
    }
    most
}

impl Item {
    fn depth(&self) -> u32
        ensures { result ≡ deepest (syntaxes (expanded (self.now ∷ []))) }
    {
        match self {
            Item::Literals { .. } => 0,
            Item::One(ast) => ast.depth(),
        }
    }
}

fn deepest_item(items: &[Item]) -> u32
    ensures { result ≡ deepest (syntaxes (expanded items.now)) }
{
    let mut most = 0;
    for item in items {
        most = most.max(item.depth());
    }
    most
}
