//! What was read of a group.
ghost use Rattle.std.specs.Prelude.{◌≡◌, [], OnOk, IfOk};

use crate::ast::{Ast, Item};
use crate::flags::Flags;
use std::alloc::{AllocError, Global};
use std::mem;

/// What was read of a group so far: the branches that are done, and of the last one the items, then a run of
/// characters that stand for themselves, under the same flags.
#[derive(Drop)]
pub(crate) struct Level {
    branches: Vec<Ast>,
    items: Vec<Item>,
    flags: Flags,
    run: Vec<char>,
}

impl Level {
    ghost use Rattle.rx_reader.specs.Gathered.{gathered, nothing, push_item, push_branch, gathered_whole};
    ghost use Rattle.rx_reader.specs.Syntax.{literal};

    pub(crate) fn new(alloc: Global, flags: Flags) -> Level
        ensures { gathered result ≡ nothing }
    {
        Level {
            branches: Vec::new(alloc),
            items: Vec::new(alloc),
            flags,
            run: Vec::new(alloc),
        }
    }

    /// Ends the run of characters.
    fn end_run(&mut self) -> Result<(), AllocError>
        ensures same { OnOk result (gathered self.new ≡ gathered self.old) }
        ensures ended { OnOk result (self.new.run.items ≡ []) }
    {
        if self.run.is_empty() {
            return Ok(());
        }
        let alloc = *self.run.allocator();
        let run = mem::replace(&mut self.run, Vec::new(alloc));
        self.items.push(Item::Literals {
            flags: self.flags,
            run,
        })?;
        Ok(())
    }

    /// Lets the run be one under these flags.
    fn begin_run(&mut self, flags: Flags) -> Result<(), AllocError>
        ensures same { OnOk result (gathered self.new ≡ gathered self.old) }
        ensures flags { OnOk result (self.new.flags ≡ flags) }
    {
        if self.flags == flags {
            return Ok(());
        }
        self.end_run()?;
        self.flags = flags;
        Ok(())
    }

    /// Adds a character to the run, which the next characters under these flags go on.
    fn push_literal(&mut self, flags: Flags, character: char) -> Result<(), AllocError>
        ensures { OnOk result (gathered self.new ≡ push_item (gathered self.old) (literal flags character)) }
    {
        // A long text takes little more than its characters (DECISIONS: the reader keeps runs of literal characters in one node).
        self.begin_run(flags)?;
        self.run.push(character)?;
        Ok(())
    }

    /// Adds an item to the last branch.
    pub(crate) fn push(&mut self, item: Ast) -> Result<(), AllocError>
        ensures { OnOk result (gathered self.new ≡ push_item (gathered self.old) item) }
    {
        if let Some((flags, character)) = item.as_literal() {
            // By a call (DECISIONS: large values are let go by name).
            drop(item);
            return self.push_literal(flags, character);
        }
        if let Err(error) = self.end_run() {
            drop(item);
            return Err(error);
        }
        self.items.push(Item::One(item))?;
        Ok(())
    }

    /// Ends the last branch, and begins another.
    pub(crate) fn end_branch(&mut self) -> Result<(), AllocError>
        ensures { OnOk result (gathered self.new ≡ push_branch (gathered self.old)) }
    {
        self.end_run()?;
        let alloc = *self.items.allocator();
        let items = mem::replace(&mut self.items, Vec::new(alloc));
        self.branches.push(Ast::concat(items))?;
        Ok(())
    }

    /// All that was read of the group.
    pub(crate) fn whole(self) -> Result<Ast, AllocError>
        ensures { IfOk result (λ a. a ≡ gathered_whole (gathered self)) }
    {
        let mut level = self;
        if level.branches.is_empty() {
            level.end_run()?;
            return Ok(Ast::branch(level.items));
        }
        level.end_branch()?;
        Ok(Ast::alternation(level.branches))
    }
}
