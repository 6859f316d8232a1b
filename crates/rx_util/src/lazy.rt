//! Values that are made at first use.
ghost use Rattle.std.specs.Prelude.{◌≡◌, MatchResult, Some, None, IfSome};
ghost use Rattle.once_cell.specs.Once.{cell_name, Agrees};

use crate::maker::Maker;
use once_cell::race::{Note, OnceBox};
use rx_memory::Memory;
use std::alloc::Global;

/// A value that is made at first use. Where threads race for it, each may make one, and all get that of the first to finish.
#[derive(Drop)]
pub struct Lazy<T, M> {
    cell: OnceBox<T>,
    maker: M,
}

impl<T: Drop, M: Maker<Value = T>> Lazy<T, M> {
    /// A value that this maker makes at first use.
    pub fn new(alloc: Global, maker: M) -> Lazy<T, M>
        ensures { result.maker ≡ maker }
    {
        Lazy {
            cell: OnceBox::new(alloc),
            maker,
        }
    }

    /// The value, which is made now if it was not made before.
    ///
    /// # Errors
    ///
    /// Only want of memory. A later call tries again.
    pub fn get(&self, alloc: Global) -> Result<&T, Memory>
        requires { M.can_make self.now.maker }
    {
        let mut note = self.note();
        self.get_as(alloc, &mut note)
    }

    /// A note on this value, which knows nothing yet.
    pub fn note(&self) -> Note<T>
        ensures cell { result.cell ≡ cell_name self.now.cell }
        ensures known { result.known ≡ None }
    {
        self.cell.note()
    }

    /// The value, as [`Lazy::get`] gives it, for a note on it: the value that the note knows, which it does afterwards.
    ///
    /// # Errors
    ///
    /// Only want of memory, and only where the note knows no value.
    pub fn get_as<'a>(&'a self, alloc: Global, note: &mut Note<T>) -> Result<&'a T, Memory>
        requires can_make { M.can_make self.now.maker }
        requires cell { note.old.cell ≡ cell_name self.now.cell }
        ensures cell { note.new.cell ≡ note.old.cell }
        ensures value { MatchResult result (λ r. (note.new.known ≡ Some r.now) × Agrees note.old.known r.now)
            (λ _. (note.old.known ≡ None) × (note.new.known ≡ None)) }
    {
        let maker = &self.maker;
        self.cell
            .get_or_try_init_as(move || boxed(alloc, maker), note)
    }

    /// Two notes on this value that know it know the same one. It does nothing: a proof calls it.
    pub fn notes_agree(&self, one: &mut Note<T>, other: Note<T>)
        requires one { one.old.cell ≡ cell_name self.now.cell }
        requires other { other.cell ≡ cell_name self.now.cell }
        ensures same { one.new ≡ one.old }
        ensures agree { IfSome other.known (Agrees one.old.known) }
    {
        one.compare(other);
    }
}

/// A new value in a box.
fn boxed<M: Maker>(alloc: Global, maker: &M) -> Result<Box<M::Value>, Memory>
where
    M::Value: Drop,
    requires { M.can_make maker.now }
{
    let value = maker.make()?;
    Ok(Box::new(alloc, value)?)
}
