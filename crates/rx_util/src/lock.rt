//! The lock of a stack of a pool.
ghost use Rattle.std.specs.Prelude.{◌≡◌, ◌<◌};

use crate::maker::Maker;
use crate::stack::Stack;
use atomic_table::{Play, Table, TableRule};
use std::alloc::Global;

mod calls;

/// What a lock keeps: while it is free each value on the stack is one that the maker stands for.
pub struct KeepsMade;

impl<T, M: Maker<Value = T>> TableRule<Stack<T>, M, M> for KeepsMade {
    ghost use Rattle.rx_util.specs.Lock.{KeepsMade};

    ghost holds = { λ maker. KeepsMade (M.stands_for maker) };

    ghost first = { λ maker. maker };
}

/// What a step tells that may have got the lock.
struct Holds;

impl<T, M: Maker<Value = T>> Play<Stack<T>, M> for Holds {
    ghost use Rattle.rx_util.specs.Lock.{Holds};

    ghost then = { λ _ before found after. Holds (M.stands_for before.0) before found after };
}

/// What the step tells that lets it go: nothing.
struct LetsGo;

impl<T, M: Maker<Value = T>> Play<Stack<T>, M> for LetsGo {
    ghost then = { λ _ _ _ _. Unit {0} };
}

/// A stack behind a lock, which keeps that each value on it is one that the maker stands for. The maker is known in proofs
/// alone.
#[derive(Drop)]
pub struct Lock<T: Drop, M: Maker<Value = T>> {
    table: Table<Stack<T>, M, M, KeepsMade, Global>,
    ghost word: { 0 < table.shared.table_id.words },
    ghost slot: { table.shared.table_id.slots ≡ 1 },
}
