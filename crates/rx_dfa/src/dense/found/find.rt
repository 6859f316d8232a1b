//! How the state of a key is found.
ghost use Rattle.std.specs.Prelude.{◌≡◌, ◌+◌, ◌*◌, ◌<◌, ◌≤◌, ℕ, true, false, [], ◌∷◌, ◌++◌, length, None, Some, IfOk, IfErr, OnOk, OnErr, IfSome, IfNone, slice_get};
ghost use Rattle.rx_determinize.specs.Key.{is_dead as is_dead_key};
ghost use Rattle.rx_dfa.specs.Automaton.{Dfa, no_key};
ghost use Rattle.rx_dfa.specs.StateKey.{key_of};
ghost use Rattle.rx_dfa.specs.States.{is_special, IsState};
ghost use Rattle.rx_dfa.specs.Numbers.{second};
ghost use Rattle.rx_dfa.specs.Dense.{IsWithin, IsRefused};
ghost use Rattle.rx_dfa.specs.Found.{keys_in, IsNumber, AreFound, Stays, Grows, IsNew, IsAdded, IsOver, IsMade};

use crate::dense::error::BuildError;
use crate::dense::found::Found;
use crate::dense::numbers::SECOND;
use crate::state_key::{StateKey, make};
use indexmap::IndexSet;
use rx_search::StateID;
use std::alloc::Global;

impl Found {
    /// The dead state alone.
    pub fn new(alloc: Global, stride: usize, limit: Option<usize>) -> Result<Found, BuildError>
        requires some { 0 < stride }
        requires narrow { stride ≤ 512 }
        ensures found { (d : Dfa) → IsState d (no_key None) → IfOk result (AreFound d) }
        ensures same { IfOk result (λ f. (f.stride ≡ stride) × (f.limit ≡ limit)) }
        ensures err { (d : Dfa) → IsState d (no_key None) → IfErr result (IsRefused d stride limit) }
    {
        admit(1, stride, limit)?;
        let mut special = IndexSet::new(alloc);
        append(alloc, &mut special, &make::empty(alloc))?;
        let plain = IndexSet::new(alloc);
        Ok(Found {
            plain,
            special,
            stride,
            limit,
            alloc,
        })
    }

    /// The number of the state of this key. If it was not found yet, it is now.
    pub fn find(&mut self, key: &StateKey) -> Result<StateID, BuildError>
        ensures grows { Grows self.old self.new }
        ensures made { (d : Dfa) → AreFound d self.old → (is_dead_key (key_of key.now) ≡ false → IsState d (key_of key.now))
            → IsMade d self.old self.new (λ number. IsNumber self.new number (key_of key.now)) result }
    {
        if is_dead(key) {
            return number(SECOND, 0, self.stride);
        }
        if key.matches.is_empty() {
            return self.find_plain(key);
        }
        self.find_special(key)
    }

    /// The number of this key's state, which tells no match.
    fn find_plain(&mut self, key: &StateKey) -> Result<StateID, BuildError>
        ensures grows { Grows self.old self.new }
        ensures made { (d : Dfa) → AreFound d self.old → IsState d (key_of key.now) → is_dead_key (key_of key.now) ≡ false
            → is_special (key_of key.now) ≡ false → IsMade d self.old self.new (λ number. IsNumber self.new number (key_of key.now)) result }
    {
        let others = self.special.len();
        let row = row_of(
            self.alloc,
            &mut self.plain,
            key,
            others,
            self.stride,
            self.limit,
        )?;
        number(0, row, self.stride)
    }

    /// The number of this key's state, which tells a match.
    fn find_special(&mut self, key: &StateKey) -> Result<StateID, BuildError>
        ensures grows { Grows self.old self.new }
        ensures made { (d : Dfa) → AreFound d self.old → IsState d (key_of key.now) → is_dead_key (key_of key.now) ≡ false
            → is_special (key_of key.now) ≡ true → IsMade d self.old self.new (λ number. IsNumber self.new number (key_of key.now)) result }
    {
        let others = self.plain.len();
        let row = row_of(
            self.alloc,
            &mut self.special,
            key,
            others,
            self.stride,
            self.limit,
        )?;
        number(SECOND, row, self.stride)
    }
}

/// Whether neither a thread is left, nor the loop, nor a match.
fn is_dead(key: &StateKey) -> bool
    ensures { result ≡ is_dead_key (key_of key.now) }
{
    if key.loops {
        return false;
    }
    if !key.threads.is_empty() {
        return false;
    }
    key.matches.is_empty()
}

/// The number of the state of this row.
fn number(first: usize, row: usize, stride: usize) -> Result<StateID, BuildError>
    requires first { first ≤ 1073741824 }
    requires row { row * stride < 1073741824 }
    ensures number { IfOk result (λ state. state ≡ first + row * stride) }
    ensures err { IfErr result (λ e. e ≡ BuildError.Memory) }
{
    match StateID::new(first + row * stride) {
        Some(state) => Ok(state),
        None => Err(BuildError::Memory),
    }
}

/// The row of this key, which is appended if it is not there, where the other sort has so many states.
fn row_of(
    alloc: Global,
    keys: &mut IndexSet<StateKey>,
    key: &StateKey,
    others: usize,
    stride: usize,
    limit: Option<usize>,
) -> Result<usize, BuildError>
    requires narrow { stride ≤ 512 }
    requires room { length keys.old.keys * stride < 1073741824 }
    requires other_room { others * stride < 1073741824 }
    requires few { others < 1073741824 }
    requires some { 0 < stride }
    ensures added { IsAdded (keys_in keys.old.keys) (key_of key.now) (keys_in keys.new.keys) }
    ensures row { IfOk result (λ row. slice_get (keys_in keys.new.keys) row ≡ Some (key_of key.now)) }
    ensures room { length keys.new.keys * stride < 1073741824 }
    ensures within { IsWithin stride limit (length keys.old.keys + others) → IsWithin stride limit (length keys.new.keys + others) }
    ensures absent { OnErr result (IsNew (keys_in keys.old.keys) (key_of key.now)) }
    ensures err { IfErr result (IsOver stride limit (length keys.old.keys + others + 1)) }
{
    if let Some(row) = position(keys, key) {
        return Ok(row);
    }
    admit(keys.len() + others + 1, stride, limit)?;
    if (keys.len() + 1) * stride >= SECOND {
        return Err(BuildError::Memory);
    }
    append(alloc, keys, key)
}

/// Refuses a table of so many states and of the one in which it quits, if it is above the limit.
fn admit(states: usize, stride: usize, limit: Option<usize>) -> Result<(), BuildError>
    requires narrow { stride ≤ 512 }
    requires few { states * stride ≤ 2147483648 + 512 }
    requires states { states ≤ 2147483649 }
    ensures ok { OnOk result (IsWithin stride limit states) }
    ensures err { IfErr result (IsOver stride limit states) }
{
    let Some(limit) = limit else {
        return Ok(());
    };
    let size = 4 * ((states + 1) * stride);
    if size > limit {
        return Err(BuildError::TooBig { limit, size });
    }
    Ok(())
}

/// The place of the key, if it is there.
pub fn position(keys: &IndexSet<StateKey>, key: &StateKey) -> Option<usize>
    ensures some { IfSome result (λ row. slice_get (keys_in keys.now.keys) row ≡ Some (key_of key.now)) }
    ensures none { IfNone result (IsNew (keys_in keys.now.keys) (key_of key.now)) }
{
    keys.get_index_of(key)
}

/// Appends the key, which is not there.
pub fn append(
    alloc: Global,
    keys: &mut IndexSet<StateKey>,
    key: &StateKey,
) -> Result<usize, BuildError>
    requires { IsNew (keys_in keys.old.keys) (key_of key.now) }
    ensures row { IfOk result (λ row. slice_get (keys_in keys.new.keys) row ≡ Some (key_of key.now)) }
    ensures keys { OnOk result (keys_in keys.new.keys ≡ keys_in keys.old.keys ++ key_of key.now ∷ []) }
    ensures unchanged { OnErr result (keys.new.keys ≡ keys.old.keys) }
    ensures err { IfErr result (λ e. e ≡ BuildError.Memory) }
{
    let mut own = make::empty(alloc);
    make::copy(key, &mut own)?;
    let (row, _) = keys.insert_full(own)?;
    Ok(row)
}
