//! A law of the inputs that are not searched.
ghost use Rattle.std.specs.Prelude.{◌≡◌, ℕ, ◌≤◌, true, length, slice_get, Some, None};
ghost use Rattle.rx_model.specs.Expression.{Expression, AreOrdered};
ghost use Rattle.rx_model.specs.Search.{Patterns};
ghost use Rattle.rx_search.specs.Input.{InputValue, next_in};
ghost use Rattle.rx_strategy.specs.Impossible.{is_impossible};

/// Where it is known that no pattern has a match in an input's span, there is no next match of them. The counts of each
/// repetition are in order, as they are in each `Hir`.
pub fn impossible_inputs_have_no_match()
    ensures { (r : Patterns) (v : InputValue) → ((p : ℕ) (h : Expression) → slice_get r.expressions p ≡ Some h → AreOrdered h)
        → v.end ≤ length v.haystack → is_impossible r.expressions v ≡ true → next_in r v ≡ None }
{}
