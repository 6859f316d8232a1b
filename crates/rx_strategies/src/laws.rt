//! A law of what a strategy finds.
ghost use Rattle.std.specs.Prelude.{◌≡◌, ◌≤◌, length};
ghost use Rattle.rx_model.specs.Search.{Patterns};
ghost use Rattle.rx_search.specs.Input.{InputValue};
ghost use Rattle.rx_search.specs.Promise.{Premises};
ghost use Rattle.rx_search.specs.Told.{told_in};
ghost use Rattle.rx_strategies.specs.Strategy.{IsFor, finds, prefilter_in};
ghost use Rattle.rx_strategies.specs.declared.strategy.Strategy.{Strategy};

/// What a strategy finds is the next match of its patterns with all that its run writes, where matches are told.
pub fn a_strategy_finds_what_is_told()
    ensures { (s : Strategy) (r : Patterns) (v : InputValue) → v.end ≤ length v.haystack → Premises (IsFor s r) (prefilter_in s) r v → finds s v ≡ told_in r v }
{}
