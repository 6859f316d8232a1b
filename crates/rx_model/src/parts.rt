//! The law of the first run through the parts of an expression: choice, sequence and counts.

ghost use Rattle.std.specs.Prelude.{◌≡◌, ℕ, List, option_map};
ghost use Rattle.rx_model.specs.Expression.{Expression};
ghost use Rattle.rx_model.specs.Onward.{onward, within, IsPlain};
ghost use Rattle.rx_model.specs.Runs.{Trace};
ghost use Rattle.rx_model.specs.Search.{Patterns, first};

/// The first run ends there where the parts of the expression lead, tried in their order, each by where the first run of
/// what comes after it ends. A repetition tries its least number of copies, and then more up to its greatest number, more
/// or fewer of them first; without a greatest number there are no more copies than places, where each takes a byte
/// (`IsPlain`). One that may be empty, as in `(?:a|)*`, is left out: which run is the first there goes by what the run
/// has passed, and not by where it stands alone.
pub fn the_first_run_goes_by_the_parts()
    ensures { (r : Patterns) (text : List ℕ) (end p : ℕ) (h : Expression) → IsPlain h → (i : ℕ)
        → option_map (λ (t : Trace). t.end) (first r text end p h i) ≡ onward r.terminator text end h (within end) i }
{}
