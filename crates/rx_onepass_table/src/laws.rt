//! The laws of the walk along a table.
ghost use Rattle.std.specs.Prelude.{◌≡◌, ℕ, suc, ◌+◌, ◌<◌, List, true, false, slice_index};
ghost use Rattle.rx_model.specs.Runs.{Sieve, everywhere, ending_at};
ghost use Rattle.rx_nfa.specs.Nfa.{Nfa, IsInRange};
ghost use Rattle.rx_onepass_table.specs.Along.{walk, farthest, first_from, BothTellSame};
ghost use Rattle.rx_onepass_table.specs.Rows.{TableValue, IsRowOf, IsTableOf};

/// Wherever acceptance is permitted, the first run from the state of a row tells the same as the walk along the rows: its pattern,
/// its end, and what each explicit slot holds.
pub fn the_walk_tells_the_first_run()
    ensures { (nfa : Nfa) → IsInRange nfa → (entries : List ℕ) (t : TableValue) → IsTableOf nfa entries t
        → (ok : Sieve) (text : List ℕ) (n place : ℕ) → ((k : ℕ) → k < place + n → slice_index text k < 256)
        → (row entry : ℕ) → IsRowOf entries row entry
        → BothTellSame nfa (first_from nfa ok text (place + n) entry place) (walk nfa t true ok text n place row) }
{}

/// Of the first runs to each end the one of the farthest end tells the same as the walk on which no match wins.
pub fn the_walk_tells_the_run_of_the_farthest_end()
    ensures { (nfa : Nfa) → IsInRange nfa → (entries : List ℕ) (t : TableValue) → IsTableOf nfa entries t
        → (text : List ℕ) (n place : ℕ) → ((k : ℕ) → k < place + n → slice_index text k < 256)
        → (row entry : ℕ) → IsRowOf entries row entry
        → BothTellSame nfa (farthest (λ e. first_from nfa (ending_at e) text (place + n) entry place) (suc n) place)
        (walk nfa t false everywhere text n place row) }
{}
