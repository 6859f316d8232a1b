//! A law of what a search for literals finds.
ghost use Rattle.std.specs.Prelude.{◌≡◌, ◌≤◌, None, length};
ghost use Rattle.rx_model.specs.Search.{Patterns};
ghost use Rattle.rx_search.specs.Input.{InputValue};
ghost use Rattle.rx_search.specs.Promise.{Premises};
ghost use Rattle.rx_search.specs.Told.{told_in};
ghost use Rattle.rx_pre.specs.Pre.{PreValue, IsPreFor, finds};

/// What a search for literals finds is the next match of its pattern with all that its run writes, where matches are told.
pub fn a_search_finds_what_is_told()
    ensures { (p : PreValue) (r : Patterns) (v : InputValue) → v.end ≤ length v.haystack → Premises (IsPreFor p r) None r v
        → finds p v ≡ told_in r v }
{}
