//! Laws of look-around.

ghost use Rattle.std.specs.Prelude.{◌≡◌, ℕ, ◌≤◌, List, length};
ghost use Rattle.rx_model.specs.Look.{Look, holds, byte_before, byte_after};
ghost use Rattle.rx_model.specs.Beside.{IsTold, AreAlike, BothOrNone};

/// A look-around holds alike at places of two texts where the bytes before them agree, and the bytes after them: one of
/// words of Unicode where those bytes are ASCII, and every other always. No byte before a place is the text's start, and
/// none after it the text's end.
pub fn a_look_around_holds_alike()
    ensures { (terminator : ℕ) (text other : List ℕ) (kind : Look) (i j : ℕ) → i ≤ length text → j ≤ length other
        → byte_before text i ≡ byte_before other j → byte_after text i ≡ byte_after other j
        → IsTold kind (byte_before text i) (byte_after text i)
        → holds terminator text kind i ≡ holds terminator other kind j }
{}

/// The same where the bytes beside the places are alike to the kind: it tells nothing of one that it does not tell of the
/// other. So of bytes it is enough to know which of them a kind tells apart.
pub fn a_look_around_holds_alike_beside_bytes_that_are_alike()
    ensures { (terminator : ℕ) (here there : List ℕ) (kind : Look) (i j : ℕ) → i ≤ length here → j ≤ length there
        → BothOrNone (AreAlike terminator kind) (byte_before here i) (byte_before there j)
        → BothOrNone (AreAlike terminator kind) (byte_after here i) (byte_after there j)
        → IsTold kind (byte_before here i) (byte_after here i)
        → holds terminator here kind i ≡ holds terminator there kind j }
{}
