//! What is told on a walk without a byte.
ghost use Rattle.std.specs.Prelude.{◌≡◌, ◌+◌, ◌*◌, ◌/◌, ◌%◌, ◌^◌, ◌<◌, ◌≤◌, ◌==◌, ℕ, if◌then◌else◌};
ghost use Rattle.std.specs.Int.{bit_at};
ghost use Rattle.rx_model.specs.Look.{look_number};
ghost use Rattle.rx_search.specs.Look.{kind_of};
ghost use Rattle.rx_onepass_table.specs.Words.{few_looks, slot_limit};

use rx_search::Look;

/// Slot k of the explicit ones stands in bit 10 + k of a word; the kinds of look-around stand below.
const SLOT_UNIT: u64 = 1 << 10;

/// What is told on a walk without a byte: explicit slots, slot k by bit k, and kinds of look-around, a kind by the bit of its
/// number. There are 32 slots and ten kinds at most.
#[derive(Clone, Copy, Debug, PartialEq, Eq)]
pub struct Epsilons {
    pub slots: u32,
    pub looks: u32,
}

impl Epsilons {
    /// A walk that tells nothing.
    pub fn empty() -> Epsilons
        ensures { result ≡ record { slots = 0; looks = 0 } }
    {
        Epsilons { slots: 0, looks: 0 }
    }

    /// What the lower 42 bits of a word tell.
    #[inline(always)]
    pub fn of_word(word: u64) -> Epsilons
        ensures { result ≡ record { slots = word / 2 ^ 10 % 2 ^ 32; looks = word % 2 ^ 10 } }
    {
        Epsilons {
            slots: (word / SLOT_UNIT % (1 << 32)) as u32,
            looks: (word % SLOT_UNIT) as u32,
        }
    }

    /// The lower 42 bits of a word that tells this.
    #[inline(always)]
    pub fn word(self) -> u64
        requires { self.looks < 2 ^ 10 }
        ensures value { result ≡ self.slots * 2 ^ 10 + self.looks }
        ensures limit { result < 2 ^ 42 }
    {
        self.slots as u64 * SLOT_UNIT + self.looks as u64
    }

    /// What the walk tells that writes this explicit slot too.
    pub fn with_slot(self, slot: usize) -> Epsilons
        requires { slot < slot_limit }
        ensures slots { (k : ℕ) → bit_at result.slots k ≡ (if k == slot then 1 else bit_at self.slots k) }
        ensures looks { result.looks ≡ self.looks }
    {
        Epsilons {
            slots: self.slots | 1 << slot,
            looks: self.looks,
        }
    }

    /// What the walk tells that asks for this kind too, which is one of the first ten.
    pub fn with_look(self, look: Look) -> Epsilons
        requires few { look_number (kind_of look) < few_looks }
        requires fits { self.looks < 2 ^ 10 }
        ensures slots { result.slots ≡ self.slots }
        ensures looks { (k : ℕ) → bit_at result.looks k ≡ (if k == look_number (kind_of look) then 1 else bit_at self.looks k) }
        ensures fits { result.looks < 2 ^ 10 }
    {
        Epsilons {
            slots: self.slots,
            looks: self.looks | 1 << number_of(look),
        }
    }
}

/// The number of a kind, one of the first ten; those behind them have no bit.
pub fn number_of(look: Look) -> u32
    ensures few { look_number (kind_of look) < few_looks → result ≡ look_number (kind_of look) }
    ensures other { few_looks ≤ look_number (kind_of look) → result ≡ few_looks }
{
    match look {
        Look::Start => 0,
        Look::End => 1,
        Look::StartLF => 2,
        Look::EndLF => 3,
        Look::StartCRLF => 4,
        Look::EndCRLF => 5,
        Look::WordAscii => 6,
        Look::WordAsciiNegate => 7,
        Look::WordUnicode => 8,
        Look::WordUnicodeNegate => 9,
        _ => 10,
    }
}
