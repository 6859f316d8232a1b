//! Whether patterns pass a limit, told of what they weigh.
ghost use Rattle.std.specs.Prelude.{◌≡◌, List, length};
ghost use Rattle.rx_model.specs.Expression.{Expression};
ghost use Rattle.rx_syntax.specs.Weight.{weights_of};
ghost use Rattle.rx_scan.specs.Patterns.{fit, are_small};

use rx_hir::STATE_SIZE;
use rx_search::{PatternID, StateID};
use rx_syntax::Weights;

/// The most slots that a match may have.
const SLOT_LIMIT: usize = PatternID::LIMIT - 1;

/// What a state costs.
const STATE_COST: usize = STATE_SIZE as usize;

/// The greatest cost.
const COST_LIMIT: usize = 10485760;

/// Whether so many patterns of these weights pass no limit.
pub fn are_small(count: usize, weights: Weights) -> bool
    ensures { (hs : List Expression) → weights ≡ weights_of hs → length hs ≡ count → result ≡ are_small hs }
{
    fit(count, weights.slots, weights.states)
}

fn fit(patterns: usize, slots: usize, states: usize) -> bool
    ensures { result ≡ fit patterns slots states }
{
    if patterns > PatternID::LIMIT {
        return false;
    }
    if slots > SLOT_LIMIT {
        return false;
    }
    if states > StateID::LIMIT {
        return false;
    }
    STATE_COST * states <= COST_LIMIT
}
