//! A test of the count of steps.
ghost use Rattle.std.specs.Prelude.{◌≡◌, ◌<◌};

use rx_search::*;
use std::marker::Brand;
use std::sync::ledger::{Blank, Ledger};

/// What is told before any step, and after three.
fn none_and_three<L: Ledger>(blank: Blank) -> (u64, u64)
    requires name { blank.name ≡ L.name }
    requires parts { blank.parts ≡ L.parts }
    requires some { 0 < blank.parts }
    ensures { result ≡ (0, 3) }
{
    let mut steps = Steps::<L>::open(blank);
    let before = steps.taken();
    steps.tick();
    steps.tick();
    steps.tick();
    (before, steps.taken())
}

#[test]
fn counts_each_step(rt: HostRuntime) {
    assert_eq!(rt; none_and_three::<Brand>(Blank::new(1)), (0, 3));
}
