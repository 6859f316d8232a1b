//! What makes a value when it is asked for.
ghost use Rattle.std.specs.Prelude.{◌≡◌, IfOk};

use rx_memory::Memory;

/// What makes a value when it is asked for.
pub trait Maker {
    /// What it makes.
    type Value;

    // So a closure may be one (DECISIONS: a maker says what it needs of itself for a call).
    /// What a maker needs of itself for a call.
    ghost can_make: { Self → Type 0 } = { λ _. Unit {0} };

    /// Which values it stands for: each that it makes, and what may become of one before it is put back.
    ghost stands_for: { Self → Self.Value → Type 0 } = { λ _ _. Unit {0} };

    /// A new value.
    ///
    /// # Errors
    ///
    /// Only want of memory.
    fn make(&self) -> Result<Self::Value, Memory>
        requires { can_make self.now }
        ensures { IfOk result (stands_for self.now) };
}

/// A maker that asks a closure.
#[derive(Clone, Copy, Debug, Drop)]
pub struct FromFn<F> {
    make: F,
}

impl<F> FromFn<F> {
    /// The maker that asks this closure.
    pub fn new(make: F) -> FromFn<F>
        ensures { result.make ≡ make }
    {
        FromFn { make }
    }
}

impl<T, F: Fn() -> Result<T, Memory>> Maker for FromFn<F> {
    type Value = T;

    ghost can_make = { λ m. F.IsAlwaysCallable m.make };

    fn make(&self) -> Result<T, Memory> {
        (self.make)()
    }
}
