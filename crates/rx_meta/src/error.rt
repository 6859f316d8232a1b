//! Why there is no regex.
ghost use Rattle.std.specs.Prelude.{◌≡◌, option_map};
ghost use Rattle.rx_meta.specs.declared.error.BuildError.TheVariants.{Memory as OutOfMemory};
ghost use Rattle.rx_meta.specs.Error.{error_of, pattern_of, size_limit_of, syntax_error_of};

use rx_search::{Memory, PatternID};
use rx_syntax::SyntaxError;
use std::alloc::{AllocError, AllocFailed};
use std::fmt;

/// Why there is no regex.
#[derive(Clone, Copy, Debug, PartialEq, Eq)]
pub enum BuildError {
    /// The grammar reads no expression for this pattern, the first such one.
    Syntax { pid: PatternID, err: SyntaxError },
    /// A count or the cost of the patterns passes its limit.
    NFA(rx_thompson::BuildError),
    /// There was no memory.
    Memory,
}

impl BuildError {
    /// The number of the pattern that is refused, where one is.
    pub fn pattern(&self) -> Option<PatternID>
        ensures { result ≡ pattern_of self.now }
    {
        match self {
            BuildError::Syntax { pid, .. } => Some(*pid),
            BuildError::NFA(_) => None,
            BuildError::Memory => None,
        }
    }

    /// The limit in bytes that the NFA passes, where that is why.
    ///
    /// # Examples
    ///
    /// ```
    /// let mut builder = Regex::builder();
    /// builder.configure(Regex::config().nfa_size_limit(Some(1000)));
    /// assert!(rt; builder.build(alloc, "[a-z]{3}").is_ok());
    /// let error = builder
    ///     .build(alloc, "[a-z]{300}")
    ///     .err()
    ///     .ok_or("no refusal")?;
    /// assert_eq!(rt; error.size_limit(), Some(1000));
    /// ```
    pub fn size_limit(&self) -> Option<usize>
        ensures { result ≡ size_limit_of self.now }
    {
        match self {
            BuildError::NFA(rx_thompson::BuildError::ExceededSizeLimit { limit, .. }) => Some(
                *limit,
            ),
            _ => None,
        }
    }

    /// What is wrong with the pattern that is refused, where one is. Its piece is in bytes of that pattern.
    ///
    /// # Examples
    ///
    /// ```
    /// let error = Regex::new_many(alloc, &["a", r"b\q"]).err();
    /// let error = error.ok_or("no refusal")?;
    /// // Pattern 1, and the bytes of it that could not be read.
    /// let pattern = error.pattern().ok_or("no pattern")?;
    /// assert_eq!(rt; pattern.as_usize(), 1);
    /// let cause = error.syntax_error().ok_or("no cause")?;
    /// assert!(rt; cause.kind == SyntaxErrorKind::Escape);
    /// assert_eq!(rt; (cause.start, cause.end), (1, 2));
    /// ```
    pub fn syntax_error(&self) -> Option<&SyntaxError>
        ensures { option_map (λ e. e.now) result ≡ syntax_error_of self.now }
    {
        match self {
            BuildError::Syntax { err, .. } => Some(err),
            _ => None,
        }
    }

    /// The same error once more.
    pub fn clone(&self) -> BuildError
        ensures { result ≡ self.now }
    {
        *self
    }
}

impl fmt::Display for BuildError {
    ghost use Rattle.std.specs.Prelude.{Some};
    ghost use Rattle.rx_meta.specs.Error.{text_of};

    ghost output = { λ e. Some (text_of e) };

    fn fmt<W: fmt::Write>(&self, f: &mut fmt::Formatter<W>) -> fmt::Result {
        match self {
            BuildError::Syntax { pid, .. } => write!(f, "error parsing pattern {}", pid.as_usize()),
            BuildError::NFA(_) => write!(f, "error building NFA"),
            BuildError::Memory => write!(f, "out of memory"),
        }
    }
}

impl From<Memory> for BuildError {
    ghost from_gives = { λ _ e. e ≡ OutOfMemory };

    fn from(_error: Memory) -> BuildError {
        BuildError::Memory
    }
}

impl From<AllocError> for BuildError {
    ghost from_gives = { λ _ e. e ≡ OutOfMemory };

    fn from(_error: AllocError) -> BuildError {
        BuildError::Memory
    }
}

impl<T: Drop> From<AllocFailed<T>> for BuildError {
    ghost from_gives = { λ _ e. e ≡ OutOfMemory };

    fn from(_error: AllocFailed<T>) -> BuildError {
        BuildError::Memory
    }
}

impl From<rx_thompson::BuildError> for BuildError {
    ghost from_gives = { λ cause e. e ≡ error_of cause };

    fn from(error: rx_thompson::BuildError) -> BuildError {
        match error {
            rx_thompson::BuildError::Syntax { pid, err } => BuildError::Syntax { pid, err },
            rx_thompson::BuildError::Memory => BuildError::Memory,
            other => BuildError::NFA(other),
        }
    }
}
