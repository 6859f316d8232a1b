//! The flags of a pattern.

/// What the flags say at a place of a pattern.
#[derive(Clone, Copy, Debug, PartialEq, Eq)]
pub struct Flags {
    /// `i`: letters match in either case.
    pub case_insensitive: bool,
    /// `m`: `^` and `$` match at lines too.
    pub multi_line: bool,
    /// `s`: `.` matches the end of a line too.
    pub dot_matches_new_line: bool,
    /// `U`: greedy repetitions are lazy, and lazy ones greedy.
    pub swap_greed: bool,
    /// `u`: what is matched is characters, and not bytes.
    pub unicode: bool,
    /// `R`: a line ends at `\r`, `\n` or both.
    pub crlf: bool,
    /// `x`: white space and comments are skipped.
    pub ignore_whitespace: bool,
}
