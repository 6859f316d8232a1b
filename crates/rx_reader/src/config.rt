//! How patterns are read and translated.
ghost use Rattle.std.specs.Prelude.{◌≡◌};
ghost use Rattle.rx_reader.specs.Config.{default, flags_of, terminator_of, utf8_of, limit_of, octal_of};

use crate::flags::Flags;
use std::default::Default;

/// How patterns are read and translated: the flags that stand at the start of each pattern, and what is
/// permitted.
#[derive(Clone, Copy)]
pub struct Config {
    flags: Flags,
    line_terminator: u8,
    utf8: bool,
    nest_limit: u32,
    octal: bool,
}

impl Config {
    /// The default: all flags off but `unicode`, the line terminator `\n`, `utf8` on, the nest limit 250, and
    /// `octal` off.
    pub fn new() -> Config
        ensures { result ≡ default }
    {
        Config {
            flags: Flags {
                case_insensitive: false,
                multi_line: false,
                dot_matches_new_line: false,
                swap_greed: false,
                unicode: true,
                crlf: false,
                ignore_whitespace: false,
            },
            line_terminator: b'\n',
            utf8: true,
            nest_limit: 250,
            octal: false,
        }
    }

    /// Whether letters match in either case: the flag `i`.
    pub fn case_insensitive(mut self, yes: bool) -> Config
        ensures { result ≡ record self { flags = record self.flags { case_insensitive = yes } } }
    {
        self.flags.case_insensitive = yes;
        self
    }

    /// Whether `^` and `$` match at lines too: the flag `m`.
    pub fn multi_line(mut self, yes: bool) -> Config
        ensures { result ≡ record self { flags = record self.flags { multi_line = yes } } }
    {
        self.flags.multi_line = yes;
        self
    }

    /// Whether `.` matches the end of a line too: the flag `s`.
    pub fn dot_matches_new_line(mut self, yes: bool) -> Config
        ensures { result ≡ record self { flags = record self.flags { dot_matches_new_line = yes } } }
    {
        self.flags.dot_matches_new_line = yes;
        self
    }

    /// Whether a line ends at `\r`, `\n` or both: the flag `R`.
    pub fn crlf(mut self, yes: bool) -> Config
        ensures { result ≡ record self { flags = record self.flags { crlf = yes } } }
    {
        self.flags.crlf = yes;
        self
    }

    /// Whether greedy repetitions are lazy, and lazy ones greedy: the flag `U`.
    pub fn swap_greed(mut self, yes: bool) -> Config
        ensures { result ≡ record self { flags = record self.flags { swap_greed = yes } } }
    {
        self.flags.swap_greed = yes;
        self
    }

    /// Whether white space and comments are skipped: the flag `x`.
    pub fn ignore_whitespace(mut self, yes: bool) -> Config
        ensures { result ≡ record self { flags = record self.flags { ignore_whitespace = yes } } }
    {
        self.flags.ignore_whitespace = yes;
        self
    }

    /// Whether characters are matched, and not bytes: the flag `u`.
    pub fn unicode(mut self, yes: bool) -> Config
        ensures { result ≡ record self { flags = record self.flags { unicode = yes } } }
    {
        self.flags.unicode = yes;
        self
    }

    /// The byte that ends a line, where the flag `R` is off.
    pub fn line_terminator(mut self, byte: u8) -> Config
        ensures { result ≡ record self { line_terminator = byte } }
    {
        self.line_terminator = byte;
        self
    }

    /// Whether all that is matched is to be UTF-8. A pattern that can match something else is refused then.
    pub fn utf8(mut self, yes: bool) -> Config
        ensures { result ≡ record self { utf8 = yes } }
    {
        self.utf8 = yes;
        self
    }

    /// How deep groups and repetitions nest at most.
    pub fn nest_limit(mut self, limit: u32) -> Config
        ensures { result ≡ record self { nest_limit = limit } }
    {
        self.nest_limit = limit;
        self
    }

    /// Whether `\` with up to three octal digits is a character.
    pub fn octal(mut self, yes: bool) -> Config
        ensures { result ≡ record self { octal = yes } }
    {
        self.octal = yes;
        self
    }

    /// Whether letters match in either case: the flag `i`.
    pub fn get_case_insensitive(&self) -> bool
        ensures { result ≡ (flags_of self.now).case_insensitive }
    {
        self.flags.case_insensitive
    }

    /// Whether `^` and `$` match at lines too: the flag `m`.
    pub fn get_multi_line(&self) -> bool
        ensures { result ≡ (flags_of self.now).multi_line }
    {
        self.flags.multi_line
    }

    /// Whether `.` matches the end of a line too: the flag `s`.
    pub fn get_dot_matches_new_line(&self) -> bool
        ensures { result ≡ (flags_of self.now).dot_matches_new_line }
    {
        self.flags.dot_matches_new_line
    }

    /// Whether a line ends at `\r`, `\n` or both: the flag `R`.
    pub fn get_crlf(&self) -> bool
        ensures { result ≡ (flags_of self.now).crlf }
    {
        self.flags.crlf
    }

    /// Whether greedy repetitions are lazy, and lazy ones greedy: the flag `U`.
    pub fn get_swap_greed(&self) -> bool
        ensures { result ≡ (flags_of self.now).swap_greed }
    {
        self.flags.swap_greed
    }

    /// Whether white space and comments are skipped: the flag `x`.
    pub fn get_ignore_whitespace(&self) -> bool
        ensures { result ≡ (flags_of self.now).ignore_whitespace }
    {
        self.flags.ignore_whitespace
    }

    /// Whether characters are matched, and not bytes: the flag `u`.
    pub fn get_unicode(&self) -> bool
        ensures { result ≡ (flags_of self.now).unicode }
    {
        self.flags.unicode
    }

    /// The byte that ends a line, where the flag `R` is off.
    pub fn get_line_terminator(&self) -> u8
        ensures { result ≡ terminator_of self.now }
    {
        self.line_terminator
    }

    /// Whether all that is matched is to be UTF-8. A pattern that can match something else is refused then.
    pub fn get_utf8(&self) -> bool
        ensures { result ≡ utf8_of self.now }
    {
        self.utf8
    }

    /// How deep groups and repetitions nest at most.
    pub fn get_nest_limit(&self) -> u32
        ensures { result ≡ limit_of self.now }
    {
        self.nest_limit
    }

    /// Whether `\` with up to three octal digits is a character.
    pub fn get_octal(&self) -> bool
        ensures { result ≡ octal_of self.now }
    {
        self.octal
    }

    /// The flags that stand at the start of each pattern.
    pub fn flags(&self) -> Flags
        ensures { result ≡ flags_of self.now }
    {
        self.flags
    }
}

impl Default for Config {
    fn default() -> Config
        ensures { result ≡ default }
    {
        Config::new()
    }
}
