//! Each call of a configuration.

use rx_reader::Config;

/// The flags `i`, `m`, `s`, `R`, `U`, `x` and `u`.
fn flags(config: &Config) -> [bool; 7] {
    [
        config.get_case_insensitive(),
        config.get_multi_line(),
        config.get_dot_matches_new_line(),
        config.get_crlf(),
        config.get_swap_greed(),
        config.get_ignore_whitespace(),
        config.get_unicode(),
    ]
}

/// The line terminator, whether patterns keep to UTF-8, how deep they may nest, and whether there are octal escapes.
fn rest(config: &Config) -> (u8, bool, u32, bool) {
    (
        config.get_line_terminator(),
        config.get_utf8(),
        config.get_nest_limit(),
        config.get_octal(),
    )
}

#[test]
fn each_option_has_a_default(rt: HostRuntime) {
    let config = Config::default();
    assert!(rt; flags(&config) == [false, false, false, false, false, false, true]);
    assert!(rt; rest(&config) == (b'\n', true, 250, false));
}

/// A configuration that says other than the default.
fn other() -> Config {
    Config::new()
        .case_insensitive(true)
        .multi_line(true)
        .dot_matches_new_line(true)
        .crlf(true)
        .swap_greed(true)
        .ignore_whitespace(true)
        .unicode(false)
        .line_terminator(0)
        .utf8(false)
        .nest_limit(7)
        .octal(true)
}

#[test]
fn each_option_is_set(rt: HostRuntime) {
    let config = other();
    assert!(rt; flags(&config) == [true, true, true, true, true, true, false]);
    assert!(rt; rest(&config) == (0, false, 7, true) && !config.flags().unicode);
}
