//! The search for one needle, by the kit's `memmem`.
ghost use Rattle.std.specs.Prelude.{◌≡◌, ◌≤◌, [], ◌∷◌, length};
ghost use Rattle.rx_prefilter.specs.Needles.{span_at, first_span};

use crate::needles::occurs_at;
use memchr::memmem::Finder;
use rx_search::Span;

/// Where the finder's needle lies that begins at the least place from `from` on.
#[inline(always)]
pub(crate) fn find(finder: &Finder<'static>, text: &[u8], from: usize) -> Option<Span>
    requires { from ≤ length text.now }
    ensures { result ≡ first_span (finder.now ∷ []) text.now from }
{
    match finder.find(&text[from..]) {
        Some(found) => {
            let start = from + found;
            Some(Span {
                start,
                end: start + finder.needle().len(),
            })
        }
        None => None,
    }
}

/// Where the finder's needle lies, if it begins at `at`.
pub(crate) fn prefix(finder: &Finder<'static>, text: &[u8], at: usize) -> Option<Span>
    requires { at ≤ length text.now }
    ensures { result ≡ span_at (finder.now ∷ []) text.now at }
{
    if occurs_at(text, finder.needle(), at) {
        return Some(Span {
            start: at,
            end: at + finder.needle().len(),
        });
    }
    None
}
