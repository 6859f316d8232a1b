//! Laws of what a regex searches, and of what its searches change.
ghost use Rattle.std.specs.Prelude.{◌≡◌, ◌+◌, ◌-◌, ◌^◌, ◌≤◌, List, None, codes, min, false, length};
ghost use Rattle.rx_model.specs.Expression.{Expression};
ghost use Rattle.rx_model.specs.Search.{Patterns};
ghost use Rattle.rx_search.specs.Input.{InputValue};
ghost use Rattle.rx_search.specs.Promise.{Premises};
ghost use Rattle.rx_search.specs.Told.{told_in};
ghost use Rattle.rx_search.specs.declared.anchored.MatchKind.TheVariants.{LeftmostFirst};
ghost use Rattle.rx_limited.specs.declared.retry_error.Quadratic.{Quadratic as Met};
ghost use Rattle.rx_limited.specs.declared.retry_error.RetryError.{RetryError};
ghost use Rattle.rx_limited.specs.declared.retry_error.RetryError.TheVariants.{Quadratic};
ghost use Rattle.rx_meta.specs.Attempts.{IsMetIn, IsMetBySuffix, IsMetByInner, literals_in, SuffixFails, InnerFails};
ghost use Rattle.rx_meta.specs.Cache.{CacheValue, AccountsAlike, IsAsMadeFor, memory_of, fixed_memory, states_memory};
ghost use Rattle.rx_meta.specs.Regex.{RegexValue, Serves, IsMadeUnder, given_needles, has_lazy, kind_in, name_of, searches};

// All that a caller has to know of what is below (DECISIONS: a regex hides what it searches with).
/// What a regex searches is the next match of its patterns, where matches are told.
pub fn a_search_is_for_its_patterns()
    ensures { (regex : RegexValue) (r : Patterns) (v : InputValue) → v.end ≤ length v.haystack
        → Premises (Serves regex r) (given_needles regex) r v → searches regex v ≡ told_in r v }
{}

/// A search of a regex that has no lazy DFAs changes nothing of what is accounted for its cache.
pub fn a_search_without_lazy_dfas_accounts_nothing()
    ensures { (regex : RegexValue) (old new : CacheValue) → has_lazy regex ≡ false → AccountsAlike regex old new → memory_of new ≡ memory_of old }
{}

/// What is accounted for a cache is what the states of lazy DFAs are accounted with that it holds, and the rest, up to the greatest
/// `usize`. A search does not change the rest, nor for which regexes the cache is as one that was made for them.
pub fn a_search_changes_states_alone()
    ensures parts { (cache : CacheValue) → memory_of cache ≡ min (2 ^ 64 - 1) (fixed_memory cache + states_memory cache) }
    ensures search { (regex : RegexValue) (old new : CacheValue) → AccountsAlike regex old new → fixed_memory new ≡ fixed_memory old }
    ensures own { (regex other : RegexValue) (old new : CacheValue) → AccountsAlike regex old new → IsAsMadeFor other old → IsAsMadeFor other new }
{}

/// Why an attempt gave up tells where: the bytes from a place in the span up to a later one were to be read again, a later start than the
/// span's was found, or a candidate begins before the place where a search forwards stopped.
pub fn attempts_give_up_where_bytes_were_read()
    ensures suffix { (regex : RegexValue) (v : InputValue) (cache : CacheValue) (error : RetryError) → SuffixFails regex v cache error → IsMetIn v error }
    ensures inner { (regex : RegexValue) (v : InputValue) (cache : CacheValue) (error : RetryError) → InnerFails regex v cache error → IsMetIn v error }
{}

/// Where an attempt gave up for what it met, no candidate before that one is confirmed: of the patterns of the regex, which are one
/// expression. A candidate is a place where a literal of the search lies, and no match starts before the first confirmed one's start.
pub fn no_candidate_before_a_refusal_is_confirmed()
    ensures suffix { (c : _) (hs : List Expression) (regex : RegexValue) → IsMadeUnder c hs regex → (r : Patterns) (v : InputValue)
        → Premises (Serves regex r) None r v → (cache : CacheValue) (met : Met) → SuffixFails regex v cache (Quadratic met)
        → IsMetBySuffix (literals_in regex) r v met }
    ensures inner { (c : _) (hs : List Expression) (regex : RegexValue) → IsMadeUnder c hs regex → (r : Patterns) (v : InputValue)
        → Premises (Serves regex r) None r v → (cache : CacheValue) (met : Met) → InnerFails regex v cache (Quadratic met)
        → IsMetByInner (literals_in regex) r v met }
{}

/// A regex that searches from candidate to candidate reports the leftmost-first match: under `All` no attempt is made.
pub fn attempts_are_leftmost_first()
    ensures suffix { (c : _) (hs : List Expression) (regex : RegexValue) → IsMadeUnder c hs regex → name_of regex ≡ codes "reverse suffix"
        → kind_in regex ≡ LeftmostFirst }
    ensures inner { (c : _) (hs : List Expression) (regex : RegexValue) → IsMadeUnder c hs regex → name_of regex ≡ codes "reverse inner"
        → kind_in regex ≡ LeftmostFirst }
{}
