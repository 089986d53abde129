//! The numbers that words say.
ghost use Rattle.std.specs.Prelude.{◌≡◌, ◌<◌, ◌==◌, drop, true, false};
ghost use Rattle.std.specs.Char.{is_ascii_digit};
ghost use Rattle.std.specs.List.{list_all};
ghost use Rattle.std.specs.Option.{MatchOption};
ghost use Rattle.blk_commands.specs.Numbers.{begins_with, magnitude_of, number_of, signed_number_of};

/// The number that a word says in digits alone, if it has 32 bits.
#[tactic(auto, using(crate::proofs::Numbers::parsed_small_number))]
pub(crate) fn small_number(word: &str) -> Option<u32>
    ensures { result ≡ number_of 32 word.now }
{
    // (`parse` alone takes a leading plus)
    if !is_digits(word) {
        return None;
    }
    word.parse().ok()
}

/// The number that a word says in digits alone, if it has 64 bits.
#[tactic(auto, using(crate::proofs::Numbers::parsed_large_number))]
pub(crate) fn number(word: &str) -> Option<u64>
    ensures { result ≡ number_of 64 word.now }
{
    if is_digits(word) {
        return word.parse::<u64>().ok();
    }
    None
}

/// The same as a count or a place.
#[tactic(auto, using(crate::proofs::Numbers::parsed_large_number))]
pub(crate) fn count(word: &str) -> Option<usize>
    ensures { result ≡ number_of 64 word.now }
{
    if is_digits(word) {
        return word.parse::<usize>().ok();
    }
    None
}

/// The number that a word says in digits, with a minus before them or without, if it has 64 bits of which one is its sign.
#[tactic(auto, using(crate::proofs::Numbers::parsed_signed_number, crate::proofs::Numbers::unsigned))]
pub(crate) fn signed_number(word: &str) -> Option<i64>
    ensures { result ≡ signed_number_of word.now }
{
    if is_digits(magnitude_of(word)) {
        return word.parse::<i64>().ok();
    }
    None
}

/// What stands behind this letter, if a word begins with it.
pub(crate) fn behind(word: &str, letter: char) -> Option<&str>
    requires some { 0 < letter }
    requires ascii { letter < 128 }
    ensures { MatchOption result (begins_with letter word.now ≡ false)
        (λ rest. (begins_with letter word.now ≡ true) × (rest.now ≡ drop 1 word.now)) }
{
    word.strip_prefix(letter)
}

// What stands behind the minus of a word, or the word itself where it has none.
fn magnitude_of(word: &str) -> &str
    ensures { result.now ≡ magnitude_of word.now }
{
    behind(word, '-').unwrap_or(word)
}

// Whether a word is digits alone.
fn is_digits(word: &str) -> bool
    ensures { result ≡ list_all is_ascii_digit word.now }
{
    word.bytes().all(|byte| byte.is_ascii_digit())
}
