//! What a command line asks for.
ghost use Rattle.std.specs.Prelude.{◌≡◌};
ghost use Rattle.blk_commands.specs.Requests.{pair_request, request_of, text_of, texts_of};

use crate::number::small_number;
use blocking_core::limit::max_threads;

/// What a right command line asks for.
#[derive(Clone, Copy, Debug, PartialEq, Eq)]
pub(crate) enum Request {
    /// The number that follows this one.
    Call(u32),
    /// This limit, which a text named.
    Limit(usize),
    /// What the steps of a script show.
    Steps,
}

/// What the words ask for, under this setting; None where they are a wrong command line. A word is None where it isn't
/// UTF-8.
pub(crate) fn asked(words: &[Option<String>], setting: Option<&str>) -> Option<Request>
    ensures { result ≡ request_of (text_of setting.entry) (texts_of words.now) }
{
    match words {
        [Some(name)] if name.as_str() == "limit" => Some(Request::Limit(max_threads(setting))),
        [Some(name)] if name.as_str() == "steps" => Some(Request::Steps),
        [Some(name), Some(word)] => asked_of(name.as_str(), word.as_str()),
        _ => None,
    }
}

// What a command's name and one word ask for.
fn asked_of(name: &str, word: &str) -> Option<Request>
    ensures { result ≡ pair_request name.now word.now }
{
    if name == "call" {
        small_number(word).map(Request::Call)
    } else if name == "limit" {
        Some(Request::Limit(max_threads(Some(word))))
    } else {
        None
    }
}
