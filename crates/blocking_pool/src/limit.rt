//! How many workers a setting allows.
ghost use Rattle.std.specs.Prelude.{◌≡◌, option_map};
ghost use Rattle.blocking_pool.specs.Limits.{number_of, limit_of_setting};

/// The limit where no text names one.
pub const DEFAULT_MAX_THREADS: usize = 500;

/// The least limit that a text can name.
pub const MIN_MAX_THREADS: usize = 1;

/// The greatest limit that a text can name.
pub const MAX_MAX_THREADS: usize = 10000;

/// The environment's variable whose value is the setting.
pub const MAX_THREADS_ENV: &str = "BLOCKING_MAX_THREADS";

/// The limit of workers that a text names: a number of 64 bits in decimal digits, after one `+` or none, brought between
/// [`MIN_MAX_THREADS`] and [`MAX_MAX_THREADS`]. No text, and any other text, give [`DEFAULT_MAX_THREADS`]. Takes no memory.
///
/// ```rust
/// // 8
/// let named = max_threads(Some("8"));
///
/// // 500
/// let unnamed = max_threads(None);
/// ```
pub fn max_threads(text: Option<&str>) -> usize
    ensures { result ≡ limit_of_setting (option_map (λ t. t.now) text.entry) }
{
    match text.and_then(number) {
        Some(number) => number.clamp(MIN_MAX_THREADS, MAX_MAX_THREADS),
        None => DEFAULT_MAX_THREADS,
    }
}

// The number that a text names. (`parse` takes one leading plus.)
#[tactic(auto, using(crate::proofs::LimitLemmas::parsed_limit))]
fn number(text: &str) -> Option<usize>
    ensures { result ≡ number_of text.now }
{
    text.parse().ok()
}
