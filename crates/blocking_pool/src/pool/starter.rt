//! What starts workers.
ghost use Rattle.std.specs.Prelude.{◌≡◌, ◌+◌, ℕ, Bool, OnOk, OnErr, is_err};
ghost use Rattle.blocking_pool.specs.Growth.{Narrows};

/// Starts workers for a pool, each by its number.
///
/// Here is one whose first start is refused, as where a system has no thread to spare:
///
/// ```rust
/// fn start(&mut self, _number: u64) -> Result<(), StartRefused> {
///     if self.has_refused {
///         return Ok(());
///     }
///     self.has_refused = true;
///     Err(StartRefused)
/// }
/// ```
pub trait Starter {
    /// How many starts were refused so far.
    ghost refusals: { Self → ℕ };

    /// How the start of this number may be answered: true is a refusal.
    ghost may_answer: { Self → ℕ → Bool → Type 0 };

    /// Starts the worker of this number.
    ///
    /// A refusal raises the count of refusals by one, and a start leaves it.
    fn start(&mut self, number: u64) -> Result<(), StartRefused>
        ensures started { OnOk result (refusals self.new ≡ refusals self.old) }
        ensures refused { OnErr result (refusals self.new ≡ refusals self.old + 1) }
        ensures answered { may_answer self.old number (is_err result) }
        ensures steady { Narrows (may_answer self.old) (may_answer self.new) };
}

/// A worker couldn't be started.
#[derive(Clone, Copy, Debug, PartialEq, Eq)]
pub struct StartRefused;
