//! A job that does nothing, for tests in which only its number counts.
use blocking::{Executor, Runtime};
use blocking_core::pool::{Job, JobNo, JobStep, WakeNote};

/// A job that is over at once. Its number serves those that wait.
#[derive(Drop)]
pub(crate) struct Nothing;

impl Job for Nothing {
    ghost use Rattle.std.specs.Prelude.{◌≡◌, false};

    ghost may_answer = { λ _ answer. answer ≡ false };

    fn step(&mut self, _me: JobNo) -> JobStep {
        JobStep::Done
    }

    fn abandoned(&self) -> bool {
        false
    }
}

/// Whether it is a note of this job. It is spent.
pub(crate) fn is_woken<J: Job, H: Runtime>(
    executor: &Executor<J, H>,
    job: JobNo,
    note: Option<WakeNote>,
) -> bool {
    let Some(note) = note else {
        return false;
    };
    let is_of_job = note.job().serial() == job.serial();
    let _ = executor.wake(note);
    is_of_job
}
