//! A job type of the tests' own, which carries a call's job and may leave it before its end, so that a test meets the job there.
use crate::visit::Visit;
use blocking::{CallJob, Runtime};
use blocking_core::pool::{Carries, Job, JobNo, JobStep};
use std::marker::PhantomData;

/// What a job does with the call's job that it carries. Nothing of a test's own reaches a job that `unblock` makes, but its type.
pub(crate) trait Plan {
    /// So many steps of the call's job are taken.
    const STEPS: u32;
    /// Then each step answers this.
    const THEN: JobStep;
}

/// Waits before the call is made.
#[derive(Drop)]
pub(crate) struct WaitsAtFirst;

impl Plan for WaitsAtFirst {
    const STEPS: u32 = 0;

    const THEN: JobStep = JobStep::Waiting;
}

/// Is over before the call is made.
#[derive(Drop)]
pub(crate) struct EndsAtFirst;

impl Plan for EndsAtFirst {
    const STEPS: u32 = 0;

    const THEN: JobStep = JobStep::Done;
}

/// Waits once the answer is in its slot, before the owner is woken.
#[derive(Drop)]
pub(crate) struct WaitsBeforeItWakes;

impl Plan for WaitsBeforeItWakes {
    const STEPS: u32 = 2;

    const THEN: JobStep = JobStep::Waiting;
}

/// Is over then.
#[derive(Drop)]
pub(crate) struct EndsBeforeItWakes;

impl Plan for EndsBeforeItWakes {
    const STEPS: u32 = 2;

    const THEN: JobStep = JobStep::Done;
}

/// A call's job that goes by the plan `P`.
#[derive(Drop)]
pub(crate) struct Planned<P: Plan, H: Runtime> {
    job: CallJob<Visit, H>,
    taken: u32,
    plan: PhantomData<P>,
}

impl<P: Plan, H: Runtime> Job for Planned<P, H> {
    // (another thread may set the call's mark at any time)
    ghost may_answer = { λ _ _. Unit {0} };

    fn step(&mut self, me: JobNo) -> JobStep {
        if self.taken >= P::STEPS {
            return P::THEN;
        }
        self.taken += 1;
        self.job.step(me)
    }

    fn abandoned(&self) -> bool {
        self.job.abandoned()
    }
}

impl<P: Plan, H: Runtime> Carries<CallJob<Visit, H>> for Planned<P, H> {
    ghost use Rattle.std.specs.Prelude.{Some, refl};

    ghost wrapped = { λ job. record { job = job; taken = 0; plan = record {} } };

    ghost opened = { λ planned. Some planned.job };

    ghost undoes = { λ job. refl };

    fn wrap(job: CallJob<Visit, H>) -> Planned<P, H> {
        Planned {
            job,
            taken: 0,
            plan: PhantomData,
        }
    }

    fn unwrap(self) -> Option<CallJob<Visit, H>> {
        Some(self.job)
    }
}
