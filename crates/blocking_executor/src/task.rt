//! The owner's side of a call.
ghost use Rattle.std.specs.Prelude.{◌≡◌, true, false, IfErr, IfOk};

use crate::executor::Executor;
use crate::held::Added;
use crate::job::CallJob;
use crate::runtime::Runtime;
use crate::slot::{AnswerOf, CallShare};
use blocking_core::pool::{Carries, Job, Refusal, Refused};
use blocking_core::task::{Call, Looked, OfSlot, Over, Seat, Slotted};
use blocking_sync::KeptAnswer;
use futures::Future;
use futures::task::{Context, Poll, Source, Waker};
use std::sync::{Arc, Wait};

// What the slot answered to a poll that got no value: only a slot can.
#[derive(Drop)]
enum Asked {
    // The poll's waker is seated.
    Waits(Seat<OfSlot>),
    // The job is gone.
    Gone(Over),
}

/// A call under way: a future of its answer. Until the answer was taken it may be polled.
///
/// Dropping it gives the call up: a call that wasn't begun by then need not be made, and one that runs goes on, with an answer
/// that nobody gets. A call that was given up goes when a worker takes it. Where its client is at its limit of running jobs, that is once
/// another job of that client is over. A drop waits for no call. [`detach`](Task::detach) lets the call go on without an owner. A task
/// whose job was dropped by somebody else stays pending.
///
/// A new task may be polled, as [`unblock`] promises. Whoever is given one requires it:
///
/// ```rust
/// fn answer<H: Host>(rt: &H, task: Task<Double, H>) -> io::Result<u64>
///     requires { task.is_taken ≡ false }
/// {
///     block_on(rt, task)
/// }
/// ```
#[must_use]
pub struct Task<F: Call<Out: Drop>, H: Wait + Copy> {
    // (who has none has added none)
    job: Added,
    share: Arc<CallShare<F>>,
    source: Source,
    // What the slot answered to the last poll that waits.
    asked: Option<Asked>,
    // The waker of a task whose job is gone. It is kept, since one that is dropped wakes.
    unseated: Option<Waker>,
    is_taken: bool,
    rt: H,
}

impl<F: Call<Out: Drop>, H: Wait + Copy> Task<F, H> {
    pub(crate) fn new(rt: H, share: Arc<CallShare<F>>, job: Added) -> Task<F, H>
        ensures fresh { result.is_taken ≡ false }
        ensures job { result.job ≡ job }
    {
        Task {
            job,
            share,
            source: Source::new(),
            asked: None,
            unseated: None,
            is_taken: false,
            rt,
        }
    }

    /// Whether the answer was taken. A task may be polled as long as it wasn't.
    ///
    /// ```rust
    /// if !task.is_taken() {
    ///     let doubled = block_on(&rt, task)?;
    ///     return Ok(doubled);
    /// }
    /// ```
    pub fn is_taken(&self) -> bool
        ensures { result ≡ self.now.is_taken }
    {
        self.is_taken
    }

    /// Lets the call go on without an owner: it is made as any other, and its answer is dropped.
    ///
    /// ```rust
    /// unblock(&executor, Double(4))?.detach();
    /// ```
    pub fn detach(self) {
        let Task {
            job: _,
            share,
            source: _,
            asked: _,
            unseated: _,
            is_taken: _,
            rt,
        } = self;
        drop(share.abandon(&rt));
    }

    /// Gives the call up, at once: a call that wasn't begun need not be made, and one that runs goes on. The future gives the
    /// answer that was there before, or else None once the job is over.
    ///
    /// ```rust
    /// match block_on(&rt, task.cancel())? {
    ///     Some(doubled) => Ok(Some(doubled)),
    ///     // (the call is over, and it was made too late or not at all)
    ///     None => Ok(None),
    /// }
    /// ```
    pub fn cancel(self) -> Cancel<F, H>
        requires { self.is_taken ≡ false }
        ensures { result.is_taken ≡ false }
    {
        let Task {
            job: _,
            share,
            source,
            asked: _,
            unseated: _,
            is_taken: _,
            rt,
        } = self;
        share.mark();
        let found = share.abandon(&rt);
        Cancel::new(rt, share, source, found)
    }
}

impl<F: Call<Out: Drop>, H: Wait + Copy> Drop for Task<F, H> {
    fn drop(self) {
        let Task {
            job: _,
            share,
            source: _,
            asked: _,
            unseated: _,
            is_taken,
            rt,
        } = self;
        if !is_taken {
            share.mark();
            drop(share.abandon(&rt));
        }
    }
}

impl<F: Call<Out: Drop>, H: Wait + Copy> Future for Task<F, H> {
    ghost use Rattle.std.specs.Prelude.{IsSome};
    ghost use Rattle.futures.specs.Poll.{IfReady, OnPending};
    ghost use Rattle.futures.specs.Task.{Covers, Keeps};

    type Output = F::Out;

    ghost can_poll = { λ task. task.is_taken ≡ false };

    ghost needs = { λ task source. source ≡ task.source.id };

    ghost gives = { λ task out. F.may_give out };

    fn poll(&mut self, cx: &mut Context<'_>) -> Poll<F::Out>
        requires { self.old.is_taken ≡ false }
        ensures value { IfReady result F.may_give }
        ensures taken { IfReady result (λ _. self.new.is_taken ≡ true) }
        ensures again { OnPending result (self.new.is_taken ≡ false) }
        ensures asked { OnPending result (IsSome self.new.asked) }
        ensures registered { OnPending result
            (Covers cx.new (λ source. source ≡ self.new.source.id)) }
        ensures kept { Keeps cx.old cx.new }
    {
        // An answer that is there needs no waker. Else the waker of an earlier poll is used again, since one that is
        // dropped wakes its task.
        let seat = match self.share.look(&self.rt) {
            Looked::Value(out) => {
                self.is_taken = true;
                return Poll::Ready(out);
            }
            Looked::Seat(seat) => seat,
        };
        let mut waker: Option<Waker> = seat.flatten().or(self.unseated.take());
        // meeting: Register
        let pending = cx.register(&self.source, &mut waker);
        let (answer, spare) = self.share.poll(&self.rt, waker);
        match answer {
            Slotted::Value(out) => {
                self.is_taken = true;
                Poll::Ready(out)
            }
            Slotted::Gone(over) => {
                self.asked = Some(Asked::Gone(over));
                self.unseated = spare.flatten();
                pending
            }
            Slotted::Waits(seat) => {
                self.asked = Some(Asked::Waits(seat));
                pending
            }
        }
    }
}

/// A call that was cancelled: a future of the answer that was there before the cancel, or else of None, which comes once the
/// job is over. Until that was taken it may be polled.
/// (See the example at [`Task::cancel`].)
pub struct Cancel<F: Call<Out: Drop>, H: Wait + Copy> {
    share: Arc<CallShare<F>>,
    source: Source,
    found: KeptAnswer<AnswerOf<F>>,
    // What the slot answered to the last poll, where nothing was found: only a slot can.
    answer: Option<Slotted<F::Out>>,
    is_taken: bool,
    rt: H,
}

// (as a derive has it; by hand it is proved here once, and not in each crate that drops one)
impl<F: Call<Out: Drop>, H: Wait + Copy> Drop for Cancel<F, H> {
    fn drop(self) {
        let Cancel {
            share,
            source: _,
            found,
            answer,
            is_taken: _,
            rt: _,
        } = self;
        drop(share);
        drop(found);
        drop(answer);
    }
}

impl<F: Call<Out: Drop>, H: Wait + Copy> Cancel<F, H> {
    ghost use Rattle.std.specs.Prelude.{IfSome, Some};
    ghost use Rattle.futures.specs.declared.task.Poll.{Poll};
    ghost use Rattle.futures.specs.Poll.{IfReady, OnPending};
    ghost use Rattle.blocking_executor.specs.SlotAnswers.{settled};

    fn new(
        rt: H,
        share: Arc<CallShare<F>>,
        source: Source,
        found: KeptAnswer<AnswerOf<F>>,
    ) -> Cancel<F, H>
        ensures fresh { result.is_taken ≡ false }
        ensures found { result.found ≡ found }
        ensures source_is { result.source ≡ source }
    {
        Cancel {
            share,
            source,
            found,
            answer: None,
            is_taken: false,
            rt,
        }
    }

    /// Whether what it gives was taken. It may be polled as long as it wasn't.
    pub fn is_taken(&self) -> bool
        ensures { result ≡ self.now.is_taken }
    {
        self.is_taken
    }

    // What it gives is given once.
    fn give(&mut self) -> Poll<Option<F::Out>>
        ensures result_is { result ≡ Poll.Ready self.old.found }
        ensures taken { self.new.is_taken ≡ true }
        ensures same { (self.new.source ≡ self.old.source) × (self.new.answer ≡ self.old.answer) }
        ensures allowed { IfReady result (λ out. IfSome out F.may_give) }
    {
        self.is_taken = true;
        Poll::Ready(self.found.take())
    }

    // Gives what was found, unless the slot still waits for its job.
    fn settle(&mut self, answer: Slotted<F::Out>) -> Poll<Option<F::Out>>
        requires { self.old.is_taken ≡ false }
        ensures settled { result ≡ settled answer self.old.found }
        ensures taken { IfReady result (λ _. self.new.is_taken ≡ true) }
        ensures again { OnPending result
            ((self.new.is_taken ≡ false) × (self.new.found ≡ self.old.found)) }
        ensures source_is { self.new.source ≡ self.old.source }
        ensures asked { self.new.answer ≡ Some answer }
        ensures allowed { IfReady result (λ out. IfSome out F.may_give) }
    {
        match answer {
            Slotted::Waits(seat) => {
                self.answer = Some(Slotted::Waits(seat));
                Poll::Pending
            }
            // (an abandoned slot takes no value)
            over => {
                self.answer = Some(over);
                self.give()
            }
        }
    }
}

impl<F: Call<Out: Drop>, H: Wait + Copy> Future for Cancel<F, H> {
    ghost use Rattle.std.specs.Prelude.{IfSome, IsSomeAnd, None};
    ghost use Rattle.futures.specs.Poll.{IfReady, OnPending};
    ghost use Rattle.futures.specs.Task.{Covers, Keeps};
    ghost use Rattle.blocking_executor.specs.SlotAnswers.{settled};

    type Output = Option<F::Out>;

    ghost can_poll = { λ cancel. cancel.is_taken ≡ false };

    ghost needs = { λ cancel source. source ≡ cancel.source.id };

    ghost gives = { λ cancel out. (out ≡ cancel.found) × IfSome out F.may_give };

    fn poll(&mut self, cx: &mut Context<'_>) -> Poll<Option<F::Out>>
        requires { self.old.is_taken ≡ false }
        ensures value { IfReady result (λ out. (out ≡ self.old.found) × IfSome out F.may_give) }
        ensures taken { IfReady result (λ _. self.new.is_taken ≡ true) }
        ensures at_once { OnPending result (self.old.found ≡ None) }
        ensures asked { self.old.found ≡ None → IsSomeAnd self.new.answer (λ answer. result ≡ settled answer self.old.found) }
        ensures again { OnPending result
            ((self.new.is_taken ≡ false) × (self.new.found ≡ self.old.found)) }
        ensures registered { OnPending result
            (Covers cx.new (λ source. source ≡ self.new.source.id)) }
        ensures kept { Keeps cx.old cx.new }
    {
        if self.found.is_some() {
            return self.give();
        }
        // (the waker of an earlier poll is used again, as by a task)
        let mut waker: Option<Waker> = match self.share.look(&self.rt) {
            Looked::Value(late) => return self.settle(Slotted::Value(late)),
            Looked::Seat(seat) => seat.flatten(),
        };
        // meeting: Register
        let _pending: Poll<Self::Output> = cx.register(&self.source, &mut waker);
        let (answer, spare) = self.share.poll(&self.rt, waker);
        drop(spare);
        self.settle(answer)
    }
}

/// Runs a call on the executor's pool, for the client of this share. Its memory is taken before it enters.
///
/// A refused call is handed back, and nothing of it is left in the pool.
///
/// The call is queued at once, before any poll of its task, and a worker may begin it then:
///
/// ```rust
/// let task = unblock(&executor, Double(21))?;
/// // (here a worker may have made the call already)
/// let doubled = block_on(&rt, task)?;
/// ```
pub fn unblock<F: Call<Out: Drop> + Drop, J: Job + Carries<CallJob<F, H>>, H: Runtime>(
    executor: &Executor<J, H>,
    call: F,
) -> Result<Task<F, H>, Refused<F>>
    ensures refused { IfErr result (λ refused. refused.back ≡ call) }
    ensures fresh { IfOk result (λ task. task.is_taken ≡ false) }
    ensures client { IfOk result (λ task. task.job.client ≡ executor.now.client) }
{
    unblock_for(executor, executor.client(), call)
}

/// Runs a call of a client on the executor's pool, as [`unblock`] does: of each client no more jobs run than
/// [`set_client_limit`](crate::set_client_limit) allows, while other clients' pass them by.
///
/// ```rust
/// // The client of a backup. What names none is client 0's.
/// const BACKUP: u32 = 1;
///
/// let saved = unblock_for(&executor, BACKUP, Double(21))?;
/// let asked = unblock(&executor, Double(4))?;
/// ```
pub fn unblock_for<F: Call<Out: Drop> + Drop, J: Job + Carries<CallJob<F, H>>, H: Runtime>(
    executor: &Executor<J, H>,
    client: u32,
    call: F,
) -> Result<Task<F, H>, Refused<F>>
    ensures refused { IfErr result (λ refused. refused.back ≡ call) }
    ensures fresh { IfOk result (λ task. task.is_taken ≡ false) }
    ensures client { IfOk result (λ task. task.job.client ≡ client) }
{
    let rt = executor.runtime();
    let Ok(share) = Arc::new(rt.alloc(), CallShare::new()) else {
        return Err(Refused {
            back: call,
            why: Refusal::Memory,
        });
    };
    let Ok(theirs) = Arc::try_clone(&share) else {
        return Err(Refused {
            back: call,
            why: Refusal::Memory,
        });
    };
    match executor.add_for(client, J::wrap(CallJob::new(rt, call, theirs))) {
        Ok(job) => Ok(Task::new(rt, share, job)),
        Err(refused) => Err(CallJob::refused_call(refused.unwrap())),
    }
}
