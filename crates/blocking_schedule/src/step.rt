//! What a thread may do next.
ghost use Rattle.std.specs.Prelude.{◌≡◌, true};
ghost use Rattle.blocking_schedule.specs.Locks.{IsInOrder, lock_of, lock_wanted};
ghost use Rattle.blocking_schedule.specs.Steps.{is_place_of, thread_of};

use crate::place::{Origin, Place};

/// A lock of the executor's.
#[derive(Clone, Copy)]
pub enum Lock {
    /// The pool's.
    Pool,
    /// The desk's, at which whoever has the pool's asks for a worker and waits for the spawner's answer. Nobody takes another lock while it
    /// has this one.
    Desk,
}

/// One atomic act, or one section under the pool's lock. The first number says which thread it is of; a step that this thread can't take
/// where it is changes nothing.
#[derive(Clone, Copy)]
pub enum Step {
    /// A caller adds a job, which is accepted.
    Add(usize),
    /// A caller wakes a parked job.
    Wake(usize),
    /// A caller's sweep puts so many jobs back.
    Sweep(usize, u64),
    /// A caller sets the limit.
    SetLimit(usize, u64),
    /// A caller's section that queues nothing: a job is refused, a wake meets no parked job, a sweep finds nothing, counts are asked for.
    Nothing(usize),
    /// A started worker arrives.
    Arrive(usize),
    /// A turn ends, and its worker is free. Its job was queued again, where a wake met it.
    End(usize, bool),
    /// A turn goes on after a section: its job is handed out to be dropped, or isn't running in this pool.
    GoOn(usize),
    /// A worker begins to look, unless one does that may be claimed.
    Look(usize),
    /// A worker ends its look.
    EndLook(usize),
    /// A worker takes the lock after its look, and sleeps if it sees that it may.
    Wait(usize),
    /// The time of a worker is up that sleeps, or that was woken and hasn't the lock yet. It finds out by its clock, also where a ring
    /// woke it.
    TimeOut(usize),
    /// A worker that sleeps wakes by itself.
    WakeUp(usize),
    /// A worker whose sleep is over takes the lock.
    Return(usize),
    /// A worker whose time was up puts so many jobs back.
    SweepLate(usize, u64),
    /// A worker that has waited stays or stops, by the pool's rule.
    StayOrStop(usize),
    /// A worker takes a job: one of this origin where there is one, else another.
    Take(usize, Origin),
    /// The pool grows by one worker in the section of the first thread: the second.
    Start(usize, usize),
    /// The start of a worker is refused.
    Refuse(usize),
    /// The ring of one claims a worker that looks, the second thread, if there is one.
    Claim(usize, usize),
    /// Whoever looks is told whether a job is queued.
    Tell(usize),
    /// The lock is let go.
    LetGo(usize),
    /// The condition variable is rung. A ring of one wakes the second thread, if anybody sleeps.
    Ring(usize, usize),
}

impl Step {
    /// The thread that takes it.
    pub fn who(&self) -> usize
        ensures { result ≡ thread_of self.now }
    {
        match *self {
            Step::Add(who)
            | Step::Wake(who)
            | Step::Sweep(who, _)
            | Step::SetLimit(who, _)
            | Step::Nothing(who)
            | Step::Arrive(who)
            | Step::End(who, _)
            | Step::GoOn(who)
            | Step::Look(who)
            | Step::EndLook(who)
            | Step::Wait(who)
            | Step::TimeOut(who)
            | Step::WakeUp(who)
            | Step::Return(who)
            | Step::SweepLate(who, _)
            | Step::StayOrStop(who)
            | Step::Take(who, _)
            | Step::Start(who, _)
            | Step::Refuse(who)
            | Step::Claim(who, _)
            | Step::Tell(who)
            | Step::LetGo(who)
            | Step::Ring(who, _) => who,
        }
    }

    /// Whether a thread takes it at this place. A thread that waits for a lock by it has none, but that of the pool where it waits for the
    /// desk's.
    pub fn is_at(&self, place: Place) -> bool
        ensures order { result ≡ true → IsInOrder (lock_of place) (lock_wanted self.now) }
        ensures is { result ≡ is_place_of self.now place }
    {
        match *self {
            Step::Add(_)
            | Step::Wake(_)
            | Step::Sweep(_, _)
            | Step::SetLimit(_, _)
            | Step::Nothing(_) => matches!(place, Place::Outside),
            Step::Arrive(_) => matches!(place, Place::Started),
            Step::End(_, _) | Step::GoOn(_) => matches!(place, Place::Turn(_)),
            Step::Look(_) => matches!(place, Place::Free),
            Step::EndLook(_) => matches!(place, Place::Looking(_)),
            Step::Wait(_) => matches!(place, Place::Looked(_)),
            Step::TimeOut(_) => matches!(place, Place::Sleeping | Place::Woken(_)),
            Step::WakeUp(_) => matches!(place, Place::Sleeping),
            Step::Return(_) => matches!(place, Place::Woken(_)),
            Step::SweepLate(_, _) => matches!(place, Place::Waited(_)),
            Step::StayOrStop(_) => matches!(place, Place::Waited(_) | Place::HasSwept(_)),
            Step::Take(_, _) => matches!(place, Place::Passing(_, _)),
            Step::Start(_, _) | Step::Refuse(_) | Step::Claim(_, _) => {
                matches!(place, Place::Called(_, _))
            }
            Step::Tell(_) => matches!(place, Place::Claimed(_, _)),
            Step::LetGo(_) => matches!(place, Place::Told(_, _)),
            Step::Ring(_, _) => matches!(place, Place::Ringing(_, _)),
        }
    }
}
