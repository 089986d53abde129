//! Where a thread is in its code.
ghost use Rattle.std.specs.Prelude.{◌≡◌, ◌<◌, true, false, map};
ghost use Rattle.blocking_pool.specs.Jobs.{one_if};
ghost use Rattle.blocking_schedule.specs.Places.{bell_of_stop, is_late, is_rung, late_of, sleepers, swept_of, chosen_by, next_with, place_of, waking_of, was_swept, woken_from};

use blocking_pool::pool::BellKind;

/// How a job came into the queue.
#[derive(Clone, Copy)]
pub enum Origin {
    /// Its own section rang a worker for it.
    Rung,
    /// One sweep put it back with others, and rang one worker for all of them.
    Swept,
}

/// Why a wait at the condition variable ends.
#[derive(Clone, Copy)]
pub enum Waking {
    /// A ring chose the worker, at the condition variable or by a claim.
    Rung,
    /// No ring did, and the time isn't up.
    ByItself,
    /// No ring did, and its time is up.
    TimedOut,
    /// A ring chose the worker, and its time was up as well by then.
    RungLate,
}

/// What a thread goes on to after a section.
#[derive(Clone, Copy)]
pub enum Next {
    /// A caller's call returns.
    Return,
    /// A worker has a job in its hand, to run it or to drop it.
    Turn(Origin),
    /// A worker has a pass and no job.
    Free,
    /// A worker is gone.
    Stop,
}

/// Where a thread is. Whoever is in one of the places from `Waited` to `Told` has the pool's lock, and nobody else has.
#[derive(Clone, Copy)]
pub enum Place {
    /// A caller outside of the executor.
    Outside,
    /// A thread that may be started as a worker.
    Spare,
    /// A worker that was started and hasn't arrived.
    Started,
    /// A worker with a job in its hand.
    Turn(Origin),
    /// A worker with a pass, which looks next.
    Free,
    /// A worker that looks. Whether it was claimed is known to whoever claimed it alone.
    Looking(bool),
    /// A worker that takes the lock next. Whether it was claimed, as above.
    Looked(bool),
    /// A worker that sleeps at the condition variable.
    Sleeping,
    /// A worker whose sleep is over, and that takes the lock again next.
    Woken(Waking),
    /// A worker with the lock, which doesn't sleep, or not any more.
    Waited(Waking),
    /// A worker with the lock whose time was up, and that has put jobs back: whether a ring chose it. One is to be rung.
    HasSwept(bool),
    /// A worker with the lock and a pass, which takes next: whether a ring chose it, and whom to ring.
    Passing(bool, BellKind),
    /// The pool's calls of the section are made: whom to ring, and what comes after the section.
    Called(BellKind, Next),
    /// A worker that looks was claimed, or none was: whom still to ring.
    Claimed(BellKind, Next),
    /// Whoever looks was told whether a job is queued.
    Told(BellKind, Next),
    /// The lock is let go, and the condition variable is rung next.
    Ringing(BellKind, Next),
    /// A worker that is gone.
    Stopped,
}

/// Whether a sweep put the job back with others.
pub(crate) fn was_swept(origin: Origin) -> bool
    ensures counts { one_if result ≡ swept_of origin }
    ensures is { result ≡ was_swept origin }
{
    matches!(origin, Origin::Swept)
}

/// Why a worker that has looked goes on.
pub(crate) fn waking_of(claimed: bool) -> Waking
    ensures chosen { chosen_by result ≡ one_if claimed }
    ensures is { result ≡ waking_of claimed }
{
    if claimed {
        Waking::Rung
    } else {
        Waking::ByItself
    }
}

/// Whether a ring chose the worker.
pub(crate) fn is_rung(why: Waking) -> bool
    ensures counts { one_if result ≡ chosen_by why }
    ensures is { result ≡ is_rung why }
{
    matches!(why, Waking::Rung | Waking::RungLate)
}

/// Whether the worker's time was up.
pub(crate) fn is_late(why: Waking) -> bool
    ensures { result ≡ is_late why }
{
    matches!(why, Waking::TimedOut | Waking::RungLate)
}

/// Why a wait ends once the time is up.
pub(crate) fn late(why: Waking) -> Waking
    ensures chosen { chosen_by result ≡ chosen_by why }
    ensures is { result ≡ late_of why }
{
    match why {
        Waking::Rung | Waking::RungLate => Waking::RungLate,
        Waking::ByItself | Waking::TimedOut => Waking::TimedOut,
    }
}

/// Whom a worker that stops rings: one, where a job is queued.
pub(crate) fn bell_of_stop(has_job: bool) -> BellKind
    ensures { result ≡ bell_of_stop has_job }
{
    if has_job {
        BellKind::One
    } else {
        BellKind::Silent
    }
}

/// Where a thread is after its section.
pub(crate) fn place_after(next: Next) -> Place
    ensures { result ≡ place_of next }
{
    match next {
        Next::Return => Place::Outside,
        Next::Turn(origin) => Place::Turn(origin),
        Next::Free => Place::Free,
        Next::Stop => Place::Stopped,
    }
}

/// Whether a worker sleeps.
pub(crate) fn someone_sleeps(threads: &[Place]) -> bool
    ensures nobody { result ≡ false → sleepers threads.now ≡ 0 }
    ensures someone { result ≡ true → 0 < sleepers threads.now }
{
    for place in threads {
        if let Place::Sleeping = place {
            return true;
        }
    }
    false
}

/// Where a thread is after a ring of all.
fn woken(place: Place) -> Place
    ensures { result ≡ woken_from place }
{
    match place {
        Place::Sleeping => Place::Woken(Waking::Rung),
        _ => place,
    }
}

/// Each worker that sleeps is woken by a ring.
pub(crate) fn wake_all(threads: &mut [Place])
    ensures { threads.new ≡ map woken_from threads.old }
{
    for place in threads.iter_mut() {
        *place = woken(*place);
    }
}
