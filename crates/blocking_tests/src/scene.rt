//! Scenes: calls on one executor, played step by step. A step that shows something else than it must ends its scene. The player
//! promises nothing.
use crate::threads::{all_go, count_others};
use crate::visit::{LOOKS, Stop, Track, Visit};
use blocking::{CallJob, Cancel, Executor, Host, Runtime, Task, unblock};
use blocking_core::pool::{Carries, Job};
use futures::task::Poll;
use futures::test::MockTask;
use std::fs::Files;
use std::process::Abort;
use std::random::RandomSource;
use std::sync::Arc;
use std::test::Fail;
use std::{io, mem, thread};

/// What is done, or what has to be seen. Calls are named by their places in the scene.
#[derive(Clone, Copy)]
pub(crate) enum Step {
    /// A call begins, which has this stop.
    Begin(Stop),
    /// Something is done with a call or with its task.
    Do(usize, Act),
    /// Something is seen of a call or of its task.
    See(usize, Sight),
    /// A sweep puts so many jobs back.
    Sweep(usize),
    /// All workers go.
    NoWorker,
}

/// What is done with a call or with its task.
#[derive(Clone, Copy)]
pub(crate) enum Act {
    /// The call goes on from its stop.
    GoOn,
    /// The task is dropped, or its cancel.
    Drop,
    /// The task is detached.
    Detach,
    /// The task is cancelled, and from then on its cancel is polled.
    Cancel,
}

/// What is seen of a call or of its task.
#[derive(Clone, Copy)]
pub(crate) enum Sight {
    /// The call comes to its stop.
    Stops,
    /// The call wasn't made.
    Unmade,
    /// The call was dropped unmade, or its answer was dropped, once.
    Gone,
    /// Neither was dropped.
    There,
    /// One of them is dropped before long.
    Goes,
    /// A poll waits.
    Waits,
    /// The task is woken before long.
    Wakes,
    /// The task wasn't woken since its last poll.
    Sleeps,
    /// A poll gives the answer of this call.
    Gives,
    /// A poll of a cancel gives nothing.
    GivesNone,
}

// Who awaits a call.
#[derive(Drop)]
enum Owner<H: Runtime> {
    Task(Task<Visit, H>),
    Cancel(Cancel<Visit, H>),
    Nobody,
}

// What a poll gave.
#[derive(Drop)]
enum Polled {
    Pending,
    // The answer of the call of this number.
    Answer(usize),
    Nothing,
}

// A call that began.
#[derive(Drop)]
struct Begun<H: Runtime> {
    track: Arc<Track>,
    owner: Owner<H>,
    mock: MockTask,
}

impl<H: Runtime> Begun<H> {
    fn take_owner(&mut self) -> Owner<H> {
        mem::replace(&mut self.owner, Owner::Nobody)
    }

    // Whether that could be done.
    fn act(&mut self, act: Act) -> bool {
        if let Act::GoOn = act {
            self.track.go_on();
            return true;
        }
        let task = match self.take_owner() {
            Owner::Task(task) => task,
            Owner::Cancel(cancel) => {
                drop(cancel);
                return matches!(act, Act::Drop);
            }
            Owner::Nobody => return false,
        };
        match act {
            Act::Detach => task.detach(),
            Act::Cancel if !task.is_taken() => self.owner = Owner::Cancel(task.cancel()),
            _ => drop(task),
        }
        true
    }

    // (none where nobody awaits the call any more)
    fn poll(&mut self) -> Option<Polled> {
        match &mut self.owner {
            Owner::Task(task) => poll_task(&self.mock, task),
            Owner::Cancel(cancel) => poll_cancel(&self.mock, cancel),
            Owner::Nobody => None,
        }
    }

    // Whether that is seen of the call.
    fn shows(&mut self, sight: Sight, number: usize) -> bool {
        match sight {
            Sight::Stops => self.track.stops(),
            Sight::Unmade => !self.track.is_made(),
            Sight::Gone => self.track.is_gone(),
            Sight::There => !self.track.is_gone(),
            Sight::Goes => self.track.goes(),
            Sight::Wakes => wakes(&self.mock),
            Sight::Sleeps => !self.mock.is_woken(),
            Sight::Waits => matches!(self.poll(), Some(Polled::Pending)),
            Sight::Gives => matches!(self.poll(), Some(Polled::Answer(of)) if of == number),
            Sight::GivesNone => matches!(self.poll(), Some(Polled::Nothing)),
        }
    }
}

fn poll_task<H: Runtime>(mock: &MockTask, task: &mut Task<Visit, H>) -> Option<Polled> {
    if task.is_taken() {
        return None;
    }
    Some(match mock.poll(task) {
        Poll::Pending => Polled::Pending,
        Poll::Ready(answer) => Polled::Answer(answer.number()),
    })
}

fn poll_cancel<H: Runtime>(mock: &MockTask, cancel: &mut Cancel<Visit, H>) -> Option<Polled> {
    if cancel.is_taken() {
        return None;
    }
    Some(match mock.poll(cancel) {
        Poll::Pending => Polled::Pending,
        Poll::Ready(Some(answer)) => Polled::Answer(answer.number()),
        Poll::Ready(None) => Polled::Nothing,
    })
}

/// Whether the task is woken before long.
pub(crate) fn wakes(mock: &MockTask) -> bool {
    for _ in 0..LOOKS {
        if mock.is_woken() {
            return true;
        }
        thread::yield_now();
    }
    false
}

// An executor and the calls that began on it.
#[derive(Drop)]
struct Scene<J: Job, H: Runtime> {
    rt: H,
    executor: Executor<J, H>,
    // How many threads were there before its workers.
    others: usize,
    calls: Vec<Begun<H>>,
}

impl<J: Job + Carries<CallJob<Visit, H>>, H: Runtime + RandomSource + Files> Scene<J, H> {
    // Whether a step shows what it must.
    fn take(&mut self, step: Step) -> io::Result<bool> {
        match step {
            Step::Begin(stop) => self.begin(stop),
            Step::Do(place, act) => match self.calls.get_mut(place) {
                Some(call) => Ok(call.act(act)),
                None => Ok(false),
            },
            Step::See(place, sight) => match self.calls.get_mut(place) {
                Some(call) => Ok(call.shows(sight, place)),
                None => Ok(false),
            },
            Step::Sweep(count) => Ok(self.executor.sweep() == count),
            Step::NoWorker => all_go(&self.rt, self.others),
        }
    }

    fn begin(&mut self, stop: Stop) -> io::Result<bool> {
        let track = Arc::new(self.rt.alloc(), Track::new(self.calls.len(), stop))?;
        let call = Visit::new(Arc::try_clone(&track)?);
        let Ok(task) = unblock(&self.executor, call) else {
            return Ok(false);
        };
        self.calls.push(Begun {
            track,
            owner: Owner::Task(task),
            mock: MockTask::new(&self.rt)?,
        })?;
        Ok(true)
    }

    // The place of the first step that shows something else, if there is one.
    fn first_wrong(&mut self, steps: &[Step]) -> io::Result<Option<usize>> {
        for (place, step) in steps.iter().enumerate() {
            if !self.take(*step)? {
                return Ok(Some(place));
            }
        }
        Ok(None)
    }
}

/// A scene: its name and its steps.
pub(crate) type Row = (&'static str, &'static [Step]);

// A scene that has just begun. The setting is the executor's.
fn new_scene<J: Job + Carries<CallJob<Visit, H>> + Send + 'static, H: Host + Files>(
    rt: H,
    setting: &str,
) -> Result<Scene<J, H>, Fail> {
    let others = count_others(&rt)?;
    Ok(Scene {
        rt,
        executor: Executor::new(rt, Some(setting))?,
        // (with the spawner)
        others: others.saturating_add(1),
        calls: Vec::new(rt.alloc()),
    })
}

fn first_wrong<J: Job + Carries<CallJob<Visit, H>> + Send + 'static, H: Host + Files>(
    rt: H,
    setting: &str,
    steps: &[Step],
) -> Result<Option<usize>, Fail> {
    let mut scene: Scene<J, H> = new_scene(rt, setting)?;
    Ok(scene.first_wrong(steps)?)
}

/// Plays a scene.
pub(crate) fn play<J: Job + Carries<CallJob<Visit, H>> + Send + 'static, H: Host + Files + Abort>(
    rt: H,
    setting: &str,
    (name, steps): &Row,
) -> Result<(), Fail> {
    let wrong = first_wrong::<J, H>(rt, setting, steps)?;
    assert_eq!(rt; wrong, None, "{name}");
    Ok(())
}
