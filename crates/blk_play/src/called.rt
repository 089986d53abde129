//! Tasks, jobs that wait and copiers as a script has them, and what their lines show.
use crate::call::CallTrack;
use crate::check::Breach;
use crate::desk::Desk;
use crate::line::{CopierLine, JobLine, TaskLine};
use crate::owned::whether;
use crate::patience::POLLS;
use crate::shown::{NOTHING, Shown};
use crate::stage::{Awaits, Copies, Copying, Gave, Wakes};
use crate::track::Track;
use crate::waiter::JobTrack;
use blocking_core::pool::{JobNo, Woke};
use futures::test::MockTask;
use std::sync::Arc;

/// A call, and the task that awaits it.
#[derive(Drop)]
pub(crate) struct Called<T: Drop> {
    /// None once nobody awaits it.
    pub task: Option<T>,
    pub track: Arc<CallTrack>,
    pub waker: MockTask,
    /// How often it was made when its cancel gave nothing.
    pub made_at_none: Option<u64>,
}

impl<T: Awaits> Called<T> {
    fn poll(&mut self) -> Option<Gave> {
        let gave = self.task.as_mut()?.poll(&self.waker)?;
        if gave == Gave::Nothing {
            self.made_at_none = Some(self.track.made());
        }
        Some(gave)
    }

    fn is_woken(&self, desk: &Desk) -> bool {
        desk.patience.until(|| self.waker.is_woken())
    }

    /// Polls after each wake, until an answer comes.
    pub(crate) fn awaits(&mut self, desk: &Desk) -> Option<Gave> {
        for _ in 0..POLLS {
            let gave = self.poll();
            if gave != Some(Gave::Waits) || !self.is_woken(desk) {
                return gave;
            }
        }
        None
    }

    fn detach(&mut self) -> Shown {
        match self.task.take().map(|task| task.detach()) {
            Some(true) => Shown::Word("detached"),
            _ => NOTHING,
        }
    }

    fn cancel(&mut self) -> Shown {
        match self.task.as_mut().map(|task| task.cancel()) {
            Some(true) => Shown::Word("cancelled"),
            _ => NOTHING,
        }
    }

    /// What a line shows.
    pub(crate) fn play(&mut self, line: TaskLine, desk: &Desk) -> Shown {
        match line {
            TaskLine::Poll => self.poll().map_or(NOTHING, Shown::Gave),
            TaskLine::Await => match self.awaits(desk) {
                Some(Gave::Waits) => Shown::Word("no answer"),
                Some(gave) => Shown::Gave(gave),
                None => NOTHING,
            },
            TaskLine::Cancel => self.cancel(),
            TaskLine::Detach => self.detach(),
            TaskLine::Drop => match self.task.take() {
                Some(_) => Shown::Word("dropped"),
                None => NOTHING,
            },
            TaskLine::SoonWoken => whether(self.is_woken(desk), "woken", "asleep"),
            TaskLine::Asleep => whether(self.waker.is_woken(), "woken", "asleep"),
            TaskLine::Made => whether(self.track.made() > 0, "made", "unmade"),
            TaskLine::SoonMade => {
                whether(
                    desk.patience.until(|| self.track.made() > 0),
                    "made",
                    "unmade",
                )
            }
            TaskLine::Dropped => Shown::Count("dropped", self.track.dropped()),
            TaskLine::SoonDropped(times) => {
                let _ = desk.patience.until(|| self.track.dropped() >= times);
                Shown::Count("dropped", self.track.dropped())
            }
        }
    }

    /// At any time: it was made once at most, and not behind a cancel that gave nothing.
    pub(crate) fn breach(&self) -> Option<Breach> {
        let (made, dropped) = (self.track.made(), self.track.dropped());
        match self.made_at_none {
            Some(before) if made > before => Some("a call was made after its cancel"),
            _ if made > 1 => Some("a call was made twice"),
            _ if dropped > 1 => Some("a call or its answer was dropped twice"),
            _ => None,
        }
    }

    /// At the end, once all rests.
    pub(crate) fn is_over(&self) -> Option<Breach> {
        match self.breach() {
            None if self.track.dropped() == 0 => Some("neither a call nor its answer was dropped"),
            breach => breach,
        }
    }
}

/// A job that waits.
#[derive(Drop)]
pub(crate) struct Waiting {
    pub number: JobNo,
    pub track: Arc<JobTrack>,
}

impl Waiting {
    // Whether each of so many waits is answered by one wake.
    fn is_woken_each<S: Wakes>(&self, stage: &S, waits: u64, desk: &Desk) -> bool {
        for wait in 0..waits {
            let comes = desk.patience.until(|| self.track.steps() > wait);
            if !comes || stage.wake(self.number) == Woke::Nothing {
                return false;
            }
        }
        true
    }

    /// What a line shows.
    pub(crate) fn play<S: Wakes>(&self, stage: &S, line: JobLine, desk: &Desk) -> Shown {
        let track = &*self.track;
        match line {
            JobLine::Wake => Shown::Woke(stage.wake(self.number)),
            JobLine::WakeEach(waits) => {
                let is_woken = self.is_woken_each(stage, waits, desk);
                Shown::Number(if is_woken { waits } else { 0 }, "wakes")
            }
            JobLine::Mark => {
                track.mark();
                Shown::Word("marked")
            }
            JobLine::Steps(steps) => {
                let _ = desk.patience.until(|| track.steps() >= steps);
                Shown::Count("step", track.steps())
            }
            JobLine::SoonDropped(steps) => {
                let goes = desk.patience.until(|| track.drops() > 0);
                if goes && track.steps() == steps {
                    return Shown::Count("dropped after", steps);
                }
                Shown::Count(
                    if goes {
                        "dropped at step"
                    } else {
                        "there at step"
                    },
                    track.steps(),
                )
            }
            JobLine::Drops => Shown::Count("drops", track.begun_drops()),
        }
    }
}

// Where the handle that gave is behind what the other took, from these places on; None where a byte is another.
fn place_behind(reader: &Track, writer: &Track, (from, to): (usize, usize)) -> Option<usize> {
    let mut place = from;
    for taken in to..writer.took.len() {
        let took = writer.took.get(taken);
        if took.is_some() && took != reader.gave.get(place) {
            return None;
        }
        place = place.saturating_add(1);
    }
    Some(place)
}

// What is wrong with a copy that began at these places.
fn breach_of(
    reader: &Track,
    writer: &Track,
    places: (usize, usize),
    copying: Copying,
) -> Option<Breach> {
    let Some(place) = place_behind(reader, writer, places) else {
        return Some("a copy wrote another byte than was read");
    };
    let (gave, took) = (
        reader.gave.len(),
        writer.took.len().saturating_sub(places.1),
    );
    match copying {
        Copying::Copied(count) if place != gave || took as u64 != count => {
            Some("a copy was done before all was written")
        }
        _ if place > gave => Some("a copy wrote more than was read"),
        _ => None,
    }
}

/// A copier.
#[derive(Drop)]
pub(crate) struct Copied<C: Drop> {
    /// None once it was dropped.
    pub copier: Option<C>,
    /// How many bytes its writer took.
    pub count: u64,
    pub waker: MockTask,
    pub reader: Arc<Track>,
    pub writer: Arc<Track>,
    /// Where the copy began, in what the reader gave and in what the writer took; None where nobody knows.
    pub places: Option<(usize, usize)>,
}

impl<C: Copies> Copied<C> {
    fn poll(&mut self) -> Copying {
        let Some(copier) = &mut self.copier else {
            return Copying::Nothing;
        };
        let (copying, count) = copier.poll(&self.waker);
        if copying != Copying::Nothing {
            self.count = count;
        }
        copying
    }

    fn copied(&self) -> Option<u64> {
        if self.copier.is_some() {
            Some(self.count)
        } else {
            None
        }
    }

    // Polls after each wake, until `count` bytes are copied and the copier waits.
    fn awaits(&mut self, wanted: u64, desk: &mut Desk) -> Copying {
        for _ in 0..u64::MAX {
            let copying = self.poll();
            desk.note(self.breach(copying));
            if copying != Copying::Waits || self.copied().unwrap_or(0) >= wanted {
                return copying;
            }
            if !desk.patience.until(|| self.waker.is_woken()) {
                break;
            }
        }
        Copying::Waits
    }

    // What the writer took is a first part of what the reader gave; all of it where the copy is done.
    fn breach(&self, copying: Copying) -> Option<Breach> {
        match self.places {
            Some(places) => breach_of(&self.reader, &self.writer, places, copying),
            None => None,
        }
    }

    /// What a line shows.
    pub(crate) fn play(&mut self, line: CopierLine, desk: &mut Desk) -> Shown {
        match line {
            CopierLine::Poll => {
                let copying = self.poll();
                desk.note(self.breach(copying));
                Shown::Copying(copying)
            }
            CopierLine::Await => Shown::Copying(self.awaits(u64::MAX, desk)),
            CopierLine::Until(count) => match self.awaits(count, desk) {
                Copying::Waits if self.copied().unwrap_or(0) < count => Shown::Word("no answer"),
                copying => Shown::Copying(copying),
            },
            CopierLine::Copied => match self.copied() {
                Some(count) => Shown::Count("copied", count),
                None => NOTHING,
            },
            CopierLine::Apart => match self.copier.take() {
                Some(copier) => {
                    copier.take_apart();
                    Shown::Word("apart")
                }
                None => NOTHING,
            },
            CopierLine::Drop => match self.copier.take() {
                Some(_) => Shown::Word("dropped"),
                None => NOTHING,
            },
        }
    }
}
