//! The tasks of scripted calls.
use crate::call::{Answered, Scripted};
use crate::stage::{Awaits, Gave};
use blocking::{Cancel, Runtime, Task};
use futures::task::Poll;
use futures::test::MockTask;
use std::mem;

/// A task, or what is left of it.
#[derive(Drop)]
pub(crate) enum Awaited<H: Runtime + Drop> {
    Task(Task<Scripted<H>, H>),
    Cancel(Cancel<Scripted<H>, H>),
    Nobody,
}

// What an answer says; it is dropped.
fn number_of(answer: Answered) -> Gave {
    Gave::Number(answer.number())
}

fn poll_task<H: Runtime + Drop>(task: &mut Task<Scripted<H>, H>, waker: &MockTask) -> Option<Gave> {
    if task.is_taken() {
        return None;
    }
    Some(match waker.poll(task) {
        Poll::Pending => Gave::Waits,
        Poll::Ready(answer) => number_of(answer),
    })
}

fn poll_cancel<H: Runtime + Drop>(
    cancel: &mut Cancel<Scripted<H>, H>,
    waker: &MockTask,
) -> Option<Gave> {
    if cancel.is_taken() {
        return None;
    }
    Some(match waker.poll(cancel) {
        Poll::Pending => Gave::Waits,
        Poll::Ready(Some(answer)) => number_of(answer),
        Poll::Ready(None) => Gave::Nothing,
    })
}

impl<H: Runtime + Drop> Awaits for Awaited<H> {
    fn poll(&mut self, task: &MockTask) -> Option<Gave> {
        match self {
            Awaited::Task(awaited) => poll_task(awaited, task),
            Awaited::Cancel(cancel) => poll_cancel(cancel, task),
            Awaited::Nobody => None,
        }
    }

    fn cancel(&mut self) -> bool {
        match mem::replace(self, Awaited::Nobody) {
            Awaited::Task(task) => {
                if task.is_taken() {
                    return false;
                }
                *self = Awaited::Cancel(task.cancel());
                true
            }
            other => {
                *self = other;
                false
            }
        }
    }

    fn detach(self) -> bool {
        match self {
            Awaited::Task(task) => {
                task.detach();
                true
            }
            Awaited::Cancel(_) | Awaited::Nobody => false,
        }
    }
}
