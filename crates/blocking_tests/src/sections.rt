//! The pool as its lock holds it: section by section on one thread, each with its exact counts.
use crate::nothing::Nothing;
use blocking::{Counts, Ended, Executor, Held};
use blocking_core::pool::{Finish, Starter, Took, Turn, WorkerPass};
use std::sync::Condvar;
use std::test::Fail;

#[derive(Clone, Copy)]
enum Section {
    Add,
    Arrive,
    // The job is done.
    End,
    // A wait timed out.
    TimeOut,
}

// What the worker has in hand.
enum Hand {
    // Nothing: it hasn't arrived, or has stopped.
    Out,
    Free(WorkerPass),
    Runs(Turn),
}

// The counts after each section, at limit 1: workers, idle, arriving, running and queued.
const SECTIONS: &[(Section, [usize; 5])] = &[
    (Section::Add, [1, 1, 1, 0, 1]),
    (Section::Add, [1, 1, 1, 0, 2]),
    (Section::Arrive, [1, 0, 0, 1, 1]),
    (Section::End, [1, 0, 0, 1, 0]),
    (Section::End, [1, 1, 0, 0, 0]),
    (Section::TimeOut, [0, 0, 0, 0, 0]),
];

fn numbers(counts: Counts) -> [usize; 5] {
    [
        counts.workers,
        counts.idle,
        counts.arriving,
        counts.running,
        counts.queued,
    ]
}

fn hand_of(took: Option<Took<Nothing>>) -> Hand {
    match took {
        Some(Took::Run(turn, _) | Took::Drop(turn, _)) => Hand::Runs(turn),
        Some(Took::Idle(pass)) => Hand::Free(pass),
        None => Hand::Out,
    }
}

fn hand_after(ended: Ended<Nothing>) -> Hand {
    match ended {
        Ended::Took(took) => hand_of(Some(took)),
        Ended::Drop(turn, _) | Ended::Stranger(turn, _) => Hand::Runs(turn),
    }
}

// A pool, and who its bells ring.
#[derive(Drop)]
struct Bench<S: Starter + Drop> {
    held: Held<Nothing>,
    starter: S,
    condvar: Condvar,
}

impl<S: Starter + Drop> Bench<S> {
    // One section, by a worker with this in its hand. One that doesn't fit the hand is left out.
    fn section(&mut self, section: Section, hand: Hand) -> Hand {
        let (hand, bell) = match (section, hand) {
            (Section::Add, hand) => {
                let (_added, bell) = self.held.add(Nothing, &mut self.starter);
                (hand, bell)
            }
            (Section::Arrive, Hand::Out) => {
                let (took, bell) = self.held.arrive(&mut self.starter);
                (hand_of(took), bell)
            }
            (Section::End, Hand::Runs(turn)) => {
                let (ended, bell) = self.held.end(turn, Finish::Done, &mut self.starter);
                (hand_after(ended), bell)
            }
            (Section::TimeOut, Hand::Free(pass)) if self.held.has_idle() => {
                let (took, bell) = self.held.after_wait(pass, true, &mut self.starter);
                (hand_of(took), bell)
            }
            (_, hand) => return hand,
        };
        bell.ring(&self.condvar);
        hand
    }

    // What the worker has in its hand in the end, and the place of the first section with other counts.
    fn play(&mut self) -> (Hand, Option<usize>) {
        let mut hand = Hand::Out;
        for (place, (section, wanted)) in SECTIONS.iter().enumerate() {
            hand = self.section(*section, hand);
            if numbers(self.held.counts()) != *wanted {
                return (hand, Some(place));
            }
        }
        (hand, None)
    }
}

#[test]
fn each_section_is_counted(rt: HostRuntime) -> Result<(), Fail> {
    let executor: Executor<Nothing, HostRuntime> = Executor::new(rt, Some("1"))?;
    let mut bench = Bench {
        held: Held::new(rt.alloc(), Some("1")),
        starter: executor.starter(),
        condvar: Condvar::new(),
    };
    let (hand, wrong) = bench.play();
    assert_eq!(rt; wrong, None);
    match hand {
        Hand::Out => Ok(()),
        Hand::Free(_pass) => panic!(rt; "the worker hasn't stopped"),
        Hand::Runs(_turn) => panic!(rt; "a job still runs"),
    }
}
