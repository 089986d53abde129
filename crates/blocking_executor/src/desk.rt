//! Where a pool's calls ask for threads, and the spawner answers.
use blocking_core::pool::{StartRefused, Starter};
use std::sync::{Condvar, Mutex, MutexGuard, Wait};

// One request at a time. Those of the pool's calls come under its lock; who asks by a starter of its own may come beside them, and waits.
#[derive(Drop)]
enum Request {
    None,
    Asked(u64),
    Answered(bool),
}

/// A lock with a request and its answer.
#[derive(Drop)]
pub(crate) struct Desk {
    request: Mutex<Request>,
    changed: Condvar,
}

impl Desk {
    pub(crate) fn new() -> Desk {
        Desk {
            request: Mutex::new(Request::None),
            changed: Condvar::new(),
        }
    }

    // Takes the lock where nobody else asks.
    fn enter<R: Wait>(&self, rt: &R) -> MutexGuard<'_, Request> {
        let mut request = self.request.lock(rt);
        for _ in rt.forever() {
            if let Request::None = *request {
                return request;
            }
            request = self.changed.wait(rt, request);
        }
        unreachable!()
    }

    // Asks for the worker of this number, and answers whether it was started.
    fn ask<R: Wait>(&self, rt: &R, number: u64) -> bool {
        let mut request = self.enter(rt);
        *request = Request::Asked(number);
        self.changed.notify_all();
        for _ in rt.forever() {
            if let Request::Answered(started) = *request {
                *request = Request::None;
                self.changed.notify_all();
                return started;
            }
            request = self.changed.wait(rt, request);
        }
        unreachable!()
    }

    /// Waits for a request, and gives its number.
    pub(crate) fn asked<R: Wait>(&self, rt: &R) -> u64 {
        let mut request = self.request.lock(rt);
        for _ in rt.forever() {
            if let Request::Asked(number) = *request {
                return number;
            }
            request = self.changed.wait(rt, request);
        }
        unreachable!()
    }

    /// Answers the request.
    pub(crate) fn answer<R: Wait>(&self, rt: &R, started: bool) {
        let mut request = self.request.lock(rt);
        *request = Request::Answered(started);
        self.changed.notify_all();
    }
}

/// Asks the spawner for each worker. There is one for each call and for each worker, and it lends the desk.
#[derive(Drop)]
pub struct ThreadStarter<'a, H: Wait + Copy> {
    desk: &'a Desk,
    rt: H,
    refusals: u64,
}

impl<'a, H: Wait + Copy> ThreadStarter<'a, H> {
    pub(crate) fn new(desk: &'a Desk, rt: H) -> ThreadStarter<'a, H> {
        ThreadStarter {
            desk,
            rt,
            refusals: 0,
        }
    }
}

impl<'a, H: Wait + Copy> Starter for ThreadStarter<'a, H> {
    ghost refusals = { λ s. s.refusals };

    ghost may_answer = { λ _ _ _. Unit {0} };

    fn start(&mut self, number: u64) -> Result<(), StartRefused> {
        for _ in self.rt.forever() {
            // schedule: Start, or Refuse
            if self.desk.ask(&self.rt, number) {
                return Ok(());
            }
            // No starter lives to count so far. If one did, it would ask again.
            if self.refusals < u64::MAX {
                self.refusals += 1;
                return Err(StartRefused);
            }
        }
        unreachable!()
    }
}
