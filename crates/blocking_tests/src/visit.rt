//! A call that stops where a test wants it to, and lets the test see how far it came.
use blocking_core::task::Call;
use std::sync::Arc;
use std::sync::atomic::{AtomicBool, AtomicUsize, Ordering};
use std::thread;

/// How often a test looks for what has to come, before it says that it doesn't: for some seconds, and longer beside other work.
pub(crate) const LOOKS: u32 = 20_000_000;

// How often a call that has stopped looks so, before it goes on by itself.
const STOP_LOOKS: u32 = 20;

/// Whether the flag is set before long.
pub(crate) fn comes(flag: &AtomicBool) -> bool {
    for _ in 0..LOOKS {
        if flag.load(Ordering::SeqCst) {
            return true;
        }
        thread::yield_now();
    }
    false
}

/// Whether the count comes so far before long.
pub(crate) fn reaches(count: &AtomicUsize, wanted: usize) -> bool {
    for _ in 0..LOOKS {
        if count.load(Ordering::SeqCst) >= wanted {
            return true;
        }
        thread::yield_now();
    }
    false
}

/// Where a call stops until it is let go on.
#[derive(Clone, Copy)]
pub(crate) enum Stop {
    /// It stops nowhere.
    Nowhere,
    /// While it is made.
    InCall,
    /// While it is dropped, since it wasn't made.
    InDrop,
}

/// What a test and its call share, or its handle, whose drop counts as one of the call.
#[derive(Drop)]
pub(crate) struct Track {
    number: usize,
    stop: Stop,
    has_stopped: AtomicBool,
    may_go_on: AtomicBool,
    is_made: AtomicBool,
    is_gone: AtomicBool,
    drops: AtomicUsize,
}

impl Track {
    pub(crate) fn new(number: usize, stop: Stop) -> Track {
        Track {
            number,
            stop,
            has_stopped: AtomicBool::new(false),
            may_go_on: AtomicBool::new(false),
            is_made: AtomicBool::new(false),
            is_gone: AtomicBool::new(false),
            drops: AtomicUsize::new(0),
        }
    }

    /// Stops until it is let go on. (a stop lasts longer than a test looks for anything)
    pub(crate) fn stop(&self) {
        self.has_stopped.store(true, Ordering::SeqCst);
        for _ in 0..STOP_LOOKS {
            if comes(&self.may_go_on) {
                return;
            }
        }
    }

    pub(crate) fn go_on(&self) {
        self.may_go_on.store(true, Ordering::SeqCst);
    }

    /// Whether the call comes to its stop.
    pub(crate) fn stops(&self) -> bool {
        comes(&self.has_stopped)
    }

    /// Whether the call was made.
    pub(crate) fn is_made(&self) -> bool {
        self.is_made.load(Ordering::SeqCst)
    }

    /// Says that the call was dropped unmade, or else its answer was.
    pub(crate) fn leave(&self) {
        self.drops.fetch_add(1, Ordering::SeqCst);
        self.is_gone.store(true, Ordering::SeqCst);
    }

    /// Whether one of them was dropped, once.
    pub(crate) fn is_gone(&self) -> bool {
        self.drops.load(Ordering::SeqCst) == 1
    }

    /// Whether that comes.
    pub(crate) fn goes(&self) -> bool {
        comes(&self.is_gone)
    }
}

/// The call.
pub(crate) struct Visit {
    track: Arc<Track>,
}

impl Visit {
    pub(crate) fn new(track: Arc<Track>) -> Visit {
        Visit { track }
    }
}

impl Call for Visit {
    type Out = Answer;

    ghost may_give = { λ _. Unit {0} };

    fn call(self) -> Answer {
        let Visit { track } = self;
        track.is_made.store(true, Ordering::SeqCst);
        if let Stop::InCall = track.stop {
            track.stop();
        }
        Answer { track }
    }
}

impl Drop for Visit {
    fn drop(self) {
        let Visit { track } = self;
        if let Stop::InDrop = track.stop {
            track.stop();
        }
        track.leave();
    }
}

/// What the call answers.
pub(crate) struct Answer {
    track: Arc<Track>,
}

impl Answer {
    /// The number of its call.
    pub(crate) fn number(&self) -> usize {
        self.track.number
    }
}

impl Drop for Answer {
    fn drop(self) {
        let Answer { track } = self;
        track.leave();
    }
}
