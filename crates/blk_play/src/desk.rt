//! What all parties of a script share while they are played.
use crate::check::Breach;
use crate::gates::Gates;
use crate::patience::Patience;
use crate::patterns::Patterns;
use futures::test::MockTask;
use std::alloc::Global;
use std::sync::Arc;

/// What is read into, written to and looked at.
#[derive(Drop)]
pub(crate) struct Desk {
    pub alloc: Global,
    pub gates: Arc<Gates>,
    pub patterns: Arc<Patterns>,
    pub patience: Patience,
    /// What is read comes to the front of this.
    pub room: Vec<u8>,
    /// What was read to an end.
    pub whole: Vec<u8>,
    /// What a line shows that is longer than a word.
    pub text: String,
    /// Further tasks to poll by.
    pub wakers: Vec<MockTask>,
    /// The first law that was broken.
    pub breach: Option<Breach>,
}

impl Desk {
    /// What a future read: behind a place in what grows, or into the room.
    pub(crate) fn came(&self, is_rest: bool, start: usize) -> &[u8] {
        if is_rest {
            return self.whole.get(start..).unwrap_or(&[]);
        }
        self.room.as_slice()
    }

    /// Notes that a law was broken, if one was.
    pub(crate) fn note(&mut self, breach: Option<Breach>) {
        if self.breach.is_none() {
            self.breach = breach;
        }
    }
}
