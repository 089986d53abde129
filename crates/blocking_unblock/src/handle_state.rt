//! Where a handle is.
ghost use Rattle.std.specs.Prelude.{◌≡◌};
ghost use Rattle.std.specs.Borrow.{sem};
ghost use Rattle.std.specs.Option.{option_copied_mut};
ghost use Rattle.blocking_unblock.specs.Loans.{lends_place};
ghost use Rattle.blocking_unblock.specs.Owners.{state_of, handle_in, IsLetGo, is_lost};

use crate::session::{Session, Tools};
use crate::spare::Spare;
use blocking_core::pool::WakeNote;
use blocking_core::unblock::State;
use std::sync::Wait;

/// Where the handle is.
#[derive(Drop)]
pub(crate) enum HandleState<T: Drop, I: Drop, H: Wait + Copy> {
    /// With its owner.
    Idle(T),
    /// With the job of a session.
    Lent(Session<T, I, H>),
    /// Nowhere: it was dropped.
    Closed,
}

impl<T: Drop, I: Drop, H: Wait + Copy> HandleState<T, I, H> {
    pub(crate) fn state(&self) -> State
        ensures { result ≡ state_of self.now }
    {
        match self {
            HandleState::Idle(_) => State::Idle,
            HandleState::Lent(session) => State::Lent(session.kind(), session.owner_end()),
            HandleState::Closed => State::Closed,
        }
    }

    /// Lets the owner's end of a session's pipe go, if there is one and it is open: it is closed. Answers the note of a job that waits, which has to
    /// be spent.
    pub(crate) fn let_go(&mut self) -> Option<WakeNote>
        ensures let_go { IsLetGo (state_of self.new) }
        ensures held { is_lost self.new ≡ is_lost self.old }
    {
        match self {
            HandleState::Lent(session) => session.let_go(),
            HandleState::Idle(_) | HandleState::Closed => None,
        }
    }

    /// Sets the mark of the session, if there is one: its owner is gone.
    pub(crate) fn mark(&self) {
        if let HandleState::Lent(session) = self {
            session.mark();
        }
    }

    /// The handle, where it is with its owner.
    pub(crate) fn handle_mut(&mut self) -> Option<&mut T>
        ensures* lends { sem 𝓛 (lends_place T.row I.row H.row self.entry result) }
        ensures handle { option_copied_mut result ≡ handle_in self.old }
    {
        match self {
            HandleState::Idle(handle) => Some(handle),
            HandleState::Lent(_) | HandleState::Closed => None,
        }
    }

    /// What is left of a session whose handle came back, with what its job worked with.
    pub(crate) fn into_spare(self, tools: Tools<H>) -> Spare {
        match self {
            HandleState::Lent(session) => session.into_spare(tools),
            HandleState::Idle(_) | HandleState::Closed => Spare::Nothing,
        }
    }

    /// The handle, where it is with its owner. A session that is under way is marked.
    pub(crate) fn into_handle(self) -> Option<T>
        ensures { result ≡ handle_in self }
    {
        match self {
            HandleState::Idle(handle) => Some(handle),
            HandleState::Lent(session) => {
                session.mark();
                None
            }
            HandleState::Closed => None,
        }
    }
}
