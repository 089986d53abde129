//! The owner's side of a session.
ghost use Rattle.std.specs.Prelude.{◌≡◌, ◌+◌, ◌<◌, ◌≤◌, length, true, option_map, IfOk, IfSome, IfNone, OnErr};
ghost use Rattle.futures.specs.Task.{IsArmed, Keeps};
ghost use Rattle.blocking_core.specs.OwnerCalls.{has_pipe};
ghost use Rattle.blocking_core.specs.declared.unblock.SessionKind.TheVariants.{Reading, Writing, Streaming};
ghost use Rattle.blocking_core.specs.declared.unblock.OwnerEnd.TheVariants.{Open, Shut};
ghost use Rattle.blocking_core.specs.declared.unblock.OwnerAnswer.TheVariants.{Back as CameBack};
ghost use Rattle.blocking_ends.specs.Answers.{IfDrained, OnDrainsWait, IfTook, OnFullWait, OnEnd, OnWait, got_by_receive};
ghost use Rattle.blocking_unblock.specs.Owners.{note_of_drain, answer_of_drain, note_of_fill, answer_of_fill, told, told_of_seek, IsBack, IsSought};

use crate::spare::Spare;
use blocking_core::io::{Fault, JobFault, Position};
use blocking_core::pipe::{Drained, Filled, Received};
use blocking_core::pool::WakeNote;
use blocking_core::task::{OfSlot, Seat};
use blocking_core::unblock::{OwnerAnswer, OwnerEnd, SessionKind};
use blocking_ends::{AnyPlace, DrainEnd, FillEnd, ItemRecvEnd, PeekEnd, SendEnd};
use blocking_executor::Added;
use blocking_unblock_jobs::{
    MayFail, ReadBack, Returned, SessionStore, Sought, WayBack, WriteBack,
};
use futures::task::Context;
use std::io;
use std::sync::Wait;

/// What the owner has of a session, by its kind: its end of the pipe, where there is one, and where the handle comes back.
#[derive(Drop)]
pub(crate) enum Side<T: Drop, I: Drop, H: Wait + Copy> {
    Reading(DrainEnd<u8, AnyPlace, SessionStore, H>, WayBack<T, ReadBack<H>, H>),
    Writing(FillEnd<u8, AnyPlace, SessionStore, H>, WayBack<T, WriteBack<H>, H>),
    Streaming(ItemRecvEnd<I, AnyPlace, H>, WayBack<T, MayFail, H>),
    Seeking(Position, WayBack<T, Sought, H>),
    Operating(WayBack<T, MayFail, H>),
}

/// The owner's side of a session. One without a pipe counts as open.
#[derive(Drop)]
pub(crate) struct Session<T: Drop, I: Drop, H: Wait + Copy> {
    // (who has none has added none)
    job: Added,
    side: Side<T, I, H>,
    owner_end: OwnerEnd,
}

// What a job tells that came back with its handle.
fn told_of_fault(fault: MayFail) -> OwnerAnswer<io::Error>
    ensures exact { result ≡ CameBack (option_map told fault) }
    ensures back { IsBack result }
{
    match fault {
        Some(JobFault::Io(error)) => OwnerAnswer::Back(Some(Fault::Io(error))),
        Some(JobFault::WriteZero) => OwnerAnswer::Back(Some(Fault::WriteZero)),
        None => OwnerAnswer::Back(None),
    }
}

// What a seek tells that came back with its handle.
fn told_of_seek(sought: Sought) -> OwnerAnswer<io::Error>
    ensures exact { result ≡ told_of_seek sought }
    ensures sought { IsSought result }
{
    match sought {
        Ok(place) => OwnerAnswer::Sought(place),
        Err(error) => OwnerAnswer::Back(Some(Fault::Io(error))),
    }
}

/// What a job worked with beside its handle, and may serve the next one.
#[derive(Drop)]
pub(crate) enum Tools<H: Wait + Copy> {
    Nothing,
    Read(SendEnd<u8, AnyPlace, SessionStore, H>, Vec<u8>),
    Write(PeekEnd<u8, AnyPlace, SessionStore, H>),
}

/// A handle that came back.
#[derive(Drop)]
pub(crate) struct Back<T: Drop, H: Wait + Copy> {
    pub handle: T,
    /// What that is to the machine.
    pub answer: OwnerAnswer<io::Error>,
    pub tools: Tools<H>,
}

// A handle that came back with a fault or none.
fn came_back<T: Drop, H: Wait + Copy>(handle: T, fault: MayFail, tools: Tools<H>) -> Back<T, H>
    ensures exact { result.answer ≡ CameBack (option_map told fault) }
    ensures back { IsBack result.answer }
{
    Back {
        handle,
        answer: told_of_fault(fault),
        tools,
    }
}

// What a drain means to the machine, and the note of the job that came with it.
fn told_of_drain(drained: Drained) -> (OwnerAnswer<io::Error>, Option<WakeNote>)
    ensures answer { result.0 ≡ answer_of_drain drained }
    ensures note { result.1 ≡ note_of_drain drained }
{
    match drained {
        Drained::Got(count, note) => {
            let has_note = note.is_some();
            (OwnerAnswer::Got { count, has_note }, note)
        }
        Drained::Ended => (OwnerAnswer::Ended, None),
        Drained::Waits(seat) => (OwnerAnswer::WaitsAtPipe(seat), None),
    }
}

// What a fill means to the machine, and the note of the job that came with it.
fn told_of_fill(filled: Filled) -> (OwnerAnswer<io::Error>, Option<WakeNote>)
    ensures answer { result.0 ≡ answer_of_fill filled }
    ensures note { result.1 ≡ note_of_fill filled }
{
    match filled {
        Filled::Took(count, note) => {
            let has_note = note.is_some();
            (OwnerAnswer::Took { count, has_note }, note)
        }
        Filled::Shut => (OwnerAnswer::Shut, None),
        Filled::Waits(seat) => (OwnerAnswer::WaitsAtPipe(seat), None),
    }
}

// A handle that came back from a session of items or of an operation.
fn came_alone<T: Drop, H: Wait + Copy>(returned: Returned<T, MayFail>) -> Back<T, H>
    ensures exact { result.answer ≡ CameBack (option_map told returned.told) }
    ensures back { IsBack result.answer }
{
    let Returned { handle, told } = returned;
    came_back(handle, told, Tools::Nothing)
}

impl<T: Drop, I: Drop, H: Wait + Copy> Session<T, I, H> {
    ghost use Rattle.blocking_unblock.specs.Owners.{kind_of, crossed, has, BackFrom, SawEndOf, is_back};
    ghost use Rattle.blocking_unblock.specs.Polls.{Drains, Fills, OnEnded, crossed_by};

    pub(crate) fn new(job: Added, side: Side<T, I, H>) -> Session<T, I, H>
        ensures job { result.job ≡ job }
        ensures side { result.side ≡ side }
        ensures open { result.owner_end ≡ Open }
    {
        Session {
            job,
            side,
            owner_end: OwnerEnd::Open,
        }
    }

    pub(crate) fn kind(&self) -> SessionKind
        ensures { result ≡ kind_of self.now.side }
    {
        match &self.side {
            Side::Reading(_, _) => SessionKind::Reading,
            Side::Writing(_, _) => SessionKind::Writing,
            Side::Streaming(_, _) => SessionKind::Streaming,
            Side::Seeking(to, _) => SessionKind::Seeking(*to),
            Side::Operating(_) => SessionKind::Operating,
        }
    }

    pub(crate) fn owner_end(&self) -> OwnerEnd
        ensures { result ≡ self.now.owner_end }
    {
        self.owner_end
    }

    /// Sets the mark of the session: its owner is gone.
    pub(crate) fn mark(&self) {
        match &self.side {
            Side::Reading(_, way_back) => way_back.mark(),
            Side::Writing(_, way_back) => way_back.mark(),
            Side::Streaming(_, way_back) | Side::Operating(way_back) => way_back.mark(),
            Side::Seeking(_, way_back) => way_back.mark(),
        }
    }

    /// Closes the owner's end of the pipe. Answers the note of a job that waits, which has to be spent.
    pub(crate) fn close(&mut self) -> Option<WakeNote>
        requires { has_pipe (kind_of self.old.side) ≡ true }
        ensures crossed { crossed self.new.side ≡ crossed self.old.side }
        ensures kind { kind_of self.new.side ≡ kind_of self.old.side }
        ensures shut { self.new.owner_end ≡ Shut }
        ensures back_same { is_back self.new.side ≡ is_back self.old.side }
    {
        self.owner_end = OwnerEnd::Shut;
        match &mut self.side {
            Side::Reading(end, _) => end.close(),
            Side::Writing(end, _) => end.close(),
            Side::Streaming(end, _) => end.close(),
            Side::Seeking(_, _) | Side::Operating(_) => unreachable!(),
        }
    }

    /// Lets the owner's end of the pipe go, if there is one and it is open: it is closed. Answers the note of a job that waits, which has to be
    /// spent.
    pub(crate) fn let_go(&mut self) -> Option<WakeNote>
        ensures shut { has_pipe (kind_of self.new.side) ≡ true → self.new.owner_end ≡ Shut }
        ensures kind { kind_of self.new.side ≡ kind_of self.old.side }
        ensures back_same { is_back self.new.side ≡ is_back self.old.side }
    {
        match (&self.side, self.owner_end) {
            (Side::Reading(_, _) | Side::Writing(_, _) | Side::Streaming(_, _), OwnerEnd::Open) => {
                self.close()
            }
            _ => None,
        }
    }

    /// Moves the first bytes out of the pipe, or waits there for some.
    pub(crate) fn drain(
        &mut self,
        cx: &mut Context<'_>,
        out: &mut [u8],
    ) -> (OwnerAnswer<io::Error>, Option<WakeNote>)
        requires reads { kind_of self.old.side ≡ Reading }
        requires room { 0 < length out.old }
        ensures does { Drains (length out.old) result.0 (has result.1) (IsArmed cx.new) }
        ensures kept { Keeps cx.old cx.new }
        ensures received { crossed self.new.side ≡ crossed self.old.side + crossed_by result.0 }
        ensures ended { OnEnded result.0 (SawEndOf self.new.side) }
        ensures kind { kind_of self.new.side ≡ Reading }
        ensures back_same { is_back self.new.side ≡ is_back self.old.side }
        ensures end { self.new.owner_end ≡ self.old.owner_end }
    {
        let Side::Reading(end, _) = &mut self.side else {
            unreachable!()
        };
        told_of_drain(end.drain_or_seat(cx, out))
    }

    /// Fills the first bytes into the pipe, or waits there for room.
    pub(crate) fn fill(
        &mut self,
        cx: &mut Context<'_>,
        bytes: &[u8],
    ) -> (OwnerAnswer<io::Error>, Option<WakeNote>)
        requires writes { kind_of self.old.side ≡ Writing }
        requires some { 0 < length bytes.now }
        ensures does { Fills (length bytes.now) result.0 (has result.1) (IsArmed cx.new) }
        ensures kept { Keeps cx.old cx.new }
        ensures sent { crossed self.new.side ≡ crossed self.old.side + crossed_by result.0 }
        ensures kind { kind_of self.new.side ≡ Writing }
        ensures back_same { is_back self.new.side ≡ is_back self.old.side }
        ensures end { self.new.owner_end ≡ self.old.owner_end }
    {
        let Side::Writing(end, _) = &mut self.side else {
            unreachable!()
        };
        told_of_fill(end.fill_or_seat(cx, bytes))
    }

    /// The first item, where the session is one of items, its end is open and one is there. Also the note of a job that waits, which has to
    /// be spent. It waits for nothing, but for a moment where the two go in step.
    pub(crate) fn try_receive(&mut self) -> Option<(I, Option<WakeNote>)>
        ensures some { IfSome result (λ got. (kind_of self.old.side ≡ Streaming) × (self.old.owner_end ≡ Open)) }
        ensures received { IfSome result (λ got. crossed self.new.side ≡ crossed self.old.side + 1) }
        ensures none { IfNone result (crossed self.new.side ≡ crossed self.old.side) }
        ensures kind { kind_of self.new.side ≡ kind_of self.old.side }
        ensures back_same { is_back self.new.side ≡ is_back self.old.side }
        ensures end { self.new.owner_end ≡ self.old.owner_end }
    {
        match (&mut self.side, self.owner_end) {
            (Side::Streaming(end, _), OwnerEnd::Open) => end.try_receive(),
            _ => None,
        }
    }

    /// Moves the first item out of the pipe, or waits there for one.
    pub(crate) fn receive(&mut self, cx: &mut Context<'_>) -> Received<I>
        requires streams { kind_of self.old.side ≡ Streaming }
        ensures armed { OnWait result (IsArmed cx.new) }
        ensures kept { Keeps cx.old cx.new }
        ensures received { crossed self.new.side ≡ crossed self.old.side + got_by_receive result }
        ensures ended { OnEnd result (SawEndOf self.new.side) }
        ensures kind { kind_of self.new.side ≡ Streaming }
        ensures back_same { is_back self.new.side ≡ is_back self.old.side }
        ensures end { self.new.owner_end ≡ self.old.owner_end }
    {
        let Side::Streaming(end, _) = &mut self.side else {
            unreachable!()
        };
        end.receive_or_seat(cx)
    }

    /// Takes the handle out of the slot with what its job tells, or waits there for it.
    pub(crate) fn poll_back(&mut self, cx: &mut Context<'_>) -> Result<Back<T, H>, Seat<OfSlot>>
        ensures back { IfOk result (λ came. BackFrom (kind_of self.old.side) came.answer) }
        ensures same { OnErr result (self.new ≡ self.old) }
        ensures armed { OnErr result (IsArmed cx.new) }
        ensures kept { Keeps cx.old cx.new }
    {
        match &mut self.side {
            Side::Reading(_, way_back) => {
                let Returned { handle, told } = way_back.poll(cx)?;
                let ReadBack { fault, end, piece } = told;
                Ok(came_back(handle, fault, Tools::Read(end, piece)))
            }
            Side::Writing(_, way_back) => {
                let Returned { handle, told } = way_back.poll(cx)?;
                let WriteBack { fault, end } = told;
                Ok(came_back(handle, fault, Tools::Write(end)))
            }
            Side::Streaming(_, way_back) => Ok(came_alone(way_back.poll(cx)?)),
            Side::Operating(way_back) => Ok(came_alone(way_back.poll(cx)?)),
            Side::Seeking(_, way_back) => {
                let Returned { handle, told } = way_back.poll(cx)?;
                Ok(Back {
                    handle,
                    answer: told_of_seek(told),
                    tools: Tools::Nothing,
                })
            }
        }
    }

    /// What is left of the session once its handle came back, with what the job worked with.
    pub(crate) fn into_spare(self, tools: Tools<H>) -> Spare {
        let Session {
            job: _,
            side,
            owner_end: _,
        } = self;
        match (side, tools) {
            (Side::Reading(end, _), Tools::Read(job_end, piece)) => {
                Spare::of_read(job_end, piece, end)
            }
            (Side::Writing(end, _), Tools::Write(job_end)) => Spare::of_write(job_end, end),
            _ => Spare::Nothing,
        }
    }
}
