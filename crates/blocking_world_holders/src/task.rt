//! The machine of a task.
ghost use Rattle.std.specs.Prelude.{◌≡◌};

use blocking_core::pool::JobNo;
use blocking_core::task::{Slot, Slotted};
use blocking_world_laws::event::Act;
use blocking_world_laws::step::TaskCall;
use std::marker::Model;

/// What became of a task.
#[derive(Clone, Copy)]
pub enum TaskStage {
    /// It awaits the answer of its call.
    Attached,
    /// It was cancelled, and wants the answer only if it was there.
    Cancelled,
    /// It is gone: it was answered or detached.
    Gone,
    /// It is gone, and let its call go: it was dropped, or answered after its cancel.
    LetGo,
}

/// A task: the number of its call's job, and the slot in which it meets that job. The waker in the slot's seat is told as a
/// unit.
#[derive(Drop)]
pub struct Task {
    number: JobNo,
    slot: Slot<u64, ()>,
    // What a cancel found.
    found: Option<u64>,
    stage: TaskStage,
}

impl Model for Task {
    ghost use Rattle.blocking_world_holders.specs.Tasks.{Task as Holder};

    ghost Value = { Holder };

    ghost view = { λ t. record {
      number = t.number;
      slot = t.slot;
      found = t.found;
      stage = t.stage;
    } };

    ghost inverse = { λ t. record {
      number = t.number;
      slot = t.slot;
      found = t.found;
      stage = t.stage;
    } };
}

impl Task {
    ghost use Rattle.blocking_world_holders.specs.Tasks.{new_task, may_be, has_let_go, stage_after_answer, poll_of, task_after_poll, task_after_cancel, task_after_detach, task_after_drop, task_act, task_after_call, finish_wakes, task_after_finish, give_up_wakes, task_after_give_up};

    /// The task of this job.
    pub fn new(number: JobNo) -> Task
        ensures { result ≡ new_task number }
    {
        Task {
            number,
            slot: Slot::new(),
            found: None,
            stage: TaskStage::Attached,
        }
    }

    /// The number of its job.
    pub fn number(&self) -> JobNo
        ensures { result ≡ self.now.number }
    {
        self.number
    }

    /// Whether the task may be called so: after its cancel it is only polled and dropped, and one that is gone isn't called.
    pub fn may(&self, call: TaskCall) -> bool
        ensures { result ≡ may_be self.now.stage call }
    {
        match (self.stage, call) {
            (TaskStage::Attached, _) => true,
            (TaskStage::Cancelled, TaskCall::Poll | TaskCall::Drop) => true,
            _ => false,
        }
    }

    /// Calls the task so, and answers what is seen of it.
    pub fn call(&mut self, call: TaskCall) -> Act
        ensures act { result ≡ task_act call self.old }
        ensures after { self.new ≡ task_after_call call self.old }
    {
        match call {
            TaskCall::Poll => self.poll(),
            TaskCall::Cancel => {
                self.cancel();
                Act::TaskCancelled
            }
            TaskCall::Detach => {
                self.detach();
                Act::TaskDetached
            }
            TaskCall::Drop => {
                self.release();
                Act::HolderDropped
            }
        }
    }

    // Polls the task: first for what its cancel found.
    fn poll(&mut self) -> Act
        ensures act { result ≡ poll_of self.old }
        ensures after { self.new ≡ task_after_poll self.old }
    {
        if let (TaskStage::Cancelled, Some(number)) = (self.stage, self.found) {
            self.leave();
            return Act::TaskGot(number);
        }
        match self.slot.poll(()).answer {
            Slotted::Value(number) => {
                self.leave();
                Act::TaskGot(number)
            }
            Slotted::Gone(_) => {
                self.leave();
                Act::TaskGotNone
            }
            Slotted::Waits(_) => Act::Waits,
        }
    }

    // The task has its answer, and is gone.
    fn leave(&mut self)
        ensures { self.new ≡ record self.old { stage = stage_after_answer self.old.stage } }
    {
        self.stage = match self.stage {
            TaskStage::Cancelled | TaskStage::LetGo => TaskStage::LetGo,
            TaskStage::Attached | TaskStage::Gone => TaskStage::Gone,
        };
    }

    // Cancels the task: it keeps an answer that is there.
    fn cancel(&mut self)
        ensures { self.new ≡ task_after_cancel self.old }
    {
        self.found = self.slot.abandon();
        self.stage = TaskStage::Cancelled;
    }

    // Detaches the task.
    fn detach(&mut self)
        ensures { self.new ≡ task_after_detach self.old }
    {
        let _ = self.slot.abandon();
        self.stage = TaskStage::Gone;
    }

    // Drops the task.
    fn release(&mut self)
        ensures { self.new ≡ task_after_drop self.old }
    {
        let _ = self.slot.abandon();
        self.stage = TaskStage::LetGo;
    }

    /// Whether the task let its call go: it was cancelled or dropped.
    pub fn has_let_go(&self) -> bool
        ensures { result ≡ has_let_go self.now.stage }
    {
        matches!(self.stage, TaskStage::Cancelled | TaskStage::LetGo)
    }

    /// The job puts this number, and takes the waker if one is seated: whether it did.
    pub fn finish(&mut self, number: u64) -> bool
        ensures wake { result ≡ finish_wakes self.old number }
        ensures after { self.new ≡ task_after_finish self.old number }
    {
        self.slot.put(number).wake.is_some()
    }

    /// The job gives up, and takes the waker if one is seated: whether it did.
    pub fn give_up(&mut self) -> bool
        ensures wake { result ≡ give_up_wakes self.old }
        ensures after { self.new ≡ task_after_give_up self.old }
    {
        self.slot.give_up().is_some()
    }
}
