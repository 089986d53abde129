//! How a job passes items to its owner through a ring without a lock, with a lock round the two seats alone. The steps of both sides come
//! in any order.
//!
//! A step is one atomic act, or one section under the seats' lock. The items are numbers: the first that is sent is 0, the next 1, so inside
//! are the numbers from `popped` up to `pushed`. A waker goes by the number of the poll that registered it.
ghost use Rattle.std.specs.Prelude.{◌≡◌, ◌≤◌};
ghost use Rattle.blocking_schedule.specs.Streams.{IsSound, IsEmpty, has_room, OwnerIsHeard, JobIsHeard, SomeoneIsWoken};
ghost use Rattle.blocking_schedule.specs.Streams.{SeatsAreFlagged, ItemsAreInOrder, AnswersArePlain, IsByMoment};
ghost use Rattle.blocking_schedule.specs.StreamSteps.{Takes, Runs};

mod job;
mod owner;

/// Where the job is in its code.
#[derive(Clone, Copy, PartialEq, Eq)]
pub enum JobPlace {
    /// It is in no call of its end.
    Away,
    /// It saw the owner's end open: it pushes next, or is seated.
    SawOpen,
    /// It left an item or closed its end: it looks at the owner's flag next.
    Wrote,
    /// It saw that the owner waits: it takes the waker out of the seat next.
    SawOwnerWait,
    /// It has the waker of this poll in hand, and calls it next.
    HasWaker(u64),
    /// It is seated: it looks once more whether the owner's end is shut.
    Seated,
    /// It isn't: it looks once more for room.
    LookedForShut,
    /// Its call was answered `Parked`.
    Parked,
}

/// Where the owner is in its code.
#[derive(Clone, Copy, PartialEq, Eq)]
pub enum OwnerPlace {
    /// It is in no call of its end.
    Away,
    /// It polls, and takes the first item next.
    Looking,
    /// It found no item: it looks next whether the job's end is closed.
    FoundEmpty,
    /// It isn't, so there is nothing yet: it looks for an item again, or takes its earlier waker back next.
    NothingYet,
    /// Its seat is empty, and it is seated next.
    Unseated,
    /// It is seated: it looks once more for an item.
    Seated,
    /// There is none: it looks once more whether the job's end is closed.
    StillEmpty,
    /// Its poll was answered `Pending`.
    Waits,
    /// It took an item or closed its end: it looks at the job's flag next.
    Wrote,
    /// It saw that the job waits: it takes the job's number out of the seat next.
    SawJobWait,
    /// It has a note for the job in hand, and spends it next.
    HasNote,
}

/// How the job's last call was answered.
#[derive(Clone, Copy, PartialEq, Eq)]
pub enum SendAnswer {
    /// It isn't yet, or there was none.
    Open,
    /// The item was sent.
    Sent,
    /// The owner's end is shut.
    Shut,
    /// There is no room: the job is parked.
    Parked,
}

/// How the owner's last poll was answered.
#[derive(Clone, Copy, PartialEq, Eq)]
pub enum ReceiveAnswer {
    /// It isn't yet, or there was none.
    Open,
    /// By the item of this number.
    Item(u64),
    /// All was received, and the job's end is closed.
    Ended,
    /// There is nothing yet: the owner waits.
    Pending,
}

/// What one of the two sides does.
#[derive(Clone, Copy)]
pub enum StreamStep {
    /// The job begins to send, and looks whether the owner's end is shut.
    SeeOwnerShut,
    /// An item goes in, where there is room.
    Push,
    /// The job looks whether the owner waits.
    SeeOwnerWaits,
    /// The job clears the owner's flag and takes the waker out of the seat, in one section.
    TakeOwner,
    /// The job calls the waker in its hand.
    CallOwner,
    /// The job sets its flag and its seat, in one section. It saw no room before, but there may be some by now.
    SeatJob,
    /// The job looks again whether the owner's end is shut.
    LookAgainForShut,
    /// The job looks again for room. Where there is none it is parked.
    LookAgainForRoom,
    /// The job found something after all, and clears its flag and its seat, in one section.
    RiseJob,
    /// The job closes its end: it says how many items it sent.
    CloseJob,
    /// The parked job runs again, after a wake or for no reason.
    RunAgain,
    /// The owner polls, after a wake or for no reason.
    PollAgain,
    /// The owner takes the first item, where there is one.
    Pop,
    /// The owner looks whether the job waits.
    SeeJobWaits,
    /// The owner clears the job's flag and its seat, in one section, and has a note in hand where the seat was taken.
    TakeJob,
    /// The owner spends its note: the job runs again, or does so once it has parked.
    WakeJob,
    /// The owner looks at an empty ring whether the job's end is closed.
    SeeClosed,
    /// The owner takes its earlier waker out of the seat, in one section.
    TakeBackWaker,
    /// The owner registers its waker, and sets its flag and its seat, in one section.
    SeatOwner,
    /// The owner takes the first item after all, where there is one.
    LookAgainForItem,
    /// The owner looks again whether the job's end is closed. Where it isn't, its poll is answered `Pending`.
    LookAgainForClosed,
    /// The owner found something after all, and takes its waker back, in one section.
    RiseOwner,
    /// The owner shuts its end.
    CloseOwner,
}

/// A ring and its two seats, with both sides.
#[derive(Drop)]
pub struct Ring {
    capacity: u64,
    // How many items were sent and received.
    pushed: u64,
    popped: u64,
    // One more than the job had sent when it closed its end, and 0 before.
    closed: u64,
    is_owner_shut: bool,
    // The flags and the seats: of the owner its waker, of the job whether it has its number there.
    owner_waits: bool,
    owner_seat: Option<u64>,
    job_waits: bool,
    is_job_seated: bool,
    // Where both sides are, and whether they still have to take themselves out of the seat.
    job: JobPlace,
    is_job_to_rise: bool,
    owner: OwnerPlace,
    is_owner_to_rise: bool,
    // How many wakers were registered: the last one has this number.
    registered: u64,
    // Whether that one was called.
    is_owner_woken: bool,
    // Whether a note was spent since the job ran last.
    is_job_woken: bool,
    // What the calls were answered.
    send_answer: SendAnswer,
    receive_answer: ReceiveAnswer,
    // Whether there was a moment, since the job's call began, at which a plain pipe would have taken the item; and one at which it would
    // have parked the job; and, since the owner's poll began, one at which it would have had the owner wait.
    could_send: bool,
    could_park: bool,
    could_wait: bool,
}

impl Ring {
    /// An empty ring for so many items, and nobody waits.
    pub fn new(capacity: u64) -> Ring
        ensures sound { IsSound result }
        ensures empty { IsEmpty capacity result }
    {
        Ring {
            capacity,
            pushed: 0,
            popped: 0,
            closed: 0,
            is_owner_shut: false,
            owner_waits: false,
            owner_seat: None,
            job_waits: false,
            is_job_seated: false,
            job: JobPlace::Away,
            is_job_to_rise: false,
            owner: OwnerPlace::Away,
            is_owner_to_rise: false,
            registered: 0,
            is_owner_woken: false,
            is_job_woken: false,
            send_answer: SendAnswer::Open,
            receive_answer: ReceiveAnswer::Open,
            could_send: false,
            could_park: false,
            could_wait: false,
        }
    }

    /// Both sides take these steps, in whichever order. Where the owner's last poll was answered `Pending`, or the job is parked, and there is
    /// something for it, a wake of it is under way.
    pub fn run(&mut self, steps: &[StreamStep])
        requires { IsSound self.old }
        ensures sound { IsSound self.new }
        ensures steps { Runs steps.now self.old self.new }
        ensures owner { OwnerIsHeard self.new }
        ensures job { JobIsHeard self.new }
    {
        for step in steps {
            self.step(*step);
        }
    }

    /// One step. One for which its side isn't ready changes nothing.
    pub fn step(&mut self, step: StreamStep)
        requires { IsSound self.old }
        ensures sound { IsSound self.new }
        ensures takes { Takes step self.old self.new }
        ensures moment { IsByMoment self.old self.new }
    {
        match step {
            StreamStep::SeeOwnerShut => self.see_owner_shut(),
            StreamStep::Push => self.push(),
            StreamStep::SeeOwnerWaits => self.see_owner_waits(),
            StreamStep::TakeOwner => self.take_owner(),
            StreamStep::CallOwner => self.call_owner(),
            StreamStep::SeatJob => self.seat_job(),
            StreamStep::LookAgainForShut => self.look_again_for_shut(),
            StreamStep::LookAgainForRoom => self.look_again_for_room(),
            StreamStep::RiseJob => self.rise_job(),
            StreamStep::CloseJob => self.close_job(),
            StreamStep::RunAgain => self.run_again(),
            StreamStep::PollAgain => self.poll_again(),
            StreamStep::Pop => self.pop(),
            StreamStep::SeeJobWaits => self.see_job_waits(),
            StreamStep::TakeJob => self.take_job(),
            StreamStep::WakeJob => self.wake_job(),
            StreamStep::SeeClosed => self.see_closed(),
            StreamStep::TakeBackWaker => self.take_back_waker(),
            StreamStep::SeatOwner => self.seat_owner(),
            StreamStep::LookAgainForItem => self.look_again_for_item(),
            StreamStep::LookAgainForClosed => self.look_again_for_closed(),
            StreamStep::RiseOwner => self.rise_owner(),
            StreamStep::CloseOwner => self.close_owner(),
        }
    }

    /// What holds after any steps, in other words.
    pub fn readings(&self)
        requires { IsSound self.now }
        ensures owner { OwnerIsHeard self.now }
        ensures job { JobIsHeard self.now }
        ensures both { SomeoneIsWoken self.now }
        ensures seats { SeatsAreFlagged self.now }
        ensures items { ItemsAreInOrder self.now }
        ensures answers { AnswersArePlain self.now }
    {}

    /// Where the job is.
    pub fn job(&self) -> JobPlace
        ensures { result ≡ self.now.job }
    {
        self.job
    }

    /// Where the owner is.
    pub fn owner(&self) -> OwnerPlace
        ensures { result ≡ self.now.owner }
    {
        self.owner
    }

    /// How the job's last call was answered.
    pub fn send_answer(&self) -> SendAnswer
        ensures { result ≡ self.now.send_answer }
    {
        self.send_answer
    }

    /// How the owner's last poll was answered.
    pub fn receive_answer(&self) -> ReceiveAnswer
        ensures { result ≡ self.now.receive_answer }
    {
        self.receive_answer
    }

    // Whether an item fits in.
    fn has_room(&self) -> bool
        requires { self.now.popped ≤ self.now.pushed }
        ensures { result ≡ has_room self.now }
    {
        self.pushed - self.popped < self.capacity
    }
}
