//! How an owner waits for its job, at a slot or at its end of a pipe: the acts of both sides, in any order.
//!
//! Each act but `Register` and `Call` is one section under the lock of the slot or the pipe. A waker is told by the number of the poll that
//! registered it: an older one wakes whoever polled then.
ghost use Rattle.std.specs.Prelude.{◌≡◌, Some};
ghost use Rattle.blocking_schedule.specs.Acts.{Abandons, Acts, Asks, Begins, Calls, GivesUp, Leaves, LooksIn, Meets, Registers, Unseats};
ghost use Rattle.blocking_schedule.specs.Seats.{IsHeard, IsSeatedOrWoken};
ghost use Rattle.blocking_schedule.specs.declared.seat.Polling.TheVariants.{Waits};

/// Where the owner is.
#[derive(Clone, Copy)]
pub enum Polling {
    /// It polls nothing: it hasn't polled yet, or its last poll was answered by what it wanted.
    Away,
    /// Its poll found nothing, and its seat is empty.
    Looked,
    /// Its poll has registered a waker.
    Registered,
    /// Its poll was answered `Pending`.
    Waits,
    /// So it was, since the job is gone: nothing comes any more.
    Forsaken,
}

/// What one of the two sides does.
#[derive(Clone, Copy)]
pub enum Act {
    /// A poll begins: the owner takes what is there, or its earlier waker out of the seat. Something may be left there.
    Look(bool),
    /// It registers its waker.
    Register,
    /// It asks again: it takes what is there, or is seated, unless the job is gone. Something may be left there.
    Ask(bool),
    /// The owner is gone, or cancels: it takes what is there. It may poll on, until the job is over.
    Abandon,
    /// The job leaves something, and takes the waker out of the seat.
    Leave,
    /// The job is gone, and takes the waker out of the seat.
    GiveUp,
    /// The job takes the waker out of the seat, and leaves nothing: as where it sends or consumes no items.
    Unseat,
    /// The job calls the waker that it took out.
    Call,
}

/// A slot, or a pipe as its owner's polls see it, with both sides.
#[derive(Drop)]
pub struct Meeting {
    is_there: bool,
    is_gone: bool,
    seat: Option<u64>,
    // The waker that the job has taken out and not called yet.
    in_hand: Option<u64>,
    // How many wakers were registered: the last one has this number.
    registered: u64,
    // Whether that one was called.
    is_woken: bool,
    polling: Polling,
}

impl Meeting {
    /// Nothing is there, and nobody has polled.
    pub fn new() -> Meeting
        ensures heard { IsHeard result }
        ensures begins { Begins result }
    {
        Meeting {
            is_there: false,
            is_gone: false,
            seat: None,
            in_hand: None,
            registered: 0,
            is_woken: false,
            polling: Polling::Away,
        }
    }

    /// Both sides do this, in whichever order. Where the owner's last poll was answered `Pending`, its waker is seated, or a wake of it is
    /// under way or was made.
    pub fn run(&mut self, acts: &[Act])
        requires { IsHeard self.old }
        ensures heard { IsHeard self.new }
        ensures waits { self.new.polling ≡ Waits → IsSeatedOrWoken self.new }
        ensures meets { Meets acts.now self.old self.new }
    {
        for act in acts {
            self.act(*act);
        }
    }

    /// One act. One that its side can't do where it is does nothing.
    pub fn act(&mut self, act: Act)
        requires { IsHeard self.old }
        ensures heard { IsHeard self.new }
        ensures acts { Acts self.old act self.new }
    {
        match act {
            Act::Look(rest) => self.look(rest),
            Act::Register => self.register(),
            Act::Ask(rest) => self.ask(rest),
            Act::Abandon => self.abandon(),
            Act::Leave => self.leave(),
            Act::GiveUp => self.give_up(),
            Act::Unseat => self.unseat(),
            Act::Call => self.call(),
        }
    }

    /// Where the owner is.
    pub fn polling(&self) -> Polling
        ensures { result ≡ self.now.polling }
    {
        self.polling
    }

    /// Whether something is there.
    pub fn is_there(&self) -> bool
        ensures { result ≡ self.now.is_there }
    {
        self.is_there
    }

    /// The number of the waker that is seated.
    pub fn seat(&self) -> Option<u64>
        ensures { result ≡ self.now.seat }
    {
        self.seat
    }

    /// Whether the last waker was called.
    pub fn is_woken(&self) -> bool
        ensures { result ≡ self.now.is_woken }
    {
        self.is_woken
    }

    fn look(&mut self, rest: bool)
        requires { IsHeard self.old }
        ensures heard { IsHeard self.new }
        ensures acts { LooksIn rest self.old self.new }
    {
        match self.polling {
            Polling::Looked | Polling::Registered => {}
            Polling::Away | Polling::Waits | Polling::Forsaken => {
                if self.is_there {
                    self.is_there = rest;
                    self.polling = Polling::Away;
                } else {
                    self.seat = None;
                    self.polling = Polling::Looked;
                }
            }
        }
    }

    fn register(&mut self)
        requires { IsHeard self.old }
        ensures heard { IsHeard self.new }
        ensures acts { Registers self.old self.new }
    {
        let Polling::Looked = self.polling else {
            return;
        };
        if self.registered == u64::MAX {
            return;
        }
        self.registered += 1;
        self.is_woken = false;
        self.polling = Polling::Registered;
    }

    fn ask(&mut self, rest: bool)
        requires { IsHeard self.old }
        ensures heard { IsHeard self.new }
        ensures acts { Asks rest self.old self.new }
    {
        let Polling::Registered = self.polling else {
            return;
        };
        if self.is_there {
            self.is_there = rest;
            self.polling = Polling::Away;
            return;
        }
        if self.is_gone {
            self.polling = Polling::Forsaken;
            return;
        }
        self.seat = Some(self.registered);
        self.polling = Polling::Waits;
    }

    fn abandon(&mut self)
        requires { IsHeard self.old }
        ensures heard { IsHeard self.new }
        ensures acts { Abandons self.old self.new }
    {
        match self.polling {
            Polling::Looked | Polling::Registered => {}
            Polling::Away | Polling::Waits | Polling::Forsaken => {
                self.is_there = false;
                self.polling = Polling::Away;
            }
        }
    }

    fn leave(&mut self)
        requires { IsHeard self.old }
        ensures heard { IsHeard self.new }
        ensures acts { Leaves self.old self.new }
    {
        if self.in_hand.is_some() {
            return;
        }
        self.is_there = true;
        self.in_hand = self.seat.take();
    }

    fn give_up(&mut self)
        requires { IsHeard self.old }
        ensures heard { IsHeard self.new }
        ensures acts { GivesUp self.old self.new }
    {
        if self.in_hand.is_some() {
            return;
        }
        self.is_gone = true;
        self.in_hand = self.seat.take();
    }

    fn unseat(&mut self)
        requires { IsHeard self.old }
        ensures heard { IsHeard self.new }
        ensures acts { Unseats self.old self.new }
    {
        if self.in_hand.is_some() {
            return;
        }
        self.in_hand = self.seat.take();
    }

    fn call(&mut self)
        requires { IsHeard self.old }
        ensures heard { IsHeard self.new }
        ensures acts { Calls self.old self.new }
    {
        let Some(waker) = self.in_hand.take() else {
            return;
        };
        if waker == self.registered {
            self.is_woken = true;
        }
    }
}
