//! The parts of a world with its copiers, and the steps on them.
ghost use Rattle.std.specs.Prelude.{◌≡◌, ◌<◌, ◌&&◌, [], length, slice_get, true, IfOk, IfSome, OnErr};
ghost use Rattle.std.specs.List.{position_or_len};
ghost use Rattle.blocking_world_copiers.specs.Copiers.{belongs, has_number};

use crate::copier::{Copier, CopierNext};
use blocking_core::pool::Starter;
use blocking_world_laws::event::{Act, Event, Party};
use blocking_world_laws::step::{HandleCall, Step};
use blocking_world_pool::NoStarts;
use blocking_world_state::Parts;
use std::alloc::{AllocError, Global};
use std::marker::Model;
use std::sync::ledger::Ledger;

/// The parts of a world, and the copiers that have reported no end, the newest first.
///
/// The parts can't be let go: [`Assembly::close`] takes them apart.
pub struct Assembly {
    parts: Parts,
    copiers: Vec<Copier>,
    // How many copiers were made.
    made: usize,
    alloc: Global,
}

impl Model for Assembly {
    ghost use Rattle.blocking_world_copiers.specs.Assemblies.{Assembled, assembly_code};

    ghost Value = { Assembled };

    ghost coded = { assembly_code };

    ghost view = { λ a. record { parts = a.parts; copiers = a.copiers.items; made = a.made } };
}

impl Assembly {
    ghost use Rattle.std.specs.Prelude.{option_map};
    ghost use Rattle.blocking_pool.specs.PoolAnswers.{pool_of};
    ghost use Rattle.blocking_world_copiers.specs.Assemblies.{Copies, CopiesAt, IfCopies, may_copy_in, Does, Ends, IfLent, IfLinks, Polls, Takes, bytes_to_come, may_do_in, may_lend_in, may_link_in};
    ghost use Rattle.blocking_world_laws.specs.declared.event.Party.TheVariants.{Pool};
    ghost use Rattle.blocking_world_state.specs.Moves.{IsNote, rests_in};
    ghost use Rattle.blocking_world_copiers.specs.Copiers.{copier_at, is_lent};

    /// The parts of a new world, with no copier. Takes no memory.
    pub fn new(alloc: Global, setting: Option<&str>) -> Assembly
        ensures { result ≡ record {
          parts = record {
            crew = record { pool = pool_of setting.entry 1 1; hands = [] };
            rows = [];
            tasks = [];
            owners = [];
          };
          copiers = [];
          made = 0;
        } }
    {
        Assembly {
            parts: Parts::new(alloc, setting),
            copiers: Vec::new(alloc),
            made: 0,
            alloc,
        }
    }

    /// Takes a step, and answers what is seen of it. Where there is no room for what it adds to a list, or for the bytes that it tells or that
    /// a copier keeps, nothing is done.
    pub fn step<S: Starter>(&mut self, step: Step, starter: &mut S) -> Result<Event, AllocError>
        ensures ok { IfOk result
            (λ e. Does (S.may_answer starter.old) step self.old e self.new) }
        ensures err { OnErr result (self.new ≡ self.old) }
    {
        match step {
            Step::Ask(owner, call) => self.if_free(owner, Step::Ask(owner, call), starter),
            Step::DropOwner(owner) => self.if_free(owner, Step::DropOwner(owner), starter),
            Step::Own(owner) => self.own(owner, starter),
            Step::Link(reader, writer, piece) => self.link(reader, writer, piece),
            Step::Copy(copier) => self.copy(copier),
            plain => self.pass(plain, starter),
        }
    }

    // A step that is the parts' own.
    fn pass<S: Starter>(&mut self, step: Step, starter: &mut S) -> Result<Event, AllocError>
        ensures ok { IfOk result (λ e. Takes (S.may_answer starter.old) step self.old e self.new) }
        ensures err { OnErr result (self.new ≡ self.old) }
    {
        self.parts.step(step, starter)
    }

    // A step at an owner, which is nothing where that is lent to a copier.
    fn if_free<S: Starter>(
        &mut self,
        owner: usize,
        step: Step,
        starter: &mut S,
    ) -> Result<Event, AllocError>
        ensures ok { IfOk result
            (λ e. IfLent (is_lent owner self.old.copiers) (S.may_answer starter.old) owner step self.old e self.new) }
        ensures err { OnErr result (self.new ≡ self.old) }
    {
        if self.is_lent(owner) {
            return Ok(self.parts.note(Party::Owner(owner), Act::NoAction));
        }
        self.parts.step(step, starter)
    }

    // Whether this owner is lent to a copier.
    #[tactic(auto, using(crate::proofs::Places::lent_is))]
    fn is_lent(&self, owner: usize) -> bool
        ensures { result ≡ is_lent owner self.now.copiers }
    {
        place_of(&self.copiers, owner) < self.copiers.len()
    }

    // The poll of this owner takes its next action, and the copier to which it is lent hears of it.
    fn own<S: Starter>(&mut self, owner: usize, starter: &mut S) -> Result<Event, AllocError>
        ensures ok { IfOk result
            (λ e. Polls (S.may_answer starter.old) owner self.old e self.new) }
        ensures err { OnErr result (self.new ≡ self.old) }
    {
        let place = place_of(&self.copiers, owner);
        if place < self.copiers.len() {
            return self.own_lent(owner, place, starter);
        }
        self.parts.step(Step::Own(owner), starter)
    }

    // The same of an owner that is lent to the copier at this place. The room for the bytes that the copier keeps is taken first.
    fn own_lent<S: Starter>(
        &mut self,
        owner: usize,
        place: usize,
        starter: &mut S,
    ) -> Result<Event, AllocError>
        requires there { place < length self.old.copiers }
        requires first { place ≡ position_or_len (belongs owner) self.old.copiers }
        ensures ok { IfOk result
            (λ e. Polls (S.may_answer starter.old) owner self.old e self.new) }
        ensures err { OnErr result (self.new ≡ self.old) }
    {
        let step = Step::Own(owner);
        let room = Vec::with_capacity(self.alloc, self.parts.bytes_to_come(&step))?;
        let event = self.parts.step(step, starter)?;
        self.copiers[place].hear(&event.act, room);
        Ok(event)
    }

    // Whether this owner may be lent to a copier: it might be asked to read, and is lent to none.
    fn may_lend(&self, owner: usize) -> bool
        ensures { result ≡ may_lend_in self.now owner }
    {
        self.parts.may_ask(owner, &HandleCall::Read(0)) && !self.is_lent(owner)
    }

    // Whether a copier may be made that reads the one, writes the other and reads at most so many bytes at once.
    fn may_link(&self, reader: usize, writer: usize, piece: usize) -> bool
        ensures { result ≡ may_link_in self.now reader writer piece }
    {
        self.may_lend(reader) && self.may_lend(writer) && reader != writer && piece > 0
    }

    // A copier is made. Err too where there is no number left for it.
    fn link(&mut self, reader: usize, writer: usize, piece: usize) -> Result<Event, AllocError>
        ensures ok { IfOk result
            (λ e. IfLinks (may_link_in self.old reader writer piece) reader writer piece self.old e self.new) }
        ensures err { OnErr result (self.new ≡ self.old) }
    {
        if !self.may_link(reader, writer, piece) {
            return Ok(self.parts.note(Party::Pool, Act::NoAction));
        }
        let number = self.made;
        let Some(made) = number.checked_add(1) else {
            return Err(AllocError);
        };
        self.copiers.reserve(1)?;
        let copier = Copier::new(self.alloc, number, reader, writer, piece);
        match self.copiers.insert(0, copier) {
            Ok(()) => {}
            Err(_full) => unreachable!(),
        }
        self.made = made;
        Ok(self.parts.note(Party::Pool, Act::Linked(number)))
    }

    // Whether the owner that the copier at this place asks next may be asked.
    fn may_do(&self, place: usize, next: &CopierNext) -> bool
        requires { place < length self.now.copiers }
        ensures { IfSome (slice_get self.now.copiers place) (λ c. result ≡ may_do_in self.now c.reader c.writer next.now) }
    {
        let copier = &self.copiers[place];
        match next {
            CopierNext::AskReader(call) => self.parts.may_ask(copier.reader(), call),
            CopierNext::AskWriter(call) => self.parts.may_ask(copier.writer(), call),
            CopierNext::Copied(_) | CopierNext::Failed(_) => true,
        }
    }

    // Whether the copier at this place may take its step, which is this one next: both its owners rest, and the one that it asks may be asked.
    fn may_copy(&self, place: usize, next: &CopierNext) -> bool
        requires { place < length self.now.copiers }
        ensures { IfSome (slice_get self.now.copiers place)
            (λ c. result ≡ (rests_in (slice_get self.now.parts.owners c.reader) && rests_in (slice_get self.now.parts.owners c.writer)
            && may_do_in self.now c.reader c.writer next.now)) }
    {
        let copier = &self.copiers[place];
        self.parts.rests(copier.reader())
            && self.parts.rests(copier.writer())
            && self.may_do(place, next)
    }

    // The copier of this number does what it does next, unless a poll of one of its owners is under way. The memory for the bytes that it
    // writes is taken first.
    fn copy(&mut self, number: usize) -> Result<Event, AllocError>
        ensures ok { IfOk result (λ e. CopiesAt number (copier_at number self.old.copiers) self.old e self.new) }
        ensures err { OnErr result (self.new ≡ self.old) }
    {
        let place = place_at(&self.copiers, number);
        if place < self.copiers.len() {
            return self.copy_at(number, place);
        }
        Ok(self.parts.note(Party::Pool, Act::NoAction))
    }

    // The copier at this place, of this number, does what it does next, unless a poll of one of its owners is under way.
    fn copy_at(&mut self, number: usize, place: usize) -> Result<Event, AllocError>
        requires there { place < length self.old.copiers }
        requires first { place ≡ position_or_len (has_number number) self.old.copiers }
        ensures ok { IfOk result
            (λ e. IfSome (slice_get self.old.copiers place) (λ c. IfCopies (may_copy_in self.old c) number c self.old e self.new)) }
        ensures err { OnErr result (self.new ≡ self.old) }
    {
        let next = self.copiers[place].next(self.alloc)?;
        if !self.may_copy(place, &next) {
            return Ok(self.parts.note(Party::Pool, Act::NoAction));
        }
        self.do_next(number, place, next)
    }

    // The copier at this place, of this number, does what it does next.
    fn do_next(
        &mut self,
        number: usize,
        place: usize,
        next: CopierNext,
    ) -> Result<Event, AllocError>
        requires there { place < length self.old.copiers }
        requires first { place ≡ position_or_len (has_number number) self.old.copiers }
        requires may { IfSome (slice_get self.old.copiers place) (λ c. may_do_in self.old c.reader c.writer next ≡ true) }
        ensures ok { IfOk result
            (λ e. IfSome (slice_get self.old.copiers place) (λ c. Copies number c next self.old e self.new)) }
        ensures err { OnErr result (self.new ≡ self.old) }
    {
        match next {
            CopierNext::AskReader(call) => {
                let reader = self.copiers[place].reader();
                self.parts.ask_for(number, reader, call)
            }
            CopierNext::AskWriter(call) => {
                let writer = self.copiers[place].writer();
                self.parts.ask_for(number, writer, call)
            }
            CopierNext::Copied(count) => Ok(self.end(number, place, Act::Copied(count))),
            CopierNext::Failed(side) => Ok(self.end(number, place, Act::CopyFailed(side))),
        }
    }

    // The copier at this place, the first of this number, tells its end, and goes.
    fn end(&mut self, number: usize, place: usize, act: Act) -> Event
        requires note { IsNote Pool act }
        requires there { place < length self.old.copiers }
        requires first { place ≡ position_or_len (has_number number) self.old.copiers }
        ensures { Ends number act self.old result self.new }
    {
        let _told = self.copiers.remove(place);
        self.parts.note(Party::Pool, act)
    }

    /// The parts.
    pub fn parts(&self) -> &Parts
        ensures { result.now ≡ self.now.parts }
    {
        &self.parts
    }

    /// How many bytes the event of this step carries at most.
    #[tactic(auto, using(crate::proofs::Places::found_is))]
    pub fn bytes_to_come(&self, step: &Step) -> usize
        ensures { result ≡ bytes_to_come self.now step.now }
    {
        match step {
            Step::Copy(number) => {
                let place = place_at(&self.copiers, *number);
                match self.copiers.get(place) {
                    Some(copier) => copier.bytes_to_write(),
                    None => 0,
                }
            }
            plain => self.parts.bytes_to_come(plain),
        }
    }

    /// Ends the parts, as [`Parts::close`] says; the copiers go with them. Takes no memory.
    pub fn close<L: Ledger>(self, starter: &mut NoStarts<L>) {
        let Assembly {
            parts,
            copiers: _copiers,
            made: _,
            alloc: _,
        } = self;
        parts.close(starter);
    }
}

// The place of the first of these copiers to which this owner belongs; else how many there are.
#[tactic(auto, using(crate::proofs::Places::first_here, crate::proofs::Places::not_here))]
fn place_of(copiers: &[Copier], owner: usize) -> usize
    ensures { result ≡ position_or_len (belongs owner) copiers.now }
{
    let mut place = 0;
    for copier in copiers {
        if copier.belongs(owner) {
            return place;
        }
        place += 1;
    }
    place
}

// The place of the first of these copiers that has this number; else how many there are.
#[tactic(auto, using(crate::proofs::Places::first_here, crate::proofs::Places::not_here))]
fn place_at(copiers: &[Copier], number: usize) -> usize
    ensures { result ≡ position_or_len (has_number number) copiers.now }
{
    let mut place = 0;
    for copier in copiers {
        if copier.has_number(number) {
            return place;
        }
        place += 1;
    }
    place
}
