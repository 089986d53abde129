//! The workers of a crew that arrived.
ghost use Rattle.std.specs.Prelude.{◌≡◌, [], IfOk, OnErr, Some, is_some, if◌then◌else◌};
ghost use Rattle.std.specs.Option.{option_copied, option_copied_mut};
ghost use Rattle.std.specs.Borrow.{sem};
ghost use Rattle.blocking_world_pool.specs.Closing.{AreIdle};
ghost use Rattle.blocking_world_pool.specs.Crews.{IsReady};

use crate::hand::{Hand, JobInHand};
use crate::tickets::Tickets;
use blocking_core::pool::{Starter, WorkerPass};
use blocking_world_laws::Act;
use std::alloc::{AllocError, Global};
use std::marker::Model;

// The workers that arrived, in order, by what they have in hand. A worker is named by its number, from 1 on, and one that
// hasn't arrived has nothing in hand.
pub(crate) struct Workers {
    hands: Vec<Hand>,
}

impl Model for Workers {
    ghost use Rattle.std.specs.Prelude.{List};
    ghost use Rattle.blocking_world_pool.specs.declared.hand.Hand.{Hand};

    ghost Value = { List Hand };

    ghost view = { λ w. w.hands.items };
}

impl Workers {
    ghost use Rattle.blocking_world_pool.specs.HandLends.{lends_hand};
    ghost use Rattle.blocking_world_pool.specs.Crews.{Joins, hand_at, hand_of, with_hand, pass_in, over_in, waiting_in, acting_in, hand_after_act};

    // No worker has arrived. Takes no memory.
    pub(crate) fn new(alloc: Global) -> Workers
        ensures { result ≡ [] }
    {
        Workers {
            hands: Vec::new(alloc),
        }
    }

    // The hand of this worker, if it has arrived.
    fn at(&mut self, worker: usize) -> Option<&mut Hand>
        ensures* lends { sem 𝓛 (lends_hand self.entry worker result) }
        ensures hand { option_copied_mut result ≡ hand_of self.old worker }
    {
        let place = worker.checked_sub(1)?;
        self.hands.get_mut(place)
    }

    // The hand of this worker, if it has arrived, to be read.
    pub(crate) fn hand(&self, worker: usize) -> Option<&Hand>
        ensures { option_copied result ≡ hand_of self.now worker }
    {
        let place = worker.checked_sub(1)?;
        self.hands.get(place)
    }

    // The pass of this worker, if it is idle. Its hand is out then.
    pub(crate) fn take_pass(&mut self, worker: usize) -> Option<WorkerPass>
        ensures pass { result ≡ pass_in (hand_at self.old worker) }
        ensures after { self.new ≡
            (if is_some result then with_hand self.old worker Hand.Out else self.old) }
    {
        self.at(worker)?.take_pass()
    }

    // The job of this worker whose turn may end, if it has one. Its hand is out then.
    pub(crate) fn take_ended(&mut self, worker: usize) -> Option<JobInHand>
        ensures held { result ≡ over_in (hand_at self.old worker) }
        ensures after { self.new ≡
            (if is_some result then with_hand self.old worker Hand.Out else self.old) }
    {
        self.at(worker)?.take_ended()
    }

    // The job of this worker that waits, if it has one. Its hand is out then.
    pub(crate) fn take_waiting(&mut self, worker: usize) -> Option<JobInHand>
        ensures held { result ≡ waiting_in (hand_at self.old worker) }
        ensures after { self.new ≡
            (if is_some result then with_hand self.old worker Hand.Out else self.old) }
    {
        self.at(worker)?.take_waiting()
    }

    // Puts something into the hand of this worker, which is out.
    pub(crate) fn put(&mut self, worker: usize, hand: Hand)
        requires { hand_of self.old worker ≡ Some Hand.Out }
        ensures { self.new ≡ with_hand self.old worker hand }
    {
        match self.at(worker) {
            Some(out) => out.put(hand),
            None => unreachable!(),
        }
    }

    // The job in the hand of this worker acts so, and its serial comes back; None, and no change, where it may not.
    pub(crate) fn work(&mut self, worker: usize, act: &Act) -> Option<u64>
        ensures serial { result ≡ acting_in (hand_at self.old worker) act.now }
        ensures after { self.new ≡ (if is_some result
            then with_hand self.old worker (hand_after_act (hand_at self.old worker) act.now)
            else self.old) }
    {
        self.at(worker)?.work(act)
    }

    // A started worker of the pool arrives, and its number comes back: None where all that were started have arrived.
    // Where there is no room for its hand, none arrives.
    pub(crate) fn arrive(&mut self, tickets: &mut Tickets) -> Result<Option<usize>, AllocError>
        ensures ok { IfOk result
            (λ worker. Joins tickets.old self.old worker tickets.new self.new) }
        ensures err { OnErr result ((tickets.new ≡ tickets.old) × (self.new ≡ self.old)) }
    {
        self.hands.reserve(1)?;
        let Some(pass) = tickets.arrive() else {
            return Ok(None);
        };
        match self.hands.push(Hand::Free(pass)) {
            Ok(()) => Ok(Some(self.hands.len())),
            Err(_failed) => unreachable!(),
        }
    }

    // Lets every worker go: first every turn ends, and then the workers are dismissed. Takes no memory.
    pub(crate) fn close<S: Starter>(self, tickets: &mut Tickets, starter: &mut S)
        requires { IsReady (record { pool = tickets.old; hands = self }) }
    {
        let Workers { mut hands } = self;
        end_turns(&mut hands, tickets);
        dismiss_all(hands, tickets, starter);
    }
}

// Ends every turn.
fn end_turns(hands: &mut [Hand], tickets: &mut Tickets)
    requires { IsReady (record { pool = tickets.old; hands = hands.old }) }
    ensures { AreIdle tickets.new hands.new }
{
    for place in 0..hands.len() {
        hands[place].end_turn(tickets);
    }
}

// Dismisses every worker, from the last on: the first takes what is queued and what its sweep puts back, and ends it.
fn dismiss_all<S: Starter>(mut hands: Vec<Hand>, tickets: &mut Tickets, starter: &mut S)
    requires { AreIdle tickets.old hands.items }
{
    while let Some(hand) = hands.pop() {
        match hand {
            Hand::Out => {}
            Hand::Free(pass) => tickets.dismiss(pass, starter),
            Hand::Holds(_held) => unreachable!(),
        }
    }
    hands.destroy_empty();
}
