//! What owners who take items keep: their polls, their jobs, their pipes, and the end that they are told.
ghost use Rattle.std.specs.Prelude.{◌≡◌, [], ◌∷◌, Some, None};
ghost use Rattle.blocking_pool.specs.declared.pool.answer.Refusal.TheVariants.{NoWorker};
ghost use Rattle.blocking_pool.specs.declared.pool.standing.Standing.TheVariants.{Parked};
ghost use Rattle.blocking_world_laws.specs.Seen.{events, cut, own};
ghost use Rattle.blocking_world_laws.specs.JobTable.{Streaming, AskItem, SendItem, CloseEnd, next_of_job};
ghost use Rattle.blocking_world_laws.specs.OwnerWakes.{NoLostOwnerWake};
ghost use Rattle.blocking_world_laws.specs.Passed.{gave, got, inside, was_put};
ghost use Rattle.blocking_world_laws.specs.Sessions.{capacity};
ghost use Rattle.blocking_world_laws.specs.Traces.{◌▸◌, moment, Refuses, Keeps};
ghost use Rattle.blocking_world_laws.specs.OwnerTraces.{asks, polls, works, given, ends};
ghost use Rattle.blocking_world_laws.specs.OwnerTraces.{FirstOwnerLaw, KeepsFirstOwner, FirstOwnerEnds, FirstOwnerPasses, FirstOwnerIsNotLost, FirstOwnersJobParksRightly};
ghost use Rattle.blocking_world_laws.specs.OwnerTraces.{reader_parked};
ghost use Rattle.blocking_world_laws.specs.ItemTraces.{stream_made, item_asked, stream_begun, stream_taken, first_given, first_sent, second_waits, stream_parked};
ghost use Rattle.blocking_world_laws.specs.ItemTraces.{first_asked, first_got, first_told, second_taken, second_sent, stream_done, second_asked};
ghost use Rattle.blocking_world_laws.specs.ItemTraces.{second_replied, stream_back, stream_ended, stream_anew};
ghost use Rattle.blocking_world_laws.specs.ItemTraces.{stream_stops, stream_stopped, stopped_back, untold_stream, untold_stream_job};
ghost use Rattle.blocking_world_laws.specs.declared.event.Act.TheVariants.{Made, Accepted, Refused, OwnerClosed, GotItem, GotEnd, Back, Replied, Waits, Answered, Ended, JobParked, Put, Lost, JobClosed, Finished};
ghost use Rattle.blocking_world_laws.specs.declared.event.HolderWaker.TheVariants.{Taken, Absent};
ghost use Rattle.blocking_world_laws.specs.declared.event.Party.TheVariants.{Owner};
ghost use Rattle.blocking_world_laws.specs.declared.event.Reply.TheVariants.{Count, OneItem, NoMore, Handle, NotBegun, Failed as FailedReply};
ghost use Rattle.blocking_world_laws.specs.declared.step.HandleAnswer.TheVariants.{Number, Gave, Item, NoItem, Failed};
ghost use Rattle.blocking_world_laws.specs.declared.step.HandleCall.TheVariants.{Read, Next, GetMut};
ghost use Rattle.blocking_world_laws.specs.declared.step.Step.TheVariants.{New};
ghost use Rattle.blocking_core.specs.declared.io.Fault.TheVariants as fault;

/// A poll begins a session, takes an item, stops a session that isn't its own, and replies, as its table says.
pub fn tables()
    // a stream of two items, from the first poll to the beginning of the next stream
    ensures accepts_session { KeepsFirstOwner stream_anew }
    // made 0 / asked / refused worker / replied refused worker
    ensures accepts_refused_session { KeepsFirstOwner (item_asked
        ▸ polls (Refused NoWorker) 1 ▸ polls (Replied (NotBegun NoWorker)) 1) }
    // made 0 / asked / refused worker / replied fault refused worker
    ensures refuses_refusal_as_fault { Refuses FirstOwnerLaw (item_asked ▸ polls (Refused NoWorker) 1)
        (polls (Replied (FailedReply (fault.Refused NoWorker))) 1) }
    // a reading job is parked / asked (for an item) / closed wake 1
    ensures accepts_stop_of_reading { KeepsFirstOwner (reader_parked ▸ asks Next 2 ▸ polls (OwnerClosed (Some 1)) 2) }
    // .. / ended 1 parked / asked (to read) / closed wake 1
    ensures accepts_stop_of_stream { KeepsFirstOwner (stream_parked ▸ asks (Read 2) 2 ▸ polls (OwnerClosed (Some 1)) 2) }
    // .. / closed wake 1 / .. / lost 1 / closed / finished wake owner / .. / asked (for an item) / back / accepted 2
    ensures accepts_stream_after_stop { KeepsFirstOwner (stopped_back ▸ polls (Accepted 2) 2) }
    // .. / got item 0 wake 1 / replied item 0: job 1 has to be woken first
    ensures refuses_undelivered_note { Refuses FirstOwnerLaw first_got (polls (Replied (OneItem 0)) 2) }
    // .. / delivered 1 entered / replied item 1: the pipe gave 0
    ensures refuses_other_item { Refuses FirstOwnerLaw first_told (polls (Replied (OneItem 1)) 2) }
    // .. / delivered 1 entered / got item 1: one poll takes one item
    ensures refuses_second_item { Refuses FirstOwnerLaw first_told (polls (GotItem 1 None) 2) }
    // .. / got end / back / accepted 2: the end was seen
    ensures refuses_stream_after_end { Refuses FirstOwnerLaw stream_back (polls (Accepted 2) 2) }
    // .. / ended 1 parked / asked (for an item) / replied handle
    ensures refuses_lent_handle { Refuses FirstOwnerLaw first_asked (polls (Replied Handle) 2) }
{}

/// A job asks for an item, sends it, and asks for the next; after the last it closes its end and finishes.
pub fn jobs()
    ensures asks_first { next_of_job Streaming [] ≡ AskItem }
    // answered item 5: it is sent
    ensures sends_item { next_of_job Streaming (Answered (Item 5) ∷ []) ≡ SendItem 5 }
    // answered item 5 / parked: the same item is sent again
    ensures sends_again { next_of_job Streaming (JobParked ∷ Answered (Item 5) ∷ []) ≡ SendItem 5 }
    // put 1
    ensures asks_for_next { next_of_job Streaming (Put 1 Absent ∷ Answered (Item 5) ∷ []) ≡ AskItem }
    // answered none
    ensures closes_after_last { next_of_job Streaming (Answered NoItem ∷ []) ≡ CloseEnd }
    // lost 1
    ensures closes_after_loss { next_of_job Streaming (Lost 1 ∷ Answered (Item 5) ∷ []) ≡ CloseEnd }
    // .. / took 1 / answered 6162: an iterator gives items
    ensures refuses_bytes { Refuses FirstOwnerLaw stream_taken (given 1 (Gave (97 ∷ 98 ∷ []))) }
    ensures refuses_number { Refuses FirstOwnerLaw stream_taken (given 1 (Number 0)) }
    // .. / took 1 / answered fault 8: it doesn't fail
    ensures refuses_failure { Refuses FirstOwnerLaw stream_taken (given 1 (Failed 8)) }
    // .. / answered item 0 / answered item 1: the first is to be sent before
    ensures refuses_second_answer { Refuses FirstOwnerLaw first_given (given 1 (Item 1)) }
    // .. / answered item 1 / parked / answered item 2: the one in hand is dropped
    ensures refuses_dropped_item { Refuses FirstOwnerLaw second_waits (given 1 (Item 2)) }
    // .. / answered item 1 / parked / closed
    ensures refuses_close_in_its_place { Refuses FirstOwnerLaw second_waits (works 1 (JobClosed Absent)) }
    // .. / took 1 / answered none / finished: it closes its end before
    ensures refuses_finish_before_close { Refuses FirstOwnerLaw (second_sent ▸ given 1 NoItem) (works 1 (Finished Absent)) }
    // .. / put 1 wake owner / delivered owner / put 1: it has no further item
    ensures refuses_put_twice { Refuses FirstOwnerLaw first_sent (works 1 (Put 1 Absent)) }
{}

/// An owner takes the first item that is inside, waits where the pipe is empty, and sees the end of one that is closed. A job sends one
/// item where there is room, and waits where there is none.
pub fn places()
    // .. / accepted 1 +1 / got end: the job's end is open
    ensures refuses_end_of_open_pipe { Refuses FirstOwnerLaw stream_begun (polls GotEnd 2) }
    // .. / ended 1 parked / asked / waits: there is an item
    ensures refuses_wait_beside_item { Refuses FirstOwnerLaw first_asked (polls Waits 2) }
    // .. / ended 1 done / asked / got end: the job's end is closed, but there is an item
    ensures refuses_end_beside_item { Refuses FirstOwnerLaw second_asked (polls GotEnd 2) }
    // .. / ended 1 parked / asked / got item 1 wake 1: the first is 0
    ensures refuses_skipped_item { Refuses FirstOwnerLaw first_asked (polls (GotItem 1 (Some 1)) 2) }
    // .. / replied item 0 / .. / asked / got item 0: it was given before
    ensures refuses_item_twice { Refuses FirstOwnerLaw second_asked (polls (GotItem 0 None) 2) }
    // .. / replied item 1 / asked / waits: the pipe is empty, and closed
    ensures refuses_wait_at_end { Refuses FirstOwnerLaw (second_replied ▸ asks Next 2) (polls Waits 2) }
    // .. / answered item 0 / parked: there is room
    ensures refuses_wait_beside_room { Refuses FirstOwnerLaw first_given (works 1 JobParked) }
    // .. / answered item 1 / put 1: the pipe is full
    ensures refuses_put_into_full_pipe { Refuses FirstOwnerLaw (first_sent ▸ given 1 (Item 1)) (works 1 (Put 1 Absent)) }
    // .. / answered item 0 / lost 1: the owner's end is open
    ensures refuses_loss { Refuses FirstOwnerLaw first_given (works 1 (Lost 1)) }
    // .. / closed wake 1 / .. / took 1 / put 1: it is closed
    ensures refuses_put_into_closed_pipe { Refuses FirstOwnerLaw stream_stops (works 1 (Put 1 Absent)) }
    // made 0, with the default
    ensures default_is_smaller { capacity Streaming (Made 0 0 ∷ []) ≡ 8192 }
{}

/// Which acts of an owner that takes items and of its job bear a wake.
pub fn seats()
    // .. / waits / .. / answered item 0 / put 1
    ensures refuses_forgotten_at_put { Refuses FirstOwnerLaw first_given (works 1 (Put 1 Absent)) }
    // .. / replied item 0 / took 1 / put 1 wake owner: the owner doesn't wait
    ensures refuses_made_up_at_put { Refuses FirstOwnerLaw second_taken (works 1 (Put 1 Taken)) }
    // .. / ended 1 parked / asked / got item 0
    ensures refuses_forgotten_note { Refuses FirstOwnerLaw first_asked (polls (GotItem 0 None) 2) }
    // .. / ended 1 done / asked / got item 1 wake 1: the note was taken before
    ensures refuses_note_twice { Refuses FirstOwnerLaw second_asked (polls (GotItem 1 (Some 1)) 2) }
{}

/// The end of a stream is told where the handle came back in that poll, from a session that gave all its items.
pub fn ends_of_streams()
    // .. / got end / back / replied end
    ensures accepts_end { FirstOwnerEnds stream_back (polls (Replied NoMore) 2) }
    // .. / ended 1 parked / asked / replied end
    ensures refuses_early_end { Refuses FirstOwnerEnds first_asked (polls (Replied NoMore) 2) }
    // .. / ended 1 done / asked / replied end: there is an item, and the handle isn't back
    ensures refuses_end_beside_item { Refuses FirstOwnerEnds second_asked (polls (Replied NoMore) 2) }
    // .. / ended 1 done / asked / back / replied end: the handle is, and the item is lost
    ensures refuses_end_that_drops_an_item { Refuses FirstOwnerEnds (second_asked ▸ polls Back 2) (polls (Replied NoMore) 2) }
    // .. / lost 1 / .. / asked / back / replied end: the session was stopped
    ensures refuses_end_of_stopped { Refuses FirstOwnerEnds stopped_back (polls (Replied NoMore) 2) }
    // .. / replied end / asked / replied end: it came back in an earlier poll
    ensures refuses_second_end { Refuses FirstOwnerEnds (stream_ended ▸ asks Next 2) (polls (Replied NoMore) 2) }
{}

/// What an owner got is a beginning of the items that its handle gave, and one item at most is out of the handle and not in the pipe.
pub fn passing()
    ensures accepts_session { FirstOwnerPasses stream_ended }
    // answered item 3 / answered item 4
    ensures joins_in_order { gave (Answered (Item 4) ∷ Answered (Item 3) ∷ []) ≡ 3 ∷ 4 ∷ [] }
    // answered item 3 / parked / put 1
    ensures puts_the_item { was_put (Put 1 Absent ∷ JobParked ∷ Answered (Item 3) ∷ []) ≡ 3 ∷ [] }
    // got item 3 / got item 4
    ensures got_in_order { got (GotItem 4 None ∷ GotItem 3 None ∷ []) ≡ 3 ∷ 4 ∷ [] }
    // .. / answered item 1 / parked: one is inside, and one in hand
    ensures one_inside { inside (cut 0 (events second_waits)) ≡ 0 ∷ [] }
    ensures accepts_one_in_hand { FirstOwnerPasses second_waits }
    // .. / answered item 1 / parked / answered item 2: two are out of the handle beside the one inside
    ensures refuses_two_in_hand { Refuses (Keeps FirstOwnerPasses) second_waits (given 1 (Item 2)) }
    // .. / replied item 0 / .. / asked / got item 0
    ensures refuses_item_twice { Refuses (Keeps FirstOwnerPasses) second_asked (polls (GotItem 0 None) 2) }
    // .. / replied item 1 / asked / got item 2: more than was given
    ensures refuses_invented_item { Refuses (Keeps FirstOwnerPasses) (second_replied ▸ asks Next 2) (polls (GotItem 2 None) 2) }
{}

/// An owner that waits for an item is told, and so is a job that waits for room.
pub fn wakes()
    // .. / put 1 wake owner / delivered owner / answered item 1 / parked / ended 1 parked
    ensures accepts_told_owner { FirstOwnerIsNotLost stream_parked }
    ensures accepts_full_pipe { FirstOwnersJobParksRightly stream_parked }
    // .. / waits / .. / put 1 / answered item 1 / parked / ended 1 parked
    ensures refuses_untold_owner { Refuses (Keeps NoLostOwnerWake) untold_stream (ends 1 (Ended 1 Parked)) }
    // .. / ended 1 parked / asked / got item 0 / replied item 0 / asked / waits
    ensures refuses_untold_job { Refuses (Keeps NoLostOwnerWake) untold_stream_job (polls Waits 2) }
{}
