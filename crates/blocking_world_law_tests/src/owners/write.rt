//! What owners who write keep: their polls, their jobs, their pipes, and what a flush tells.
ghost use Rattle.std.specs.Prelude.{◌≡◌, false, List, [], ◌∷◌, Some, None};
ghost use Rattle.blocking_core.specs.declared.io.Fault.TheVariants as fault;
ghost use Rattle.blocking_pool.specs.declared.pool.answer.Refusal.TheVariants.{Memory};
ghost use Rattle.blocking_pool.specs.declared.pool.standing.Standing.TheVariants.{Parked};
ghost use Rattle.blocking_world_laws.specs.Seen.{events, cut, own};
ghost use Rattle.blocking_world_laws.specs.JobTable.{Writing, Peek, OfferBytes, AskFlush, fault as fault_of, next_of_job};
ghost use Rattle.blocking_world_laws.specs.OwnerLaws.{Works};
ghost use Rattle.blocking_world_laws.specs.OwnerWakes.{NoLostOwnerWake};
ghost use Rattle.blocking_world_laws.specs.Passed.{accepted, inside, taken};
ghost use Rattle.blocking_world_laws.specs.Sessions.{is_shut};
ghost use Rattle.blocking_world_laws.specs.Steps.{StepLaw};
ghost use Rattle.blocking_world_laws.specs.Traces.{◌▸◌, moment, Refuses, Keeps};
ghost use Rattle.blocking_world_laws.specs.OwnerTraces.{asks, polls, works, given, ends, drops};
ghost use Rattle.blocking_world_laws.specs.OwnerTraces.{FirstOwnerLaw, KeepsFirstOwner, FirstOwnerEnds, FirstOwnerPasses, FirstOwnerIsNotLost};
ghost use Rattle.blocking_world_laws.specs.OwnerTraces.{reader_parked};
ghost use Rattle.blocking_world_laws.specs.WriteTraces.{writer_made, write_asked, write_begun, two_filled, last_asked, writer_taken, two_peeked};
ghost use Rattle.blocking_world_laws.specs.WriteTraces.{one_answered, one_written, last_filled, all_written, writer_parked};
ghost use Rattle.blocking_world_laws.specs.WriteTraces.{flush_asked, flush_told, flush_taken, writer_drained, writer_flushed, flush_done, flush_back};
ghost use Rattle.blocking_world_laws.specs.WriteTraces.{all_flushed, writer_closed, unflushed_back};
ghost use Rattle.blocking_world_laws.specs.WriteTraces.{one_peeked, then_done, then_back, none_written, write_failed, both_failed};
ghost use Rattle.blocking_world_laws.specs.WriteTraces.{untold_writer, untold_write_job};
ghost use Rattle.blocking_world_laws.specs.declared.event.Act.TheVariants.{Asked, Accepted, Refused, OwnerClosed, Filled, FillShut, Replied, Waits, Answered, Peeked, Drained, Ended, JobParked, JobClosed, NoAction};
ghost use Rattle.blocking_world_laws.specs.declared.event.Act.TheVariants.{Taken as TakenOut};
ghost use Rattle.blocking_world_laws.specs.declared.event.Event.{Event};
ghost use Rattle.blocking_world_laws.specs.declared.event.HolderWaker.TheVariants.{Taken, Absent};
ghost use Rattle.blocking_world_laws.specs.declared.event.Party.TheVariants.{Owner};
ghost use Rattle.blocking_world_laws.specs.declared.event.Reply.TheVariants.{Okay, Count, Handle, Failed};
ghost use Rattle.blocking_world_laws.specs.declared.step.HandleAnswer.TheVariants.{Number, Gave, Fine};
ghost use Rattle.blocking_world_laws.specs.declared.step.HandleAnswer.TheVariants as answer;
ghost use Rattle.blocking_world_laws.specs.declared.step.HandleCall.TheVariants.{Read, Write, Flush, Close, GetMut};
ghost use Rattle.blocking_world_laws.specs.declared.step.Step.TheVariants.{Ask};

/// A poll begins a session, fills the pipe, stops a session that isn't its own, and replies, as its table says.
pub fn tables()
    // a writing session, from the first poll to the flush
    ensures accepts_session { KeepsFirstOwner all_flushed }
    // .. / replied ok / asked (to close) / replied ok / asked (to flush) / replied ok
    ensures accepts_flush_of_closed { KeepsFirstOwner (writer_closed ▸ asks Flush 2 ▸ polls (Replied Okay) 2) }
    // made 0 / asked (to flush) / replied ok
    ensures accepts_idle_flush { KeepsFirstOwner (writer_made ▸ asks Flush 1 ▸ polls (Replied Okay) 1) }
    // made 0 / asked (to write nothing) / replied ok 0
    ensures accepts_empty_data { KeepsFirstOwner (writer_made ▸ asks (Write []) 1 ▸ polls (Replied (Count 0)) 1) }
    // made 0 / asked / refused memory / replied fault refused memory
    ensures accepts_refused_session { KeepsFirstOwner (write_asked
        ▸ polls (Refused Memory) 1 ▸ polls (Replied (Failed (fault.Refused Memory))) 1) }
    // a reading job is parked / asked (to write 61) / closed wake 1
    ensures accepts_stop_of_reading { KeepsFirstOwner (reader_parked
        ▸ asks (Write (97 ∷ [])) 2 ▸ polls (OwnerClosed (Some 1)) 2) }
    // .. / ended 1 parked / asked (for the handle) / closed wake 1
    ensures accepts_stop_of_writing { KeepsFirstOwner (writer_parked ▸ asks GetMut 2 ▸ polls (OwnerClosed (Some 1)) 2) }
    // .. / put 2 / replied ok 3
    ensures refuses_other_count { Refuses FirstOwnerLaw two_filled (polls (Replied (Count 3)) 2) }
    // .. / ended 1 parked / asked (to flush) / replied ok: the pipe is empty, but nothing was flushed
    ensures refuses_early_flush { Refuses FirstOwnerLaw flush_asked (polls (Replied Okay) 2) }
    // .. / back / replied ok / asked (to close) / replied ok / asked (for the handle)
    ensures refuses_call_of_closed { Refuses FirstOwnerLaw writer_closed (asks GetMut 2) }
    // .. / back / replied ok / asked (to close) / replied handle
    ensures refuses_handle_to_close { Refuses FirstOwnerLaw (all_flushed ▸ asks Close 2) (polls (Replied Handle) 2) }
    // .. / drained / answered fault 9 / .. / back / replied ok
    ensures refuses_close_after_fault { Refuses FirstOwnerLaw unflushed_back (polls (Replied Okay) 2) }
{}

/// A writing job looks at the front of the pipe, offers that to its writer, and takes out what the writer took. After a write that fails,
/// and of a drained pipe, it has its writer flushed, closes its end and finishes.
pub fn jobs()
    // peeked 0102: the whole piece is offered
    ensures offers_piece { next_of_job Writing (Peeked (1 ∷ 2 ∷ []) ∷ []) ≡ OfferBytes (1 ∷ 2 ∷ []) }
    // drained / answered 0: after a write of which nothing was taken it flushes
    ensures flushes_after_none { next_of_job Writing (Answered (Number 0) ∷ Peeked (1 ∷ []) ∷ []) ≡ AskFlush }
    // .. / took 1 / answered 1: it has looked at nothing
    ensures refuses_answer_before_peek { Refuses FirstOwnerLaw writer_taken (given 1 (Number 1)) }
    // .. / peeked 2 / answered 3: more than was offered
    ensures refuses_more_than_offered { Refuses FirstOwnerLaw two_peeked (given 1 (Number 3)) }
    // .. / peeked 2 / answered 78: a writer gives no bytes
    ensures refuses_bytes { Refuses FirstOwnerLaw two_peeked (given 1 (Gave (120 ∷ []))) }
    // .. / peeked 2 / answered ok: it was asked to write
    ensures refuses_flush_of_write { Refuses FirstOwnerLaw two_peeked (given 1 Fine) }
    // .. / peeked 2 / taken 2 wake owner: its writer hasn't taken them
    ensures refuses_taken_before_answer { Refuses FirstOwnerLaw two_peeked (works 1 (TakenOut 2 Taken)) }
    // .. / answered 1 / taken 2 wake owner: its writer took one
    ensures refuses_more_than_taken { Refuses FirstOwnerLaw one_answered (works 1 (TakenOut 2 Taken)) }
    // .. / answered 1 / peeked 2: that one is to be taken out first
    ensures refuses_peek_before_taken { Refuses FirstOwnerLaw one_answered (works 1 (Peeked (120 ∷ 121 ∷ []))) }
    // .. / drained / closed: its writer wasn't flushed
    ensures refuses_close_before_flush { Refuses FirstOwnerLaw writer_drained (works 1 (JobClosed Absent)) }
    // .. / peeked 1 / answered 0 / peeked 1
    ensures refuses_peek_after_none { Refuses FirstOwnerLaw (one_peeked ▸ given 1 (Number 0)) (works 1 (Peeked (97 ∷ []))) }
    // .. / peeked 1 / answered fault 8 / peeked 1
    ensures refuses_peek_after_fault { Refuses FirstOwnerLaw (one_peeked ▸ given 1 (answer.Failed 8))
        (works 1 (Peeked (97 ∷ []))) }
{}

/// An owner puts as much into its pipe as there is room for, and waits where it is full. A job sees the front of what is inside, waits
/// where the pipe is empty, and finds it drained once its owner's end is closed.
pub fn places()
    // .. / accepted 1 +1 / put 3: there is room for two
    ensures refuses_more_than_room { Refuses FirstOwnerLaw write_begun (polls (Filled 3 None) 2) }
    // .. / accepted 1 +1 / put 1: there is room for two
    ensures refuses_less { Refuses FirstOwnerLaw write_begun (polls (Filled 1 None) 2) }
    // .. / accepted 1 +1 / waits
    ensures refuses_wait_beside_room { Refuses FirstOwnerLaw write_begun (polls Waits 2) }
    // .. / accepted 1 +1 / put shut: the job's end is open
    ensures refuses_shut_of_open_pipe { Refuses FirstOwnerLaw write_begun (polls FillShut 2) }
    // .. / asked / put 1: the pipe is full
    ensures refuses_put_into_full_pipe { Refuses FirstOwnerLaw last_asked (polls (Filled 1 None) 2) }
    // .. / peeked 1 / answered 0 / answered ok / closed / finished / ended 1 done / asked (to write 61) / put shut / replied ok 0
    ensures accepts_put_shut { KeepsFirstOwner (then_done none_written
        ▸ asks (Write (97 ∷ [])) 2 ▸ polls FillShut 2 ▸ polls (Replied (Count 0)) 2) }
    // .. / ended 1 done / asked (to write 61) / put 1: the job's end is closed
    ensures refuses_put_into_closed_pipe { Refuses FirstOwnerLaw (then_done none_written ▸ asks (Write (97 ∷ [])) 2)
        (polls (Filled 1 None) 2) }
    // .. / asked (to write 61) / put shut / replied ok 1
    ensures refuses_count_of_closed_pipe { Refuses FirstOwnerLaw
        (then_done none_written ▸ asks (Write (97 ∷ [])) 2 ▸ polls FillShut 2) (polls (Replied (Count 1)) 2) }
    // .. / took 1 / peeked 2, of other bytes
    ensures refuses_swapped_bytes { Refuses FirstOwnerLaw writer_taken (works 1 (Peeked (121 ∷ 120 ∷ []))) }
    // .. / took 1 / peeked 1: there are two
    ensures refuses_part { Refuses FirstOwnerLaw writer_taken (works 1 (Peeked (120 ∷ []))) }
    // .. / took 1 / parked: there are two
    ensures refuses_wait_beside_bytes { Refuses FirstOwnerLaw writer_taken (works 1 JobParked) }
    // .. / took 1 / drained: so there are, and the owner's end is open
    ensures refuses_drained_beside_bytes { Refuses FirstOwnerLaw writer_taken (works 1 Drained) }
    // .. / taken 1 / drained: it is empty, but the owner's end is open
    ensures refuses_drained_while_open { Refuses FirstOwnerLaw all_written (works 1 Drained) }
    // .. / closed wake 1 / .. / took 1 / parked: it is empty, and the owner's end is closed
    ensures refuses_wait_for_closed { Refuses FirstOwnerLaw flush_taken (works 1 JobParked) }
{}

/// Which acts of an owner that writes and of its job bear a wake.
pub fn seats()
    // .. / waits / .. / peeked 2 / answered 1 / taken 1
    ensures refuses_forgotten_at_taken { Refuses FirstOwnerLaw one_answered (works 1 (TakenOut 1 Absent)) }
    // .. / replied ok 1 / answered 1 / taken 1 wake owner: the owner doesn't wait
    ensures refuses_made_up_at_taken { Refuses FirstOwnerLaw (last_filled ▸ given 1 (Number 1)) (works 1 (TakenOut 1 Taken)) }
    // .. / ended 1 parked / asked (to write 61) / put 1
    ensures refuses_forgotten_at_put { Refuses FirstOwnerLaw (writer_parked ▸ asks (Write (97 ∷ [])) 2)
        (polls (Filled 1 None) 2) }
    // .. / ended 1 parked / asked (to write 61) / put 1 wake 1 / replied ok 1: job 1 has to be woken first
    ensures refuses_undelivered_note { Refuses FirstOwnerLaw
        (writer_parked ▸ asks (Write (97 ∷ [])) 2 ▸ polls (Filled 1 (Some 1)) 2) (polls (Replied (Count 1)) 2) }
    // .. / ended 1 parked / asked (to flush) / closed
    ensures refuses_forgotten_at_close { Refuses FirstOwnerLaw flush_asked (polls (OwnerClosed None) 2) }
{}

/// The fault of a writing job is the first one: a write of which nothing was taken, or a failure of the writer. The call that finds its
/// session over tells it, and no flush hides it.
pub fn faults()
    // answered 0, after peeked 01
    ensures none_is_a_fault { fault_of Writing (Answered (Number 0) ∷ Peeked (1 ∷ []) ∷ []) ≡ Some fault.WriteZero }
    // answered 1, after peeked 01
    ensures some_is_none { fault_of Writing (Answered (Number 1) ∷ Peeked (1 ∷ []) ∷ []) ≡ None }
    // .. / peeked 1 / answered 0 / answered ok / .. / back / replied fault write-zero / asked (to flush) / replied ok
    ensures accepts_write_zero { KeepsFirstOwner (then_back none_written
        ▸ polls (Replied (Failed fault.WriteZero)) 2 ▸ asks Flush 2 ▸ polls (Replied Okay) 2) }
    // .. / peeked 1 / answered fault 8 / answered fault 9 / .. / back / replied fault io 8
    ensures accepts_write_fault { KeepsFirstOwner (then_back both_failed ▸ polls (Replied (Failed (fault.Io 8))) 2) }
    // .. / drained / answered fault 9 / .. / asked (to close) / back / replied fault io 9 / asked (for the handle) / replied handle
    ensures accepts_flush_fault { KeepsFirstOwner (unflushed_back
        ▸ polls (Replied (Failed (fault.Io 9))) 2 ▸ asks GetMut 2 ▸ polls (Replied Handle) 2) }
    // .. / answered 0 / answered ok / .. / back / replied ok
    ensures refuses_none_as_written { Refuses FirstOwnerLaw (then_back none_written) (polls (Replied Okay) 2) }
    // .. / answered fault 8 / answered ok / .. / back / replied ok
    ensures refuses_fault_hidden_by_flush { Refuses FirstOwnerLaw (then_back write_failed) (polls (Replied Okay) 2) }
    // .. / answered fault 8 / answered fault 9 / .. / back / replied fault io 9
    ensures refuses_fault_of_flush { Refuses FirstOwnerLaw (then_back both_failed) (polls (Replied (Failed (fault.Io 9))) 2) }
{}

/// A flush and a close say that all is written only where it is.
pub fn ends_of_flush()
    // .. / back / replied ok
    ensures accepts_flush { FirstOwnerEnds flush_back (polls (Replied Okay) 2) }
    // made 0 / asked (to flush) / replied ok: no session came back
    ensures accepts_idle_flush { FirstOwnerEnds (writer_made ▸ asks Flush 1) (polls (Replied Okay) 1) }
    // .. / answered 0 / answered ok / .. / back / replied ok
    ensures refuses_none_as_written { Refuses FirstOwnerEnds (then_back none_written) (polls (Replied Okay) 2) }
    // .. / answered fault 8 / answered ok / .. / back / replied ok
    ensures refuses_fault_hidden_by_flush { Refuses FirstOwnerEnds (then_back write_failed) (polls (Replied Okay) 2) }
    // .. / drained / answered fault 9 / .. / asked (to close) / back / replied ok: all was taken, and not flushed
    ensures refuses_close_of_unflushed { Refuses FirstOwnerEnds unflushed_back (polls (Replied Okay) 2) }
{}

/// What a writer took is a beginning of what was accepted, and no more of that is inside than the pipe holds.
pub fn passing()
    // a writing session, from the first poll to the flush
    ensures accepts_session { FirstOwnerPasses all_flushed }
    // .. / peeked 1 / asked / put 1 / replied ok 1
    ensures accepted_is_joined { accepted (own (cut 0 (events last_filled))) ≡ 120 ∷ 121 ∷ 122 ∷ [] }
    // answered 1 of 0102, after answered 1 of 0304
    ensures taken_is_joined { taken (Answered (Number 1) ∷ Peeked (1 ∷ 2 ∷ []) ∷ Answered (Number 1) ∷ Peeked (3 ∷ 4 ∷ []) ∷ [])
        ≡ 3 ∷ 1 ∷ [] }
    // .. / peeked 2 / answered 1: both are still inside
    ensures unconsumed_stays { inside (cut 0 (events one_answered)) ≡ 120 ∷ 121 ∷ [] }
    // .. / taken 1 wake owner
    ensures rest_stays { inside (cut 0 (events one_written)) ≡ 121 ∷ [] }
    // .. / took 1 / peeked 2, of swapped bytes / answered 2
    ensures refuses_swapped_bytes { Refuses (Keeps FirstOwnerPasses) (writer_taken ▸ works 1 (Peeked (121 ∷ 120 ∷ [])))
        (given 1 (Number 2)) }
    // .. / answered 1 / peeked 2 / answered 2: the first byte twice
    ensures refuses_bytes_twice { Refuses (Keeps FirstOwnerPasses) (one_answered ▸ works 1 (Peeked (120 ∷ 121 ∷ [])))
        (given 1 (Number 2)) }
    // .. / accepted 1 +1 / put 3
    ensures refuses_overfull_pipe { Refuses (Keeps FirstOwnerPasses) write_begun (polls (Filled 3 None) 2) }
{}

/// A job that parks where it looks at the front of its pipe found that empty, and its owner's end open.
pub fn parking()
    ensures beside_empty_pipe { (cut : List Event) → Works cut Peek JobParked → (inside cut ≡ []) × (is_shut (own cut) ≡ false) }
{}

/// An owner that waits for room, or for its handle, is told.
pub fn wakes()
    // .. / ended 1 parked / asked (to flush) / closed wake 1 / waits
    ensures accepts_note_under_way { FirstOwnerIsNotLost
        (flush_asked ▸ polls (OwnerClosed (Some 1)) 2 ▸ polls Waits 2) }
    // .. / waits / .. / taken 1 / .. / parked / ended 1 parked
    ensures refuses_untold_by_taken { Refuses (Keeps NoLostOwnerWake) untold_writer (ends 1 (Ended 1 Parked)) }
    // .. / ended 1 parked / asked / put 2 / replied ok 2 / asked / waits
    ensures refuses_untold_job { Refuses (Keeps NoLostOwnerWake) untold_write_job (polls Waits 2) }
{}

/// An owner that rests is asked to write, to flush and to close; once its handle is gone it is asked to write no more.
pub fn steps()
    // made 0 / asked
    ensures accepts_write { StepLaw writer_made (asks (Write (97 ∷ [])) 1) }
    ensures accepts_flush { StepLaw writer_made (asks Flush 1) }
    ensures accepts_close { StepLaw writer_made (asks Close 1) }
    // made 0 / nothing
    ensures refuses_nothing_for_write { Refuses StepLaw writer_made
        (moment (Ask 0 (Write (97 ∷ []))) (Owner 0) None NoAction 1) }
    ensures refuses_nothing_for_flush { Refuses StepLaw writer_made (moment (Ask 0 Flush) (Owner 0) None NoAction 1) }
    ensures refuses_nothing_for_close { Refuses StepLaw writer_made (moment (Ask 0 Close) (Owner 0) None NoAction 1) }
    // .. / asked (to close) / replied ok / nothing
    ensures accepts_nothing_for_closed { StepLaw writer_closed
        (moment (Ask 0 (Write (97 ∷ []))) (Owner 0) None NoAction 2) }
    // .. / asked (to close) / replied ok / asked (to write 61)
    ensures refuses_write_of_closed { Refuses StepLaw writer_closed (asks (Write (97 ∷ [])) 2) }
{}
