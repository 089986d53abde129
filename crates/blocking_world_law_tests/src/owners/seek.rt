//! What owners who seek keep.
ghost use Rattle.std.specs.Prelude.{◌≡◌, [], ◌∷◌, None, pos, negsuc, true, false};
ghost use Rattle.blocking_core.specs.declared.io.Fault.TheVariants as fault;
ghost use Rattle.blocking_core.specs.declared.io.Position.TheVariants.{Start, Current, End};
ghost use Rattle.blocking_pool.specs.declared.pool.answer.Refusal.TheVariants.{Memory};
ghost use Rattle.blocking_world_laws.specs.Core.{same_position};
ghost use Rattle.blocking_world_laws.specs.JobTable.{Seeking, AskSeek, Finish, next_of_job};
ghost use Rattle.blocking_world_laws.specs.Traces.{◌▸◌, Refuses};
ghost use Rattle.blocking_world_laws.specs.OwnerTraces.{asks, polls, works, given, FirstOwnerLaw, KeepsFirstOwner};
ghost use Rattle.blocking_world_laws.specs.OwnerTraces.{one_made, reader_parked, failed_done};
ghost use Rattle.blocking_world_laws.specs.SeekTraces.{seek_asked, reading_over, reading_back, seek_begun, seek_taken, handle_moved, seek_done, seek_back, seek_replied};
ghost use Rattle.blocking_world_laws.specs.SeekTraces.{old_seek_taken, old_sought, other_asked, seek_failed};
ghost use Rattle.blocking_world_laws.specs.declared.event.Act.TheVariants.{Accepted, Refused, OwnerClosed, Back, Replied, Waits, Answered, JobParked, JobClosed, Finished};
ghost use Rattle.blocking_world_laws.specs.declared.event.HolderWaker.TheVariants.{Taken, Absent};
ghost use Rattle.blocking_world_laws.specs.declared.event.Reply.TheVariants.{Okay, Count, Handle, Failed as FailedReply};
ghost use Rattle.blocking_world_laws.specs.declared.step.HandleAnswer.TheVariants.{Number, Gave, Fine, Failed};
ghost use Rattle.blocking_world_laws.specs.declared.step.HandleCall.TheVariants.{Read, Flush, Seek, GetMut};

/// A poll begins a seek, waits for it, and tells where the handle is; from a session that isn't a seek it first takes the handle back.
pub fn tables()
    // a seek after a read that ran ahead, from the first poll to the reply
    ensures accepts_session { KeepsFirstOwner seek_replied }
    // made 0 / asked / refused memory / replied fault refused memory
    ensures accepts_refused_session { KeepsFirstOwner (one_made
        ▸ asks (Seek (End (negsuc 1))) 1 ▸ polls (Refused Memory) 1 ▸ polls (Replied (FailedReply (fault.Refused Memory))) 1) }
    // .. / replied ok 4 / asked (for the handle) / replied handle
    ensures accepts_idle_after_seek { KeepsFirstOwner (seek_replied ▸ asks GetMut 2 ▸ polls (Replied Handle) 2) }
    // .. / ended 1 parked / asked (to seek s7) / accepted 2: a job has the handle
    ensures refuses_seek_of_lent_handle { Refuses FirstOwnerLaw (reader_parked ▸ asks (Seek (Start 7)) 2) (polls (Accepted 2) 2) }
    // .. / replied ok 2 / asked (to seek c0) / waits: the own end of the pipe is open
    ensures refuses_wait_before_close { Refuses FirstOwnerLaw seek_asked (polls Waits 2) }
    // .. / ended 1 done / asked (to seek c0) / back / replied ok 4: the bytes that it read ahead are no position
    ensures refuses_position_of_reading { Refuses FirstOwnerLaw reading_back (polls (Replied (Count 4)) 2) }
    // .. / accepted 2 / back: the job hasn't finished
    ensures refuses_early_return { Refuses FirstOwnerLaw seek_begun (polls Back 2) }
    // .. / ended 2 done / asked (to seek c0) / back / replied ok 5
    ensures refuses_other_place { Refuses FirstOwnerLaw seek_back (polls (Replied (Count 5)) 2) }
    // .. / ended 2 done / asked (to seek c0) / back / accepted 3: the answer is there
    ensures refuses_second_seek { Refuses FirstOwnerLaw seek_back (polls (Accepted 3) 2) }
    // .. / accepted 2 / waits / took 2 / asked (to read) / closed: a seek has no pipe
    ensures refuses_close_of_seek { Refuses FirstOwnerLaw (seek_taken ▸ asks (Read 2) 2) (polls (OwnerClosed None) 2) }
{}

/// A seek that was given up is taken up by a seek to the very position, and by no other call.
pub fn given_up()
    // .. / answered 7 / .. / ended 1 done / asked (to seek s7) / back / replied ok 7
    ensures accepts_same { KeepsFirstOwner (old_sought
        ▸ asks (Seek (Start 7)) 2 ▸ polls Back 2 ▸ polls (Replied (Count 7)) 2) }
    // .. / answered 7 / .. / ended 1 done / asked (to seek s9) / back / accepted 2
    ensures accepts_other { KeepsFirstOwner (other_asked ▸ polls (Accepted 2) 2) }
    // .. / answered 7 / .. / ended 1 done / asked (to seek s9) / back / replied ok 7: that is the older position
    ensures refuses_older_position { Refuses FirstOwnerLaw other_asked (polls (Replied (Count 7)) 2) }
    // .. / answered 7 / .. / ended 1 done / asked (to seek c7) / back / replied ok 7
    ensures refuses_other_origin { Refuses FirstOwnerLaw (old_sought ▸ asks (Seek (Current (pos 7))) 2 ▸ polls Back 2)
        (polls (Replied (Count 7)) 2) }
    // .. / answered 7 / .. / ended 1 done / asked (to read) / back / accepted 2
    ensures accepts_read_after { KeepsFirstOwner (old_sought ▸ asks (Read 2) 2 ▸ polls Back 2 ▸ polls (Accepted 2) 2) }
    // .. / answered 7 / .. / ended 1 done / asked (to flush) / back / replied ok
    ensures accepts_flush_after { KeepsFirstOwner (old_sought ▸ asks Flush 2 ▸ polls Back 2 ▸ polls (Replied Okay) 2) }
    ensures same_is_same { same_position (Current (negsuc 1)) (Current (negsuc 1)) ≡ true }
    ensures sign_matters { same_position (Current (pos 2)) (Current (negsuc 1)) ≡ false }
    ensures origin_matters { same_position (Current (pos 2)) (End (pos 2)) ≡ false }
{}

/// A seek tells the fault of the session that it finds over, its own or another's.
pub fn faults()
    // .. / answered fault 5 / .. / ended 1 done / asked (to seek s7) / back / replied fault io 5
    ensures accepts_fault { KeepsFirstOwner (seek_failed
        ▸ asks (Seek (Start 7)) 2 ▸ polls Back 2 ▸ polls (Replied (FailedReply (fault.Io 5))) 2) }
    // .. / answered fault 5 / .. / ended 1 done / asked (to read) / back / replied fault io 5
    ensures accepts_fault_told_to_read { KeepsFirstOwner (seek_failed
        ▸ asks (Read 2) 2 ▸ polls Back 2 ▸ polls (Replied (FailedReply (fault.Io 5))) 2) }
    // .. / answered fault 8 / .. / ended 1 done / asked (to seek s7) / closed / back / replied fault io 8
    ensures accepts_fault_of_reading { KeepsFirstOwner (failed_done
        ▸ asks (Seek (Start 7)) 2 ▸ polls (OwnerClosed None) 2 ▸ polls Back 2 ▸ polls (Replied (FailedReply (fault.Io 8))) 2) }
    // .. / answered fault 5 / .. / ended 1 done / asked (to seek s7) / back / replied ok 0
    ensures refuses_place_after_fault { Refuses FirstOwnerLaw (seek_failed ▸ asks (Seek (Start 7)) 2 ▸ polls Back 2)
        (polls (Replied (Count 0)) 2) }
    // .. / answered fault 5 / .. / ended 1 done / asked (to seek s9) / back / accepted 2: the fault is to be told
    ensures refuses_fault_that_is_dropped { Refuses FirstOwnerLaw (seek_failed ▸ asks (Seek (Start 9)) 2 ▸ polls Back 2)
        (polls (Accepted 2) 2) }
{}

/// A seeking job has its handle moved, and finishes.
pub fn jobs()
    ensures asks_first { next_of_job (Seeking (Start 7)) [] ≡ AskSeek }
    // answered 7
    ensures finishes { next_of_job (Seeking (Start 7)) (Answered (Number 7) ∷ []) ≡ Finish }
    // answered fault 5
    ensures finishes_after_fault { next_of_job (Seeking (Start 7)) (Answered (Failed 5) ∷ []) ≡ Finish }
    // .. / took 1 / answered 61
    ensures refuses_bytes { Refuses FirstOwnerLaw old_seek_taken (given 1 (Gave (97 ∷ []))) }
    ensures refuses_flush { Refuses FirstOwnerLaw old_seek_taken (given 1 Fine) }
    // .. / took 1 / finished wake owner: the handle wasn't moved
    ensures refuses_finish_before_answer { Refuses FirstOwnerLaw old_seek_taken (works 1 (Finished Taken)) }
    // .. / took 1 / parked: there is nothing to wait for
    ensures refuses_wait { Refuses FirstOwnerLaw old_seek_taken (works 1 JobParked) }
    // .. / took 2 / answered 4 / closed: it has no pipe
    ensures refuses_close { Refuses FirstOwnerLaw handle_moved (works 2 (JobClosed Absent)) }
    // .. / took 2 / answered 4 / finished: its owner waits
    ensures refuses_forgotten_waker { Refuses FirstOwnerLaw handle_moved (works 2 (Finished Absent)) }
    // .. / ended 2 done / finished
    ensures refuses_finish_twice { Refuses FirstOwnerLaw seek_done (works 2 (Finished Absent)) }
    // .. / shut / closed / .. / ended 1 done / answered 4: job 1 reads, and is over
    ensures refuses_answer_of_reader { Refuses FirstOwnerLaw reading_over (given 1 (Number 4)) }
{}
