//! What a poll of an owner does.
ghost use Rattle.std.specs.Prelude.{[], ◌∷◌, Some, None};
ghost use Rattle.blocking_core.specs.declared.io.Fault.TheVariants as fault;
ghost use Rattle.blocking_pool.specs.declared.pool.answer.Refusal.TheVariants.{Memory};
ghost use Rattle.blocking_world_laws.specs.Traces.{◌▸◌, Refuses};
ghost use Rattle.blocking_world_laws.specs.OwnerTraces.{asks, polls, drops, FirstOwnerLaw, KeepsFirstOwner};
ghost use Rattle.blocking_world_laws.specs.OwnerTraces.{one_made, one_asked, two_got, two_told, end_read, reader_back};
ghost use Rattle.blocking_world_laws.specs.OwnerTraces.{handle_asked, stop_back, failed_done, failed_back};
ghost use Rattle.blocking_world_laws.specs.declared.event.Act.TheVariants.{Accepted, Refused, OwnerClosed, Got, Back, Replied, Waits};
ghost use Rattle.blocking_world_laws.specs.declared.event.Reply.TheVariants.{Count, Handle, Failed};
ghost use Rattle.blocking_world_laws.specs.declared.step.HandleCall.TheVariants.{Read, GetMut};

/// A poll begins a session, takes what is there, stops a session that isn't its own, and replies, as its table says.
pub fn tables()
    // a reading session, from the first poll to the end
    ensures accepts_session { KeepsFirstOwner end_read }
    // .. / asked / closed wake 1 / delivered 1 entered / waits / .. / asked / back / replied handle
    ensures accepts_stop { KeepsFirstOwner (stop_back ▸ polls (Replied Handle) 2) }
    // .. / got end / back / replied ok 0 / asked / replied handle
    ensures accepts_handle_after_end { KeepsFirstOwner (end_read ▸ asks GetMut 2 ▸ polls (Replied Handle) 2) }
    // .. / got end / back / replied ok 0 / asked / accepted 2 / waits
    ensures accepts_session_after_end { KeepsFirstOwner (end_read
        ▸ asks (Read 2) 2 ▸ polls (Accepted 2) 2 ▸ polls Waits 2) }
    // .. / asked / back / replied handle / asked / accepted 2 / waits: the new pipe is open
    ensures accepts_session_after_stop { KeepsFirstOwner (stop_back
        ▸ polls (Replied Handle) 2 ▸ asks (Read 2) 2 ▸ polls (Accepted 2) 2 ▸ polls Waits 2) }
    // made 0 / asked / replied ok 0: the buffer is empty
    ensures accepts_empty_buffer { KeepsFirstOwner (one_made ▸ asks (Read 0) 1 ▸ polls (Replied (Count 0)) 1) }
    // made 0 / asked / replied handle / dropped
    ensures accepts_idle_handle { KeepsFirstOwner (one_made
        ▸ asks GetMut 1 ▸ polls (Replied Handle) 1 ▸ drops 1) }
    // made 0 / asked / refused memory / replied fault refused memory
    ensures accepts_refused_session { KeepsFirstOwner (one_asked
        ▸ polls (Refused Memory) 1 ▸ polls (Replied (Failed (fault.Refused Memory))) 1) }
    // made 0 / asked / waits: an idle reader gives no reason to wait
    ensures refuses_wait_unasked { Refuses FirstOwnerLaw one_asked (polls Waits 1) }
    // made 0 / asked / asked
    ensures refuses_second_call { Refuses FirstOwnerLaw one_asked (asks GetMut 1) }
    // made 0 / asked / dropped
    ensures refuses_drop_in_poll { Refuses FirstOwnerLaw one_asked (drops 1) }
    // .. / got 6162 wake 1 / replied ok 2: job 1 has to be woken first
    ensures refuses_undelivered_note { Refuses FirstOwnerLaw two_got (polls (Replied (Count 2)) 2) }
    // .. / delivered 1 entered / replied ok 1
    ensures refuses_other_count { Refuses FirstOwnerLaw two_told (polls (Replied (Count 1)) 2) }
    // .. / delivered 1 entered / got 6364
    ensures refuses_second_drain { Refuses FirstOwnerLaw two_told (polls (Got (99 ∷ 100 ∷ []) None) 2) }
    // .. / ended 1 parked / asked / replied handle: a job has it
    ensures refuses_lent_handle { Refuses FirstOwnerLaw handle_asked (polls (Replied Handle) 2) }
    // .. / got end / back / replied ok 0 / asked / accepted 1: a session begins with a new job
    ensures refuses_old_job { Refuses FirstOwnerLaw (end_read ▸ asks (Read 2) 2) (polls (Accepted 1) 2) }
    // .. / got end / back / accepted 2: the end was seen
    ensures refuses_session_after_end { Refuses FirstOwnerLaw reader_back (polls (Accepted 2) 2) }
{}

/// A fault is told by the read that finds its session over, and by that alone.
pub fn faults()
    // .. / answered fault 8 / closed wake owner / .. / got end / back / replied fault io 8
    ensures accepts_fault { KeepsFirstOwner (failed_back ▸ polls (Replied (Failed (fault.Io 8))) 2) }
    // .. / answered fault 8 / .. / ended 1 done / asked, for the handle / closed / back / replied handle
    ensures accepts_untold_fault { KeepsFirstOwner (failed_done
        ▸ asks GetMut 2 ▸ polls (OwnerClosed None) 2 ▸ polls Back 2 ▸ polls (Replied Handle) 2) }
    // .. / back / replied ok 0
    ensures refuses_end_in_its_place { Refuses FirstOwnerLaw failed_back (polls (Replied (Count 0)) 2) }
    // .. / back / replied fault io 9
    ensures refuses_other_fault { Refuses FirstOwnerLaw failed_back (polls (Replied (Failed (fault.Io 9))) 2) }
    // .. / got end / back / replied fault io 8: there was none
    ensures refuses_made_up_fault { Refuses FirstOwnerLaw reader_back (polls (Replied (Failed (fault.Io 8))) 2) }
    // .. / back, with the handle asked for / replied fault io 8
    ensures refuses_fault_to_other_call { Refuses FirstOwnerLaw stop_back (polls (Replied (Failed (fault.Io 8))) 2) }
    // .. / back / replied fault io 8 / back
    ensures refuses_second_return { Refuses FirstOwnerLaw
        (failed_back ▸ polls (Replied (Failed (fault.Io 8))) 2) (polls Back 2) }
{}
