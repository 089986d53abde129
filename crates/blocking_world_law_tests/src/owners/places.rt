//! What owner and job are answered at their pipe and their slot.
ghost use Rattle.std.specs.Prelude.{[], ◌∷◌, Some, None};
ghost use Rattle.blocking_world_laws.specs.Traces.{◌▸◌, moment, Refuses};
ghost use Rattle.blocking_world_laws.specs.OwnerTraces.{asks, polls, works, FirstOwnerLaw, KeepsFirstOwner};
ghost use Rattle.blocking_world_laws.specs.OwnerTraces.{one_begun, reader_taken, four_given, four_put, reader_parked, reader_done, end_seen, stop_waits, stop_finished};
ghost use Rattle.blocking_world_laws.specs.declared.event.Act.TheVariants.{Made, Accepted, Got, GotEnd, Back, Waits, RoomFree, RoomShut, JobParked, Put, Lost};
ghost use Rattle.blocking_world_laws.specs.declared.event.HolderWaker.TheVariants.{Taken};
ghost use Rattle.blocking_world_laws.specs.declared.event.Party.TheVariants.{Owner};
ghost use Rattle.blocking_world_laws.specs.declared.step.Step.TheVariants.{New};
ghost use Rattle.blocking_world_laws.specs.declared.step.HandleCall.TheVariants.{Read, GetMut};

/// An owner takes the front of what is inside, waits beside an empty pipe, and sees the end of one that is closed.
pub fn owner_at_pipe()
    // .. / ended 1 parked / asked / got 61626364 wake 1: as much as there is
    ensures accepts_all { KeepsFirstOwner (reader_parked
        ▸ asks (Read 9) 2 ▸ polls (Got (97 ∷ 98 ∷ 99 ∷ 100 ∷ []) (Some 1)) 2) }
    // .. / ended 1 parked / asked / got 61 wake 1: it asked for two
    ensures refuses_less { Refuses FirstOwnerLaw (reader_parked ▸ asks (Read 2) 2) (polls (Got (97 ∷ []) (Some 1)) 2) }
    // .. / ended 1 parked / asked / got 6261 wake 1
    ensures refuses_swapped_bytes { Refuses FirstOwnerLaw (reader_parked ▸ asks (Read 2) 2)
        (polls (Got (98 ∷ 97 ∷ []) (Some 1)) 2) }
    // .. / ended 1 parked / asked / got 6364 wake 1: the first were not given yet
    ensures refuses_skipped_bytes { Refuses FirstOwnerLaw (reader_parked ▸ asks (Read 2) 2)
        (polls (Got (99 ∷ 100 ∷ []) (Some 1)) 2) }
    // .. / ended 1 parked / asked / waits
    ensures refuses_wait_beside_bytes { Refuses FirstOwnerLaw (reader_parked ▸ asks (Read 2) 2) (polls Waits 2) }
    // .. / ended 1 parked / asked / got end
    ensures refuses_end_beside_bytes { Refuses FirstOwnerLaw (reader_parked ▸ asks (Read 2) 2) (polls GotEnd 2) }
    // .. / accepted 1 +1 / got end: the job's end is open
    ensures refuses_end_of_open_pipe { Refuses FirstOwnerLaw one_begun (polls GotEnd 2) }
    // .. / ended 1 done / asked / waits: the pipe is empty, and closed
    ensures refuses_wait_at_end { Refuses FirstOwnerLaw (reader_done ▸ asks (Read 2) 2) (polls Waits 2) }
{}

/// A job finds the room that there is, puts all that it was given, and sees its owner's closed end.
pub fn job_at_pipe()
    // made 0, with no number of bytes / asked / accepted 1 +1 / room 8388608
    ensures accepts_default_capacity { KeepsFirstOwner ([]
        ▸ moment (New 0 0) (Owner 0) None (Made 0 0) 1 ▸ asks (Read 2) 1
        ▸ polls (Accepted 1) 1 ▸ works 1 (RoomFree 8388608)) }
    // .. / took 1 / room 3: it is 4
    ensures refuses_less_room { Refuses FirstOwnerLaw reader_taken (works 1 (RoomFree 3)) }
    // .. / took 1 / parked: there is room
    ensures refuses_wait_beside_room { Refuses FirstOwnerLaw reader_taken (works 1 JobParked) }
    // .. / took 1 / shut: the owner's end is open
    ensures refuses_shut_of_open_pipe { Refuses FirstOwnerLaw reader_taken (works 1 RoomShut) }
    // .. / put 4 wake owner / delivered owner / shut: it is full
    ensures refuses_shut_of_full_pipe { Refuses FirstOwnerLaw four_put (works 1 RoomShut) }
    // .. / answered 61626364 / put 2
    ensures refuses_part { Refuses FirstOwnerLaw four_given (works 1 (Put 2 Taken)) }
    // .. / answered 61626364 / lost 4
    ensures refuses_loss { Refuses FirstOwnerLaw four_given (works 1 (Lost 4)) }
    // .. / closed wake 1 / .. / took 1 / parked: its owner's end is closed
    ensures refuses_wait_for_closed { Refuses FirstOwnerLaw stop_waits (works 1 JobParked) }
{}

/// An owner finds its handle in the slot of the job, once that has finished.
pub fn slot()
    // .. / closed wake 1 / delivered 1 entered / waits / took 1 / asked / back: the job hasn't finished
    ensures refuses_early_return { Refuses FirstOwnerLaw (stop_waits ▸ asks GetMut 2) (polls Back 2) }
    // .. / finished wake owner / .. / asked / waits
    ensures refuses_wait_beside_handle { Refuses FirstOwnerLaw (stop_finished ▸ asks GetMut 2) (polls Waits 2) }
    // .. / finished / ended 1 done / asked / got end / waits
    ensures refuses_wait_after_end { Refuses FirstOwnerLaw end_seen (polls Waits 2) }
{}
