//! Which acts of an owner and of its job bear a wake.
ghost use Rattle.std.specs.Prelude.{[], ◌∷◌, Some, None};
ghost use Rattle.blocking_world_laws.specs.Traces.{◌▸◌, Refuses};
ghost use Rattle.blocking_world_laws.specs.OwnerTraces.{asks, polls, works, FirstOwnerLaw};
ghost use Rattle.blocking_world_laws.specs.OwnerTraces.{four_given, reader_parked, two_told, handle_asked, end_given, stop_waits, stop_closed};
ghost use Rattle.blocking_world_laws.specs.declared.event.Act.TheVariants.{OwnerClosed, Got, Replied, RoomShut, Put, JobClosed, Finished};
ghost use Rattle.blocking_world_laws.specs.declared.event.HolderWaker.TheVariants.{Taken, Absent};
ghost use Rattle.blocking_world_laws.specs.declared.event.Reply.TheVariants.{Count};
ghost use Rattle.blocking_world_laws.specs.declared.step.HandleCall.TheVariants.{Read};

/// A job that takes its owner's waker out of a seat bears it, and no other does.
pub fn wakes_of_owners()
    // .. / waits / .. / answered 61626364 / put 4
    ensures refuses_forgotten_at_put { Refuses FirstOwnerLaw four_given (works 1 (Put 4 Absent)) }
    // .. / answered - / closed wake owner: the owner doesn't wait
    ensures refuses_made_up_at_close { Refuses FirstOwnerLaw end_given (works 1 (JobClosed Taken)) }
    // .. / closed wake 1 / .. / waits / .. / shut / closed wake owner: it waits at the slot
    ensures refuses_wake_of_other_seat { Refuses FirstOwnerLaw (stop_waits ▸ works 1 RoomShut)
        (works 1 (JobClosed Taken)) }
    // .. / shut / closed / finished
    ensures refuses_forgotten_at_finish { Refuses FirstOwnerLaw stop_closed (works 1 (Finished Absent)) }
{}

/// An owner that takes its job's note out of its seat bears it, once.
pub fn notes()
    // .. / ended 1 parked / asked / got 6162
    ensures refuses_forgotten_at_drain { Refuses FirstOwnerLaw (reader_parked ▸ asks (Read 2) 2)
        (polls (Got (97 ∷ 98 ∷ []) None) 2) }
    // .. / ended 1 parked / asked / closed
    ensures refuses_forgotten_at_close { Refuses FirstOwnerLaw handle_asked (polls (OwnerClosed None) 2) }
    // .. / got 6162 wake 1 / delivered 1 entered / replied ok 2 / asked / got 6364 wake 1
    ensures refuses_second_note { Refuses FirstOwnerLaw
        (two_told ▸ polls (Replied (Count 2)) 2 ▸ asks (Read 2) 2) (polls (Got (99 ∷ 100 ∷ []) (Some 1)) 2) }
{}
