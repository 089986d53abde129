//! What the job of an owner does.
ghost use Rattle.std.specs.Prelude.{◌≡◌, [], ◌∷◌, Some};
ghost use Rattle.blocking_core.specs.declared.io.Fault.TheVariants.{Io};
ghost use Rattle.blocking_world_laws.specs.JobTable.{Reading, AskBytes, fault, next_of_job};
ghost use Rattle.blocking_world_laws.specs.Traces.{◌▸◌, Refuses};
ghost use Rattle.blocking_world_laws.specs.OwnerTraces.{takes, works, given, FirstOwnerLaw, KeepsFirstOwner};
ghost use Rattle.blocking_world_laws.specs.OwnerTraces.{reader_taken, room_found, four_given, four_put, end_given, reader_done};
ghost use Rattle.blocking_world_laws.specs.OwnerTraces.{stop_finished, reader_dropped, failed};
ghost use Rattle.blocking_world_laws.specs.declared.event.Act.TheVariants.{TookDropped, Answered, RoomFree, Put, Finished, GaveUp};
ghost use Rattle.blocking_world_laws.specs.declared.event.HolderWaker.TheVariants.{Taken, Absent};
ghost use Rattle.blocking_world_laws.specs.declared.step.HandleAnswer.TheVariants.{Number, Gave, Failed};

/// A reading job looks for room, asks its reader, puts what it was given, and closes its end before it finishes.
pub fn tables()
    // .. / closed wake 1 / .. / shut / closed / finished wake owner / delivered owner / ended 1 done
    ensures accepts_stopped_job { KeepsFirstOwner stop_finished }
    // room 70000: no more than a piece is asked for at once
    ensures asks_for_piece { next_of_job Reading (RoomFree 70000 ∷ []) ≡ AskBytes 65536 }
    // answered fault 1 / answered fault 2
    ensures tells_first_fault { fault Reading (Answered (Failed 2) ∷ Answered (Failed 1) ∷ []) ≡ Some (Io 1) }
    // .. / took 1 / answered 6162: it has found no room
    ensures refuses_answer_before_room { Refuses FirstOwnerLaw reader_taken (given 1 (Gave (97 ∷ 98 ∷ []))) }
    // .. / room 4 / answered 6162636465
    ensures refuses_more_than_asked { Refuses FirstOwnerLaw room_found
        (given 1 (Gave (97 ∷ 98 ∷ 99 ∷ 100 ∷ 101 ∷ []))) }
    // .. / room 4 / answered 4: a reader gives bytes
    ensures refuses_number { Refuses FirstOwnerLaw room_found (given 1 (Number 4)) }
    // .. / room 4 / put 4
    ensures refuses_put_before_answer { Refuses FirstOwnerLaw room_found (works 1 (Put 4 Taken)) }
    // .. / put 4 wake owner / delivered owner / room 4
    ensures refuses_room_in_full_pipe { Refuses FirstOwnerLaw four_put (works 1 (RoomFree 4)) }
    // .. / answered - / room 4: it closes its end
    ensures refuses_read_after_end { Refuses FirstOwnerLaw end_given (works 1 (RoomFree 4)) }
    // .. / answered - / finished: so it does before it finishes
    ensures refuses_finish_before_close { Refuses FirstOwnerLaw end_given (works 1 (Finished Absent)) }
    // .. / answered fault 8 / room 4
    ensures refuses_read_after_fault { Refuses FirstOwnerLaw failed (works 1 (RoomFree 4)) }
    // .. / ended 1 done / finished
    ensures refuses_finish_twice { Refuses FirstOwnerLaw reader_done (works 1 (Finished Absent)) }
    // .. / took 1 / room 4, of job 2, which the owner has not
    ensures refuses_stranger { Refuses FirstOwnerLaw reader_taken (works 2 (RoomFree 4)) }
{}

/// A job gives up where its owner was dropped, and nowhere else.
pub fn giving_up()
    // .. / ended 1 parked / dropped / took 1 dropped / gave up
    ensures accepts_dropped { KeepsFirstOwner (reader_dropped ▸ takes 1 (TookDropped 1) ▸ works 1 (GaveUp Absent)) }
    // .. / dropped / gave up wake owner: no waker is seated in its slot
    ensures refuses_wake { Refuses FirstOwnerLaw reader_dropped (works 1 (GaveUp Taken)) }
    // .. / answered 61626364 / gave up
    ensures refuses_unasked { Refuses FirstOwnerLaw four_given (works 1 (GaveUp Absent)) }
    // .. / dropped / gave up / gave up
    ensures refuses_twice { Refuses FirstOwnerLaw (reader_dropped ▸ works 1 (GaveUp Absent)) (works 1 (GaveUp Absent)) }
{}
