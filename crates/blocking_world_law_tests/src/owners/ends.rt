//! Ends that are told, and what passed.
ghost use Rattle.std.specs.Prelude.{◌≡◌, [], ◌∷◌, None};
ghost use Rattle.blocking_world_laws.specs.Passed.{gave, was_put};
ghost use Rattle.blocking_world_laws.specs.Traces.{◌▸◌, Refuses, Keeps};
ghost use Rattle.blocking_world_laws.specs.OwnerTraces.{asks, polls, given, FirstOwnerEnds, FirstOwnerPasses};
ghost use Rattle.blocking_world_laws.specs.OwnerTraces.{one_made, room_found, reader_parked, two_told, reader_done, reader_back, end_read, failed_back, all_stopped_back};
ghost use Rattle.blocking_world_laws.specs.declared.event.Act.TheVariants.{Got, Replied, Answered, Put};
ghost use Rattle.blocking_world_laws.specs.declared.event.Reply.TheVariants.{Count};
ghost use Rattle.blocking_world_laws.specs.declared.event.HolderWaker.TheVariants.{Absent};
ghost use Rattle.blocking_world_laws.specs.declared.step.HandleAnswer.TheVariants.{Gave};
ghost use Rattle.blocking_world_laws.specs.declared.step.HandleCall.TheVariants.{Read};

/// A reader's end is told where the handle came back in that poll, from a session that gave all and met no failure.
pub fn ends()
    // .. / got end / back / replied ok 0
    ensures accepts_end { FirstOwnerEnds reader_back (polls (Replied (Count 0)) 2) }
    // made 0 / asked, with no room / replied ok 0
    ensures accepts_empty_buffer { FirstOwnerEnds (one_made ▸ asks (Read 0) 1) (polls (Replied (Count 0)) 1) }
    // .. / ended 1 parked / asked / replied ok 0
    ensures refuses_early_end { Refuses FirstOwnerEnds (reader_parked ▸ asks (Read 2) 2) (polls (Replied (Count 0)) 2) }
    // .. / ended 1 done / asked / replied ok 0: the handle isn't back
    ensures refuses_end_without_handle { Refuses FirstOwnerEnds (reader_done ▸ asks (Read 2) 2)
        (polls (Replied (Count 0)) 2) }
    // .. / closed / .. / asked / back / replied ok 0: all was read, but the reader wasn't at its end
    ensures refuses_end_of_stopped { Refuses FirstOwnerEnds all_stopped_back (polls (Replied (Count 0)) 2) }
    // .. / back / replied ok 0 / asked / replied ok 0: it came back in an earlier poll
    ensures refuses_second_end { Refuses FirstOwnerEnds (end_read ▸ asks (Read 2) 2) (polls (Replied (Count 0)) 2) }
    // .. / answered fault 8 / .. / back / replied ok 0
    ensures refuses_end_after_fault { Refuses FirstOwnerEnds failed_back (polls (Replied (Count 0)) 2) }
{}

/// What an owner got is a beginning of what its reader gave, which is no more than that and what the pipe holds.
pub fn passing()
    // .. / got 6162 wake 1 / .. / got 6364 / .. / got end / back / replied ok 0
    ensures accepts_session { FirstOwnerPasses end_read }
    // answered 01 / answered 02
    ensures joins_in_order { gave (Answered (Gave (2 ∷ [])) ∷ Answered (Gave (1 ∷ [])) ∷ []) ≡ 1 ∷ 2 ∷ [] }
    // answered 0102 / put 1
    ensures puts_the_front { was_put (Put 1 Absent ∷ Answered (Gave (1 ∷ 2 ∷ [])) ∷ []) ≡ 1 ∷ [] }
    // .. / ended 1 parked / asked / got 6261
    ensures refuses_swapped_bytes { Refuses (Keeps FirstOwnerPasses) (reader_parked ▸ asks (Read 2) 2)
        (polls (Got (98 ∷ 97 ∷ []) None) 2) }
    // .. / got 6162 wake 1 / .. / asked / got 6162
    ensures refuses_bytes_twice { Refuses (Keeps FirstOwnerPasses)
        (two_told ▸ polls (Replied (Count 2)) 2 ▸ asks (Read 2) 2) (polls (Got (97 ∷ 98 ∷ []) None) 2) }
    // .. / got 6162 wake 1 / .. / asked / got 636465: more than was given
    ensures refuses_invented_bytes { Refuses (Keeps FirstOwnerPasses)
        (two_told ▸ polls (Replied (Count 2)) 2 ▸ asks (Read 3) 2) (polls (Got (99 ∷ 100 ∷ 101 ∷ []) None) 2) }
    // .. / room 4 / answered 6162636465
    ensures refuses_more_than_the_pipe_holds { Refuses (Keeps FirstOwnerPasses) room_found
        (given 1 (Gave (97 ∷ 98 ∷ 99 ∷ 100 ∷ 101 ∷ []))) }
{}
