//! No wake is lost between an owner and its job.
ghost use Rattle.std.specs.Prelude.{None};
ghost use Rattle.blocking_pool.specs.declared.pool.standing.Standing.TheVariants.{Parked, Done};
ghost use Rattle.blocking_world_laws.specs.OwnerWakes.{NoLostOwnerWake};
ghost use Rattle.blocking_world_laws.specs.Traces.{◌▸◌, Refuses, Keeps};
ghost use Rattle.blocking_world_laws.specs.OwnerTraces.{polls, takes, works, ends, FirstOwnerIsNotLost, FirstOwnersJobParksRightly};
ghost use Rattle.blocking_world_laws.specs.OwnerTraces.{reader_parked, two_told, handle_asked, stop_begun, untold_parked, untold_finished, untold_job};
ghost use Rattle.blocking_world_laws.specs.declared.event.Act.TheVariants.{OwnerClosed, Replied, Waits, Took, JobParked, Ended};
ghost use Rattle.blocking_world_laws.specs.declared.event.Reply.TheVariants.{Count};

/// An owner that waits for a job at rest was woken, or a wake of that job is under way. A job that is parked has reason to wait, or a
/// wake of it is under way.
pub fn wakes()
    // .. / put 4 wake owner / delivered owner / parked / ended 1 parked: the owner was told
    ensures accepts_told_owner { FirstOwnerIsNotLost reader_parked }
    // .. / closed wake 1 / waits: the parked job is about to be told
    ensures accepts_note_under_way { FirstOwnerIsNotLost (stop_begun ▸ polls Waits 2) }
    // .. / waits / .. / put 4 / parked / ended 1 parked
    ensures refuses_untold_by_put { Refuses (Keeps NoLostOwnerWake) untold_parked (ends 1 (Ended 1 Parked)) }
    // .. / waits / .. / answered fault 8 / closed / finished / ended 1 done
    ensures refuses_untold_by_finish { Refuses (Keeps NoLostOwnerWake) untold_finished (ends 1 (Ended 1 Done)) }
    // .. / ended 1 parked / asked / got 61626364 / replied ok 4 / asked / waits: the parked job wasn't told that there is room
    ensures refuses_untold_job { Refuses (Keeps NoLostOwnerWake) untold_job (polls Waits 2) }
    // .. / put 4 wake owner / delivered owner / parked / ended 1 parked: the pipe is full
    ensures accepts_full_pipe { FirstOwnersJobParksRightly reader_parked }
    // .. / asked / closed wake 1: the end is closed, but the parked job is about to be told
    ensures accepts_end_that_is_told { FirstOwnersJobParksRightly stop_begun }
    // .. / asked / closed: it isn't told
    ensures refuses_parked_at_a_closed_end { Refuses (Keeps NoLostOwnerWake) handle_asked (polls (OwnerClosed None) 2) }
    // .. / got 6162 wake 1 / delivered 1 entered / replied ok 2 / took 1 / parked / ended 1 parked: there is room for two
    ensures refuses_parked_beside_room { Refuses (Keeps NoLostOwnerWake)
        (two_told ▸ polls (Replied (Count 2)) 2 ▸ takes 1 (Took 1) ▸ works 1 JobParked) (ends 1 (Ended 1 Parked)) }
{}
