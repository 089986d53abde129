//! Turns: which worker has which job in hand, and what the job may do there.
ghost use Rattle.std.specs.Prelude.{◌≡◌, [], Some, None, false, true};
ghost use Rattle.blocking_pool.specs.declared.pool.standing.Standing.TheVariants.{Done};
ghost use Rattle.blocking_pool.specs.declared.pool.answer.Woke.TheVariants.{Entered};
ghost use Rattle.blocking_world_laws.specs.Staffed.{IsStaffed, IsStaffedAsSeen, passes, turns, unarrived};
ghost use Rattle.blocking_world_laws.specs.Turns.{TurnLaw};
ghost use Rattle.blocking_world_laws.specs.Legal.{Legal};
ghost use Rattle.blocking_world_laws.specs.Traces.{◌▸◌, moment, starting, Refuses, Keeps, IsPooled};
ghost use Rattle.blocking_world_laws.specs.Traces.{one_queued, one_arrived, one_taken, one_finished, one_done, two_workers, front_dropped, second_dropped, start_refused};
ghost use Rattle.blocking_world_laws.specs.Traces.{dropped_taken, dropped_given_up, one_waits, one_parked, dropped_waits};
ghost use Rattle.blocking_world_laws.specs.declared.event.Act.TheVariants.{Accepted, JobWoken, Arrived, Took, TookDropped, Stopped, Ended, HandedOut, Answered, JobParked, Finished, GaveUp};
ghost use Rattle.blocking_world_laws.specs.declared.event.Party.TheVariants.{Worker, Pool};
ghost use Rattle.blocking_world_laws.specs.declared.event.HolderWaker.TheVariants.{Absent};
ghost use Rattle.blocking_world_laws.specs.declared.event.WaitEnd.TheVariants.{TimedOut};
ghost use Rattle.blocking_world_laws.specs.declared.step.HandleAnswer.TheVariants.{Number};
ghost use Rattle.blocking_world_laws.specs.declared.step.Step.TheVariants.{Spawn, Arrive, Take, Job, Io, End, Late, Stray};

/// One worker at a time runs a job, and a worker one job.
pub fn hands()
    // .. / accepted 2 / took 1 +2 / arrived 2 / took 2: two workers, each with its job
    ensures accepts_one_each { Legal 2 [] (two_workers
        ▸ moment (Take 2) (Worker 2) (Some 2) (Took 2) 3) }
    // .. / took 1 +2 / arrived 2 / took 1: a second worker runs the job
    ensures refuses_second_worker { Refuses TurnLaw two_workers
        (moment (Take 2) (Worker 2) (Some 1) (Took 1) 3) }
    // .. / took 1 +2 / arrived 2 / took 2 by worker 1, which has job 1
    ensures refuses_second_job { Refuses TurnLaw two_workers
        (moment (Take 1) (Worker 1) (Some 2) (Took 2) 3) }
    // .. / took 1 +2 / arrived 2 / took 1 dropped: no second worker takes it to drop it
    ensures refuses_second_worker_to_drop { Refuses TurnLaw two_workers
        (moment (Take 2) (Worker 2) (Some 1) (TookDropped 1) 3) }
    // .. / took 1 +2 / arrived 2 / took 2 dropped by worker 1, which has job 1
    ensures refuses_second_job_to_drop { Refuses TurnLaw two_workers
        (moment (Take 1) (Worker 1) (Some 2) (TookDropped 2) 3) }
    // .. / took 1 / dropped / parked / drop 1 by worker 2
    ensures refuses_handing_out_by_other { Refuses TurnLaw dropped_waits
        (moment (End 2) (Worker 2) (Some 1) (HandedOut 1) 2) }
    // .. / took 1 / answered 5 / finished / ended 1 done by worker 2
    ensures refuses_end_by_other { Refuses TurnLaw one_finished
        (moment (End 2) (Worker 2) (Some 1) (Ended 1 Done) 2) }
    // accepted 1 +1 / ended 1 done by worker 1, which has no job
    ensures refuses_end_of_nothing { Refuses TurnLaw one_queued
        (moment (End 1) (Worker 1) (Some 1) (Ended 1 Done) 2) }
{}

/// A job acts only in the hand of its worker, and not while it waits; it gives up exactly where it has to, and then does
/// no more.
pub fn turns()
    // accepted 1 +1 / arrived 1 / took 1 / answered 5
    ensures accepts_answer { Legal 1 [] (one_taken
        ▸ moment (Io 1 (Number 5)) (Worker 1) (Some 1) (Answered (Number 5)) 2) }
    // accepted 1 +1 / dropped / arrived 1 / took 1 dropped / gave up
    ensures accepts_giving_up { Legal 1 [] dropped_given_up }
    // .. / took 1 / dropped / parked / drop 1 / gave up
    ensures accepts_giving_up_handed_out { IsPooled 1 [] (dropped_waits
        ▸ moment (End 1) (Worker 1) (Some 1) (HandedOut 1) 2
        ▸ moment (Job 1) (Worker 1) (Some 1) (GaveUp Absent) 2) }
    // .. / ended 1 parked / delivered 1 entered / took 1 / finished: the next run goes on
    ensures accepts_next_run { IsPooled 1 [] (one_parked
        ▸ moment (Stray 1) Pool None (JobWoken 1 Entered) 2
        ▸ moment (Take 1) (Worker 1) (Some 1) (Took 1) 2
        ▸ moment (Job 1) (Worker 1) (Some 1) (Finished Absent) 2) }
    // accepted 1 +1 / answered 5: nobody took the job
    ensures refuses_act_of_queued { Refuses TurnLaw one_queued
        (moment (Io 1 (Number 5)) (Worker 1) (Some 1) (Answered (Number 5)) 2) }
    // .. / took 1 / answered 5 by worker 2
    ensures refuses_act_by_other { Refuses TurnLaw one_taken
        (moment (Io 2 (Number 5)) (Worker 2) (Some 1) (Answered (Number 5)) 2) }
    // .. / took 1 / gave up
    ensures refuses_giving_up_unasked { Refuses TurnLaw one_taken
        (moment (Job 1) (Worker 1) (Some 1) (GaveUp Absent) 2) }
    // .. / took 1 dropped / answered 5
    ensures refuses_run_of_dropped { Refuses TurnLaw dropped_taken
        (moment (Io 1 (Number 5)) (Worker 1) (Some 1) (Answered (Number 5)) 2) }
    // .. / took 1 dropped / gave up / gave up
    ensures refuses_giving_up_twice { Refuses TurnLaw dropped_given_up
        (moment (Job 1) (Worker 1) (Some 1) (GaveUp Absent) 2) }
{}

/// What one job does, and what is done with it, leaves the turn of another as it is.
pub fn apart()
    // .. / took 1 +2 / arrived 2 / took 2 / parked (job 1) / answered 5 (job 2)
    ensures accepts_act_beside_parking { IsPooled 2 [] (two_workers
        ▸ moment (Take 2) (Worker 2) (Some 2) (Took 2) 3
        ▸ moment (Job 1) (Worker 1) (Some 1) JobParked 3
        ▸ moment (Io 2 (Number 5)) (Worker 2) (Some 2) (Answered (Number 5)) 3) }
    // .. / dropped (of job 1) / took 1 dropped +2 / arrived 2 / took 2 / gave up (job 1) / answered 5 (job 2)
    ensures accepts_act_beside_giving_up { Legal 2 [] (front_dropped
        ▸ starting 1 (moment (Take 1) (Worker 1) (Some 1) (TookDropped 1) 2)
        ▸ moment Arrive (Worker 2) None (Arrived 2) 3
        ▸ moment (Take 2) (Worker 2) (Some 2) (Took 2) 3
        ▸ moment (Job 1) (Worker 1) (Some 1) (GaveUp Absent) 3
        ▸ moment (Io 2 (Number 5)) (Worker 2) (Some 2) (Answered (Number 5)) 3) }
    // .. / dropped (of job 2) / took 1 +2 / arrived 2 / took 2 dropped / answered 5 (job 1)
    ensures accepts_act_beside_drop { Legal 2 [] (second_dropped
        ▸ starting 1 (moment (Take 1) (Worker 1) (Some 1) (Took 1) 2)
        ▸ moment Arrive (Worker 2) None (Arrived 2) 3
        ▸ moment (Take 2) (Worker 2) (Some 2) (TookDropped 2) 3
        ▸ moment (Io 1 (Number 5)) (Worker 1) (Some 1) (Answered (Number 5)) 3) }
    // .. / took 1 +2 / arrived 2 / parked (job 1) / took 2 / answered 5 (job 1)
    ensures refuses_act_while_waiting_beside_take { Refuses TurnLaw (two_workers
        ▸ moment (Job 1) (Worker 1) (Some 1) JobParked 3
        ▸ moment (Take 2) (Worker 2) (Some 2) (Took 2) 3)
        (moment (Io 1 (Number 5)) (Worker 1) (Some 1) (Answered (Number 5)) 3) }
    // .. / dropped (of job 1) / took 1 dropped +2 / arrived 2 / took 2 / answered 5 (job 1)
    ensures refuses_run_of_dropped_beside_take { Refuses TurnLaw (front_dropped
        ▸ starting 1 (moment (Take 1) (Worker 1) (Some 1) (TookDropped 1) 2)
        ▸ moment Arrive (Worker 2) None (Arrived 2) 3
        ▸ moment (Take 2) (Worker 2) (Some 2) (Took 2) 3)
        (moment (Io 1 (Number 5)) (Worker 1) (Some 1) (Answered (Number 5)) 3) }
{}

/// What the workers hold accounts for them. Each that is there holds a pass or a turn, nobody else holds one, and there is one
/// turn for each running job.
pub fn staffing()
    // nobody was started: no pass, no turn
    ensures accepts_nobody { IsStaffed 0 0 [] }
    // refused worker -1
    ensures accepts_refused_start { IsStaffed 0 0 start_refused }
    // accepted 1 +1: the worker hasn't arrived
    ensures accepts_unarrived { IsStaffed 0 0 one_queued }
    // accepted 1 +1 / arrived 1: a pass
    ensures accepts_pass { IsStaffed 1 0 one_arrived }
    // accepted 1 +1 / arrived 1 / took 1: a turn
    ensures accepts_turn { IsStaffed 0 1 one_taken }
    // .. / finished / ended 1 done: a pass again
    ensures accepts_pass_again { IsStaffed 1 0 one_done }
    // .. / ended 1 done / stopped 1: nothing
    ensures accepts_stop { IsStaffed 0 0 (one_done
        ▸ moment (Late 1) (Worker 1) None (Stopped 1 TimedOut) 2) }
    // .. / ended 1 done / stopped 1 / accepted 2 +2: the next worker hasn't arrived
    ensures accepts_unarrived_after_stop { IsStaffed 0 0 (one_done
        ▸ moment (Late 1) (Worker 1) None (Stopped 1 TimedOut) 2
        ▸ starting 1 (moment (Spawn 0) Pool None (Accepted 2) 2)) }
    // accepted 1 +1 / arrived 1 / accepted 2 / took 1 +2 / arrived 2: a turn and a pass
    ensures accepts_both { IsStaffed 1 1 two_workers }
    // the same, where the other worker hasn't arrived or holds no pass; and the other way round
    ensures refuses_no_pass { IsStaffed 0 1 two_workers → ⊥ }
    ensures refuses_no_turn { IsStaffed 1 0 two_workers → ⊥ }
    ensures refuses_two_passes { IsStaffed 2 0 two_workers → ⊥ }
    ensures refuses_two_turns { IsStaffed 0 2 two_workers → ⊥ }
    // accepted 1 +1, with a pass: the worker hasn't arrived
    ensures refuses_pass_before_arrival { Refuses (Keeps (IsStaffed 1 0)) []
        (starting 1 (moment (Spawn 0) Pool None (Accepted 1) 1)) }
    // accepted 1 +1 / arrived 1, with no pass
    ensures refuses_arrival_without_pass { Refuses (Keeps (IsStaffed 0 0)) one_queued
        (moment Arrive (Worker 1) None (Arrived 1) 2) }
    // .. / arrived 1 / took 1, with a pass still, with both, and with nothing
    ensures refuses_pass_after_take { Refuses (Keeps (IsStaffed 1 0)) one_arrived
        (moment (Take 1) (Worker 1) (Some 1) (Took 1) 2) }
    ensures refuses_pass_and_turn { Refuses (Keeps (IsStaffed 1 1)) one_arrived
        (moment (Take 1) (Worker 1) (Some 1) (Took 1) 2) }
    ensures refuses_take_without_turn { Refuses (Keeps (IsStaffed 0 0)) one_arrived
        (moment (Take 1) (Worker 1) (Some 1) (Took 1) 2) }
    // .. / finished / ended 1 done, with the turn still, and with nothing
    ensures refuses_turn_after_end { Refuses (Keeps (IsStaffed 0 1)) one_finished
        (moment (End 1) (Worker 1) (Some 1) (Ended 1 Done) 2) }
    ensures refuses_end_without_pass { Refuses (Keeps (IsStaffed 0 0)) one_finished
        (moment (End 1) (Worker 1) (Some 1) (Ended 1 Done) 2) }
    // .. / ended 1 done / stopped 1, with the pass still
    ensures refuses_pass_after_stop { Refuses (Keeps (IsStaffed 1 0)) one_done
        (moment (Late 1) (Worker 1) None (Stopped 1 TimedOut) 2) }
{}

/// What the workers were seen to hold accounts for them.
pub fn staffing_as_seen()
    // accepted 1 +1 / arrived 1 / accepted 2 / took 1 +2 / arrived 2
    ensures accepts_both { IsStaffedAsSeen two_workers }
    // accepted 1 +1 / arrived 2: worker 1 isn't there, and isn't to come
    ensures refuses_arrival_out_of_turn { Refuses (Keeps IsStaffedAsSeen) one_queued
        (moment Arrive (Worker 2) None (Arrived 2) 2) }
    // accepted 1 +1 / arrived 1 / took 1, by worker 2: nobody who arrived has the job that runs
    ensures refuses_take_of_unarrived { Refuses (Keeps IsStaffedAsSeen) one_arrived
        (moment (Take 2) (Worker 2) (Some 1) (Took 1) 2) }
    // .. / took 1 / answered 5 / finished / ended 1 done, by worker 2: worker 1 has a job in hand that is over
    ensures refuses_end_by_other { Refuses (Keeps IsStaffedAsSeen) one_finished
        (moment (End 2) (Worker 2) (Some 1) (Ended 1 Done) 2) }
    // .. / ended 1 done / stopped 2: worker 1 is there, and isn't counted
    ensures refuses_stop_of_unarrived { Refuses (Keeps IsStaffedAsSeen) one_done
        (moment (Late 2) (Worker 2) None (Stopped 2 TimedOut) 2) }
{}

/// Which passes and turns are seen to be held.
pub fn holdings()
    // accepted 1 +1
    ensures none_before_arrival { passes one_queued ≡ 0 }
    ensures unarrived { unarrived one_queued ≡ 1 }
    // accepted 1 +1 / arrived 1
    ensures pass { passes one_arrived ≡ 1 }
    ensures no_turn { turns one_arrived ≡ 0 }
    ensures arrived { unarrived one_arrived ≡ 0 }
    // accepted 1 +1 / arrived 1 / took 1
    ensures no_pass { passes one_taken ≡ 0 }
    ensures turn { turns one_taken ≡ 1 }
    // accepted 1 +1 / arrived 1 / accepted 2 / took 1 +2 / arrived 2
    ensures pass_beside_turn { passes two_workers ≡ 1 }
    ensures turn_beside_pass { turns two_workers ≡ 1 }
    // .. / ended 1 done / stopped 1
    ensures none_after_stop { passes (one_done
        ▸ moment (Late 1) (Worker 1) None (Stopped 1 TimedOut) 2) ≡ 0 }
{}
