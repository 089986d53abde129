//! Tasks and the jobs of their calls.
ghost use Rattle.std.specs.Prelude.{◌≡◌, ℕ, List, [], Some, None, true, false};
ghost use Rattle.blocking_pool.specs.declared.pool.standing.Standing.TheVariants.{Parked, Done, Dropped};
ghost use Rattle.blocking_world_laws.specs.Seen.{is_some_worker};
ghost use Rattle.blocking_world_laws.specs.Turns.{is_giving_up};
ghost use Rattle.blocking_world_laws.specs.TaskLaws.{TaskLaw};
ghost use Rattle.blocking_world_laws.specs.Wakes.{NoLostWake};
ghost use Rattle.blocking_world_laws.specs.Steps.{IsPolled, is_answered};
ghost use Rattle.blocking_world_laws.specs.Legal.{Legal};
ghost use Rattle.blocking_world_laws.specs.Traces.{◌▸◌, moment, Refuses, Keeps, FirstTaskLaw, LawOfTask};
ghost use Rattle.blocking_world_laws.specs.Traces.{one_queued, one_taken, one_answered, one_finished, one_done, one_got};
ghost use Rattle.blocking_world_laws.specs.Traces.{awaited, awaited_finished, untold_finished, untold_given_up};
ghost use Rattle.blocking_world_laws.specs.Traces.{dropped_taken, cancelled_finished, cancelled_given_up};
ghost use Rattle.blocking_world_laws.specs.declared.event.Event.{Event};
ghost use Rattle.blocking_world_laws.specs.declared.event.Act.TheVariants.{Accepted, Waits, TaskGot, TaskGotNone, TaskCancelled, TaskDetached, HolderDropped, Ended, JobParked, Finished, GaveUp, HolderWoken};
ghost use Rattle.blocking_world_laws.specs.declared.event.Party.TheVariants.{Task, Worker, Pool};
ghost use Rattle.blocking_world_laws.specs.declared.event.HolderWaker.TheVariants.{Taken, Absent};
ghost use Rattle.blocking_world_laws.specs.declared.step.Step.TheVariants.{Spawn, OfTask, Job, End};
ghost use Rattle.blocking_world_laws.specs.declared.step.TaskCall.TheVariants.{Poll, Cancel, Detach, Drop};

/// The job of a call is answered, finishes, calls the waker that it took, and is over; or it gives up, where its task let it
/// go.
pub fn jobs_of_calls()
    // .. / finished wake owner / delivered owner / ended 1 done / got 5
    ensures accepts_awaited_call { Legal 1 [] (awaited_finished
        ▸ moment (Job 1) (Worker 1) (Some 1) HolderWoken 2
        ▸ moment (End 1) (Worker 1) (Some 1) (Ended 1 Done) 2
        ▸ moment (OfTask 0 Poll) (Task 0) None (TaskGot 5) 2) }
    // .. / gave up wake owner / delivered owner / ended 1 dropped / got none
    ensures accepts_cancelled_call { Legal 1 [] (cancelled_given_up
        ▸ moment (Job 1) (Worker 1) (Some 1) HolderWoken 2
        ▸ moment (End 1) (Worker 1) (Some 1) (Ended 1 Dropped) 2
        ▸ moment (OfTask 0 Poll) (Task 0) None TaskGotNone 2) }
    // accepted 1 +1 / arrived 1 / took 1 / finished
    ensures refuses_finish_before_answer { Refuses FirstTaskLaw one_taken
        (moment (Job 1) (Worker 1) (Some 1) (Finished Absent) 2) }
    // .. / answered 5 / finished / finished
    ensures refuses_finish_twice { Refuses FirstTaskLaw one_finished
        (moment (Job 1) (Worker 1) (Some 1) (Finished Absent) 2) }
    // .. / answered 5 / finished / delivered owner: no waker was taken
    ensures refuses_call_of_no_waker { Refuses FirstTaskLaw one_finished
        (moment (Job 1) (Worker 1) (Some 1) HolderWoken 2) }
    // accepted 1 +1 / arrived 1 / took 1 / parked: a call never waits
    ensures refuses_parking_of_call { Refuses FirstTaskLaw one_taken
        (moment (Job 1) (Worker 1) (Some 1) JobParked 2) }
    // .. / answered 5 / cancelled / finished / gave up: it is over
    ensures refuses_giving_up_of_finished { Refuses FirstTaskLaw cancelled_finished
        (moment (Job 1) (Worker 1) (Some 1) (GaveUp Absent) 2) }
    // .. / took 1 / answered 5 / gave up: nobody let it go
    ensures refuses_giving_up_unasked { Refuses FirstTaskLaw one_answered
        (moment (Job 1) (Worker 1) (Some 1) (GaveUp Absent) 2) }
{}

/// A task is called until it is gone; after a cancel it is only polled and dropped.
pub fn calls_of_tasks()
    // .. / took 1 / answered 5 / detached / finished / ended 1 done
    ensures accepts_detached_call { Legal 1 [] (one_answered
        ▸ moment (OfTask 0 Detach) (Task 0) None TaskDetached 2
        ▸ moment (Job 1) (Worker 1) (Some 1) (Finished Absent) 2
        ▸ moment (End 1) (Worker 1) (Some 1) (Ended 1 Done) 2) }
    // .. / answered 5 / cancelled / finished / dropped
    ensures accepts_drop_after_cancel { Legal 1 [] (cancelled_finished
        ▸ moment (OfTask 0 Drop) (Task 0) None HolderDropped 2) }
    // .. / got 5 / got 5
    ensures refuses_answer_twice { Refuses FirstTaskLaw one_got
        (moment (OfTask 0 Poll) (Task 0) None (TaskGot 5) 2) }
    // .. / got 5 / dropped
    ensures refuses_drop_of_gone_task { Refuses FirstTaskLaw one_got
        (moment (OfTask 0 Drop) (Task 0) None HolderDropped 2) }
    // .. / answered 5 / cancelled / finished / detached
    ensures refuses_detaching_after_cancel { Refuses FirstTaskLaw cancelled_finished
        (moment (OfTask 0 Detach) (Task 0) None TaskDetached 2) }
    // .. / cancelled / .. / cancelled
    ensures refuses_cancel_twice { Refuses FirstTaskLaw cancelled_given_up
        (moment (OfTask 0 Cancel) (Task 0) None TaskCancelled 2) }
{}

/// A poll finds the answer of its own call, where that finished before any cancel.
pub fn polls_with_answer()
    // .. / answered 5 / finished / ended 1 done / got 5
    ensures accepts_answer { Legal 1 [] one_got }
    // .. / answered 5 / finished / got 5: it need not be ended
    ensures accepts_answer_at_once { Legal 1 [] (one_finished
        ▸ moment (OfTask 0 Poll) (Task 0) None (TaskGot 5) 2) }
    // .. / finished / ended 1 done / cancelled / got 5: it was there before the cancel
    ensures accepts_answer_before_cancel { Legal 1 [] (one_done
        ▸ moment (OfTask 0 Cancel) (Task 0) None TaskCancelled 2
        ▸ moment (OfTask 0 Poll) (Task 0) None (TaskGot 5) 2) }
    // .. / answered 5 / finished / got 6
    ensures refuses_other_answer { Refuses FirstTaskLaw one_finished
        (moment (OfTask 0 Poll) (Task 0) None (TaskGot 6) 2) }
    // .. / answered 5 / finished / accepted 2 / got 5, by the task of job 2
    ensures refuses_answer_of_other_task { Refuses (LawOfTask 1 2) (one_finished
        ▸ moment (Spawn 0) Pool None (Accepted 2) 2)
        (moment (OfTask 1 Poll) (Task 1) None (TaskGot 5) 2) }
    // .. / answered 5 / got 5: it isn't put yet
    ensures refuses_early_answer { Refuses FirstTaskLaw one_answered
        (moment (OfTask 0 Poll) (Task 0) None (TaskGot 5) 2) }
{}

/// Where there is no answer to find, a poll finds that none will come, once the call is over, and until then it waits.
pub fn polls_without_answer()
    // .. / answered 5 / cancelled / finished / got none
    ensures accepts_none_after_cancel { Legal 1 [] (cancelled_finished
        ▸ moment (OfTask 0 Poll) (Task 0) None TaskGotNone 2) }
    // .. / answered 5 / waits: the call hasn't finished
    ensures accepts_wait { Legal 1 [] (one_answered
        ▸ moment (OfTask 0 Poll) (Task 0) None Waits 2) }
    // .. / finished / accepted 2 / waits, by the task of job 2
    ensures accepts_wait_of_other_task { Legal 1 [] (one_finished
        ▸ moment (Spawn 0) Pool None (Accepted 2) 2
        ▸ moment (OfTask 1 Poll) (Task 1) None Waits 2) }
    // .. / answered 5 / finished / got none
    ensures refuses_lost_answer { Refuses FirstTaskLaw one_finished
        (moment (OfTask 0 Poll) (Task 0) None TaskGotNone 2) }
    // accepted 1 +1 / got none
    ensures refuses_early_none { Refuses FirstTaskLaw one_queued
        (moment (OfTask 0 Poll) (Task 0) None TaskGotNone 2) }
    // .. / answered 5 / finished / waits
    ensures refuses_wait_beside_answer { Refuses FirstTaskLaw one_finished
        (moment (OfTask 0 Poll) (Task 0) None Waits 2) }
    // .. / cancelled / .. / gave up wake owner / waits
    ensures refuses_wait_for_nothing { Refuses FirstTaskLaw cancelled_given_up
        (moment (OfTask 0 Poll) (Task 0) None Waits 2) }
{}

/// The laws of a task leave no choice: a poll has one answer, and an action of the job's own is one act.
pub fn one_act()
    ensures poll { (s : ℕ) (cut : List Event) (now other : Event) →
        is_some_worker now.party ≡ false → is_some_worker other.party ≡ false →
        IsPolled now.act → IsPolled other.act →
        TaskLaw s cut now → TaskLaw s cut other → now.act ≡ other.act }
    // where a job has to give up its turn says
    ensures action { (s : ℕ) (cut : List Event) (now other : Event) →
        is_some_worker now.party ≡ true → is_some_worker other.party ≡ true →
        is_giving_up now.act ≡ is_giving_up other.act → is_answered now.act ≡ false →
        TaskLaw s cut now → TaskLaw s cut other → now.act ≡ other.act }
{}

/// A wake is borne exactly where a waker is seated: a poll that waits seats it, and the act that answers takes it out.
pub fn seats()
    // accepted 1 +1 / waits / arrived 1 / took 1 / answered 5 / finished wake owner
    ensures accepts_wake { Legal 1 [] awaited_finished }
    // accepted 1 +1 / arrived 1 / took 1 / answered 5 / finished
    ensures accepts_no_wake { Legal 1 [] one_finished }
    // .. / waits / .. / detached / finished wake owner: detaching leaves the waker where it is
    ensures accepts_wake_of_detached { Legal 1 [] (awaited
        ▸ moment (OfTask 0 Detach) (Task 0) None TaskDetached 2
        ▸ moment (Job 1) (Worker 1) (Some 1) (Finished Taken) 2) }
    // accepted 1 +1 / waits / arrived 1 / took 1 / answered 5 / finished
    ensures refuses_wake_not_borne { Refuses FirstTaskLaw awaited
        (moment (Job 1) (Worker 1) (Some 1) (Finished Absent) 2) }
    // accepted 1 +1 / arrived 1 / took 1 / answered 5 / finished wake owner
    ensures refuses_wake_from_nobody { Refuses FirstTaskLaw one_answered
        (moment (Job 1) (Worker 1) (Some 1) (Finished Taken) 2) }
    // accepted 1 +1 / dropped / arrived 1 / took 1 dropped / gave up wake owner
    ensures refuses_last_wake_from_nobody { Refuses FirstTaskLaw dropped_taken
        (moment (Job 1) (Worker 1) (Some 1) (GaveUp Taken) 2) }
    // .. / finished wake owner / finished: the waker that was taken is called first
    ensures refuses_wake_not_called { Refuses FirstTaskLaw awaited_finished
        (moment (Job 1) (Worker 1) (Some 1) (Finished Absent) 2) }
    // .. / finished wake owner / delivered owner / delivered owner
    ensures refuses_wake_called_twice { Refuses FirstTaskLaw (awaited_finished
        ▸ moment (Job 1) (Worker 1) (Some 1) HolderWoken 2)
        (moment (Job 1) (Worker 1) (Some 1) HolderWoken 2) }
{}

/// No task waits for a job that is parked or over, with no wake of it under way.
pub fn wakes()
    // .. / finished wake owner / delivered owner / ended 1 done, and the task still waits
    ensures accepts_wake { NoLostWake (awaited_finished
        ▸ moment (Job 1) (Worker 1) (Some 1) HolderWoken 2
        ▸ moment (End 1) (Worker 1) (Some 1) (Ended 1 Done) 2) }
    // accepted 1 +1 / waits / arrived 1 / took 1 / answered 5: the job still runs
    ensures accepts_wait_for_running { NoLostWake awaited }
    // .. / waits / .. / answered 5 / finished: the job still runs
    ensures accepts_wait_until_end { NoLostWake untold_finished }
    // .. / waits / .. / answered 5 / finished / ended 1 done
    ensures refuses_wait_for_done { Refuses (Keeps NoLostWake) untold_finished
        (moment (End 1) (Worker 1) (Some 1) (Ended 1 Done) 2) }
    // .. / finished wake owner / waits / ended 1 done: the wake came before the wait
    ensures refuses_earlier_wake { Refuses (Keeps NoLostWake) (awaited_finished
        ▸ moment (OfTask 0 Poll) (Task 0) None Waits 2)
        (moment (End 1) (Worker 1) (Some 1) (Ended 1 Done) 2) }
    // .. / waits / .. / answered 5 / parked / ended 1 parked
    ensures refuses_wait_for_parked { Refuses (Keeps NoLostWake) (awaited
        ▸ moment (Job 1) (Worker 1) (Some 1) JobParked 2)
        (moment (End 1) (Worker 1) (Some 1) (Ended 1 Parked) 2) }
{}
