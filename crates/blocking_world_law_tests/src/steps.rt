//! Steps and their events.
ghost use Rattle.std.specs.Prelude.{[], ◌∷◌, Some, None, true, false};
ghost use Rattle.blocking_pool.specs.declared.pool.answer.Woke.TheVariants.{Marked, Nothing};
ghost use Rattle.blocking_world_laws.specs.Steps.{StepLaw};
ghost use Rattle.blocking_world_laws.specs.Legal.{Legal};
ghost use Rattle.blocking_world_laws.specs.Traces.{◌▸◌, moment, starting, of_owner, Refuses};
ghost use Rattle.blocking_world_laws.specs.Traces.{one_queued, one_arrived, one_taken, one_answered, one_finished, one_done};
ghost use Rattle.blocking_world_laws.specs.Traces.{one_got, awaited, detached, dropped, cancelled_finished, cancelled_given_up};
ghost use Rattle.blocking_world_laws.specs.Traces.{second_dropped, start_refused, late_queued};
ghost use Rattle.blocking_world_laws.specs.declared.event.Act.TheVariants.{Accepted, JobWoken, JobCancelled, LimitSet, ClientLimitSet, Swept, Waits, TaskGotNone, TaskCancelled, TaskDetached, HolderDropped, Arrived, Took, TookNone, Stays, Stopped, Answered, Finished, NoAction};
ghost use Rattle.blocking_world_laws.specs.declared.event.Party.TheVariants.{Task, Worker, Pool};
ghost use Rattle.blocking_world_laws.specs.declared.event.HolderWaker.TheVariants.{Absent};
ghost use Rattle.blocking_world_laws.specs.declared.event.WaitEnd.TheVariants.{Woken, TimedOut};
ghost use Rattle.blocking_world_laws.specs.declared.step.HandleAnswer.TheVariants.{Number};
ghost use Rattle.blocking_world_laws.specs.declared.step.Step.TheVariants.{Spawn, OfTask, Arrive, Take, Job, Io, End, Wait, Late, SetLimit, Sweep, Stray, Strike, SetClientLimit};
ghost use Rattle.blocking_world_laws.specs.declared.step.TaskCall.TheVariants.{Poll, Cancel, Detach, Drop};

/// In three cases alone nothing is done at the pool. Nobody is left to arrive; or a job was never accepted or may not be cancelled;
/// or the limit, of workers or of each client's jobs, would be 0. A new job, a sweep and taking the client limit away always have an
/// action.
pub fn nothing_at_the_pool()
    // nothing (nothing was started)
    ensures accepts_no_start { Legal 1 [] ([] ▸ moment Arrive Pool None NoAction 1) }
    // nothing (no job was accepted)
    ensures accepts_no_job { Legal 1 [] ([] ▸ moment (Stray 1) Pool None NoAction 1) }
    // nothing (a limit is above 0)
    ensures accepts_no_limit { Legal 1 [] ([] ▸ moment (SetLimit 0) Pool None NoAction 1) }
    // nothing (a client limit is above 0)
    ensures accepts_no_client_limit { Legal 1 [] ([] ▸ moment (SetClientLimit (Some 0)) Pool None NoAction 1) }
    // accepted 1 +1 / arrived 1 / nothing (nobody let the job go)
    ensures accepts_no_cancel { Legal 1 [] (one_arrived ▸ moment (Strike 1) Pool None NoAction 2) }
    // where there is an action
    ensures refuses_no_new_job { Refuses StepLaw [] (moment (Spawn 0) Pool None NoAction 1) }
    ensures refuses_no_sweep { Refuses StepLaw [] (moment Sweep Pool None NoAction 1) }
    ensures refuses_no_limit { Refuses StepLaw [] (moment (SetLimit 1) Pool None NoAction 1) }
    ensures refuses_no_client_limit { Refuses StepLaw [] (moment (SetClientLimit (Some 1)) Pool None NoAction 1) }
    ensures refuses_limit_left { Refuses StepLaw [] (moment (SetClientLimit None) Pool None NoAction 1) }
    ensures refuses_no_arrival { Refuses StepLaw one_queued (moment Arrive Pool None NoAction 2) }
    ensures refuses_no_wake { Refuses StepLaw one_arrived
        (moment (Stray 1) Pool None NoAction 2) }
    ensures refuses_no_cancel { Refuses StepLaw dropped (moment (Strike 1) Pool None NoAction 2) }
    // where there is none
    ensures refuses_arrival_of_nobody { Refuses StepLaw []
        (moment Arrive (Worker 1) None (Arrived 1) 1) }
    ensures refuses_limit_of_zero { Refuses StepLaw []
        (moment (SetLimit 0) Pool None (LimitSet 0) 1) }
    ensures refuses_client_limit_of_zero { Refuses StepLaw []
        (moment (SetClientLimit (Some 0)) Pool None (ClientLimitSet (Some 0)) 1) }
    ensures refuses_wake_of_no_job { Refuses StepLaw []
        (moment (Stray 1) Pool None (JobWoken 1 Nothing) 1) }
    ensures refuses_cancel_of_held_job { Refuses StepLaw one_arrived
        (moment (Strike 1) Pool None (JobCancelled 1 Marked) 2) }
{}

/// A job is cancelled in the pool exactly where its own task was cancelled or dropped, and so never where it was never accepted.
pub fn strikes()
    // nothing (no job was accepted)
    ensures accepts_no_job { Legal 1 [] ([] ▸ moment (Strike 1) Pool None NoAction 1) }
    // accepted 1 +1 / waits / .. / answered 5 / nothing (its task waits for it)
    ensures accepts_awaited { Legal 1 [] (awaited ▸ moment (Strike 1) Pool None NoAction 2) }
    // accepted 1 +1 / detached / nothing (its task let it run on)
    ensures accepts_detached { Legal 1 [] (detached ▸ moment (Strike 1) Pool None NoAction 2) }
    // .. / got 5 / nothing (its task was answered)
    ensures accepts_answered { Legal 1 [] (one_got ▸ moment (Strike 1) Pool None NoAction 2) }
    // accepted 1 +1 / arrived 1 / accepted 2 / dropped (of job 2) / nothing / cancelled 2 marked
    ensures accepts_own_task { Legal 1 [] (second_dropped
        ▸ moment (Strike 1) Pool None NoAction 2
        ▸ moment (Strike 2) Pool None (JobCancelled 2 Marked) 2) }
    // cancelled 1 nothing, where no job was accepted
    ensures refuses_no_job { Refuses StepLaw []
        (moment (Strike 1) Pool None (JobCancelled 1 Nothing) 1) }
    // accepted 1 +1 / detached / cancelled 1 marked
    ensures refuses_detached { Refuses StepLaw detached
        (moment (Strike 1) Pool None (JobCancelled 1 Marked) 2) }
    // .. / got 5 / cancelled 1 nothing
    ensures refuses_answered { Refuses StepLaw one_got
        (moment (Strike 1) Pool None (JobCancelled 1 Nothing) 2) }
    // .. / accepted 2 / dropped (of job 2) / cancelled 1 marked
    ensures refuses_other_task { Refuses StepLaw second_dropped
        (moment (Strike 1) Pool None (JobCancelled 1 Marked) 2) }
{}

/// Tasks are numbered by the new jobs that were accepted: what else the pool did doesn't count, nor what anybody else did.
pub fn numbers_of_tasks()
    // limit 2 / refused memory / swept 0 / accepted 1 +1 / waits
    ensures accepts_first_task { Legal 1 [] (late_queued
        ▸ moment (OfTask 0 Poll) (Task 0) None Waits 2) }
    // limit 2 / refused memory / swept 0 / accepted 1 +1 / nothing: there is one task
    ensures accepts_no_second_task { Legal 1 [] (late_queued
        ▸ moment (OfTask 1 Poll) (Task 1) None NoAction 2) }
    // refused worker -1 / accepted 1 +2 / waits: a refused job brings no task
    ensures accepts_task_after_refused_job { Legal 1 (true ∷ []) (start_refused
        ▸ starting 1 (moment (Spawn 0) Pool None (Accepted 1) 2)
        ▸ moment (OfTask 0 Poll) (Task 0) None Waits 3) }
    // limit 2 / refused memory / swept 0 / accepted 1 +1 / nothing, of task 0
    ensures refuses_task_left_out { Refuses StepLaw late_queued
        (moment (OfTask 0 Poll) (Task 0) None NoAction 2) }
    // .. / took 1 / accepted 2, by worker 1 / waits, of task 1
    ensures refuses_task_of_workers_job { Refuses StepLaw (one_taken
        ▸ moment (Job 1) (Worker 1) (Some 1) (Accepted 2) 2)
        (moment (OfTask 1 Poll) (Task 1) None Waits 2) }
{}

/// Nothing is done by a task exactly where it isn't there, or was cancelled and is neither polled nor dropped.
pub fn nothing_by_tasks()
    // nothing (no call was accepted)
    ensures accepts_no_task { Legal 1 [] ([] ▸ moment (OfTask 0 Poll) (Task 0) None NoAction 1) }
    // .. / got 5 / nothing (the task is gone)
    ensures accepts_gone_task { Legal 1 [] (one_got
        ▸ moment (OfTask 0 Poll) (Task 0) None NoAction 2) }
    // .. / answered 5 / detached / nothing
    ensures accepts_detached_task { Legal 1 [] (one_answered
        ▸ moment (OfTask 0 Detach) (Task 0) None TaskDetached 2
        ▸ moment (OfTask 0 Poll) (Task 0) None NoAction 2) }
    // accepted 1 +1 / dropped / arrived 1 / nothing
    ensures accepts_dropped_task { Legal 1 [] (dropped
        ▸ moment (OfTask 0 Poll) (Task 0) None NoAction 2) }
    // .. / cancelled / finished / got none / nothing (a cancelled task is gone too, once it was answered)
    ensures accepts_answered_cancel { Legal 1 [] (cancelled_finished
        ▸ moment (OfTask 0 Poll) (Task 0) None TaskGotNone 2
        ▸ moment (OfTask 0 Drop) (Task 0) None NoAction 2) }
    // .. / cancelled / finished / nothing (a cancelled task is only polled and dropped)
    ensures accepts_no_detaching_after_cancel { Legal 1 [] (cancelled_finished
        ▸ moment (OfTask 0 Detach) (Task 0) None NoAction 2
        ▸ moment (OfTask 0 Cancel) (Task 0) None NoAction 2) }
    // where there is an action
    ensures refuses_no_poll { Refuses StepLaw one_queued
        (moment (OfTask 0 Poll) (Task 0) None NoAction 2) }
    // where there is none
    ensures refuses_poll_of_gone_task { Refuses StepLaw one_got
        (moment (OfTask 0 Poll) (Task 0) None Waits 2) }
    ensures refuses_detaching_after_cancel { Refuses StepLaw cancelled_given_up
        (moment (OfTask 0 Detach) (Task 0) None TaskDetached 2) }
{}

/// In three cases alone nothing is done by a worker. It isn't there; or it has a job in hand and is to take or to wait; or
/// it has none that does this next.
pub fn nothing_by_workers()
    // nothing (nobody arrived)
    ensures accepts_no_worker { Legal 1 [] ([] ▸ moment (Take 1) (Worker 1) None NoAction 1) }
    // accepted 1 +1 / arrived 1 / nothing (the worker has no job)
    ensures accepts_no_turn { Legal 1 [] (one_arrived ▸ moment (End 1) (Worker 1) None NoAction 2) }
    // accepted 1 +1 / arrived 1 / took 1 / nothing (the job asks for an answer first)
    ensures accepts_no_end_yet { Legal 1 [] (one_taken
        ▸ moment (End 1) (Worker 1) None NoAction 2) }
    // .. / answered 5 / nothing (the call was answered)
    ensures accepts_no_answer_to_finish { Legal 1 [] (one_answered
        ▸ moment (Io 1 (Number 6)) (Worker 1) None NoAction 2) }
    // .. / ended 1 done / stopped 1 / nothing (the worker is gone)
    ensures accepts_stopped_worker { Legal 1 [] (one_done
        ▸ moment (Late 1) (Worker 1) None (Stopped 1 TimedOut) 2
        ▸ moment (Take 1) (Worker 1) None NoAction 2) }
    // accepted 1 +1 / arrived 1 / took 1 / nothing (the worker has a job)
    ensures accepts_busy_worker { Legal 1 [] (one_taken
        ▸ moment (Take 1) (Worker 1) None NoAction 2
        ▸ moment (Wait 1) (Worker 1) None NoAction 2
        ▸ moment (Late 1) (Worker 1) None NoAction 2) }
    // where there is an action
    ensures refuses_no_take { Refuses StepLaw one_arrived
        (moment (Take 1) (Worker 1) None NoAction 2) }
    ensures refuses_no_wait { Refuses StepLaw one_arrived
        (moment (Wait 1) (Worker 1) None NoAction 2) }
    ensures refuses_no_answer { Refuses StepLaw one_taken
        (moment (Io 1 (Number 5)) (Worker 1) None NoAction 2) }
    ensures refuses_no_finish { Refuses StepLaw one_answered
        (moment (Job 1) (Worker 1) None NoAction 2) }
    ensures refuses_no_end { Refuses StepLaw one_finished
        (moment (End 1) (Worker 1) None NoAction 2) }
    // where there is none
    // accepted 1 +1 / waits / idle (nobody has arrived)
    ensures refuses_take_by_nobody { Refuses StepLaw (one_queued
        ▸ moment (OfTask 0 Poll) (Task 0) None Waits 2)
        (moment (Take 1) (Worker 1) None TookNone 2) }
    ensures refuses_take_by_busy_worker { Refuses StepLaw one_taken
        (moment (Take 1) (Worker 1) None TookNone 2) }
    ensures refuses_answer_unasked { Refuses StepLaw one_answered
        (moment (Io 1 (Number 6)) (Worker 1) (Some 1) (Answered (Number 6)) 2) }
{}

/// What is seen of a step is of its kind and has its numbers, is taken by its party, and is of its job.
pub fn events()
    // accepted 1 +1 / arrived 1 / took 1 / answered 5
    ensures accepts_answer { Legal 1 [] one_answered }
    // accepted 1 +1 / arrived 1 / took 1 / answered 5, where 6 was answered
    ensures refuses_other_answer { Refuses StepLaw one_taken
        (moment (Io 1 (Number 6)) (Worker 1) (Some 1) (Answered (Number 5)) 2) }
    // clients 2 / clients none
    ensures accepts_client_limits { Legal 1 [] ([]
        ▸ moment (SetClientLimit (Some 2)) Pool None (ClientLimitSet (Some 2)) 1
        ▸ moment (SetClientLimit None) Pool None (ClientLimitSet None) 1) }
    // clients 2, of a limit 1, and of none
    ensures refuses_other_client_limit { Refuses StepLaw []
        (moment (SetClientLimit (Some 1)) Pool None (ClientLimitSet (Some 2)) 1) }
    ensures refuses_limit_for_none { Refuses StepLaw []
        (moment (SetClientLimit None) Pool None (ClientLimitSet (Some 2)) 1) }
    // accepted 1 +1 / arrived 1 / stays 1, of a take
    ensures refuses_other_kind { Refuses StepLaw one_arrived
        (moment (Take 1) (Worker 1) None (Stays 1 Woken) 2) }
    // accepted 1 +1 / arrived 1 / stays 1, timed out, of a wait that wasn't
    ensures refuses_other_wait { Refuses StepLaw one_arrived
        (moment (Wait 1) (Worker 1) None (Stays 1 TimedOut) 2) }
    // accepted 1 +1 / dropped, of a detaching
    ensures refuses_detaching_told_as_drop { Refuses StepLaw one_queued
        (moment (OfTask 0 Detach) (Task 0) None HolderDropped 2) }
    // accepted 1 +1 / detached, of a drop
    ensures refuses_drop_told_as_detaching { Refuses StepLaw one_queued
        (moment (OfTask 0 Drop) (Task 0) None TaskDetached 2) }
    // accepted 1 +1 / cancelled, of a poll
    ensures refuses_other_call { Refuses StepLaw one_queued
        (moment (OfTask 0 Poll) (Task 0) None TaskCancelled 2) }
    // .. / delivered 2 nothing, of a wake of job 1
    ensures refuses_other_job { Refuses StepLaw one_done
        (moment (Stray 1) Pool None (JobWoken 2 Nothing) 2) }
    // swept 0 by worker 1
    ensures refuses_other_party { Refuses StepLaw [] (moment Sweep (Worker 1) None (Swept 0) 1) }
    // accepted 1 +1 / nothing by the pool, where task 1 isn't there
    ensures refuses_nothing_of_other { Refuses StepLaw one_queued
        (moment (OfTask 1 Cancel) Pool None NoAction 2) }
    // .. / answered 5 / finished, said to be of job 2
    ensures refuses_job_of_other { Refuses StepLaw one_answered
        (moment (Job 1) (Worker 1) (Some 2) (Finished Absent) 2) }
    // .. / answered 5 / finished, said to be of owner 0
    ensures refuses_owner_of_call { Refuses StepLaw one_answered
        (of_owner 0 (moment (Job 1) (Worker 1) (Some 1) (Finished Absent) 2)) }
    // accepted 1 +1 / arrived 1 / took 1, said to be of no job
    ensures refuses_take_of_no_job { Refuses StepLaw one_arrived
        (moment (Take 1) (Worker 1) None (Took 1) 2) }
{}
