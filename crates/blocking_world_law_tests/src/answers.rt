//! What the pool answers.
ghost use Rattle.std.specs.Prelude.{◌≡◌, ◌≤◌, ◌+◌, ◌++◌, ℕ, Bool, List, [], length, Some, None, true, false};
ghost use Rattle.blocking_pool.specs.declared.pool.answer.Refusal.TheVariants.{Memory, Numbers};
ghost use Rattle.blocking_pool.specs.declared.pool.answer.Woke.TheVariants.{Entered, Marked, Nothing};
ghost use Rattle.blocking_pool.specs.declared.pool.standing.Standing.TheVariants.{Queued, Parked, Done, Dropped};
ghost use Rattle.blocking_world_laws.specs.Core.{greatest, is_below};
ghost use Rattle.blocking_world_laws.specs.Seen.{AtEveryBeginning};
ghost use Rattle.blocking_world_laws.specs.Jobs.{accepted_jobs, client};
ghost use Rattle.blocking_world_laws.specs.Queue.{InOrder, running, client_limit, of_client};
ghost use Rattle.blocking_world_laws.specs.Answers.{AnswerLaw};
ghost use Rattle.blocking_world_laws.specs.Steps.{job_taken};
ghost use Rattle.blocking_world_laws.specs.Legal.{Legal};
ghost use Rattle.blocking_world_laws.specs.Traces.{◌▸◌, moment, Refuses, Keeps, IsPooled};
ghost use Rattle.blocking_world_laws.specs.Traces.{one_queued, one_arrived, one_taken, one_finished, one_done};
ghost use Rattle.blocking_world_laws.specs.Traces.{dropped, dropped_running, dropped_given_up, dropped_over, two_queued, front_dropped, second_dropped, two_workers};
ghost use Rattle.blocking_world_laws.specs.Traces.{one_waits, one_parked, woken_waits, dropped_waits, dropped_parked};
ghost use Rattle.blocking_world_laws.specs.Traces.{two_parked, two_dropped, queued_again};
ghost use Rattle.blocking_world_laws.specs.Traces.{three_queued, one_at_limit, none_ready, room_again};
ghost use Rattle.blocking_world_laws.specs.declared.event.Moment.{Moment};
ghost use Rattle.blocking_world_laws.specs.declared.event.Act.TheVariants.{Accepted, Refused, JobWoken, JobCancelled, LimitSet, ClientLimitSet, Swept, TaskCancelled, HolderDropped, Arrived, Took, TookDropped, TookNone, Stays, Stopped, Ended, HandedOut, GaveUp};
ghost use Rattle.blocking_world_laws.specs.declared.event.Party.TheVariants.{Task, Worker, Pool};
ghost use Rattle.blocking_world_laws.specs.declared.event.HolderWaker.TheVariants.{Absent};
ghost use Rattle.blocking_world_laws.specs.declared.event.WaitEnd.TheVariants.{Woken, TimedOut};
ghost use Rattle.blocking_world_laws.specs.declared.step.Step.TheVariants.{Spawn, OfTask, Arrive, Take, Job, End, Wait, Late, SetLimit, Sweep, Stray, Strike, SetClientLimit};
ghost use Rattle.blocking_world_laws.specs.declared.step.TaskCall.TheVariants.{Cancel, Drop};

/// A take gives the first ready job, to be dropped where it was let go; it finds none only where none is ready. Where no client limit is set
/// that is the job at the front, and it finds none only where none is queued.
pub fn takes()
    // accepted 1 +1 / arrived 1 / accepted 2 / took 1
    ensures accepts_front { Legal 1 [] (two_queued
        ▸ moment (Take 1) (Worker 1) (Some 1) (Took 1) 2) }
    // accepted 1 +1 / dropped / arrived 1 / took 1 dropped
    ensures accepts_drop { Legal 1 [] (dropped
        ▸ moment (Take 1) (Worker 1) (Some 1) (TookDropped 1) 2) }
    // .. / finished / ended 1 done / idle
    ensures accepts_idle { Legal 1 [] (one_done ▸ moment (Take 1) (Worker 1) None TookNone 2) }
    // .. / accepted 2 / delivered 1 marked / parked / ended 1 queued / took 2
    ensures accepts_front_before_woken { IsPooled 1 [] (queued_again
        ▸ moment (Take 1) (Worker 1) (Some 2) (Took 2) 2) }
    // accepted 1 +1 / arrived 1 / accepted 2 / dropped (of job 2) / took 1
    ensures accepts_front_beside_dropped { Legal 1 [] (second_dropped
        ▸ moment (Take 1) (Worker 1) (Some 1) (Took 1) 2) }
    // .. / accepted 2 / dropped (of job 1) / took 1 dropped / gave up / ended 1 dropped / took 2
    ensures accepts_next_beside_dropped { Legal 1 [] (front_dropped
        ▸ moment (Take 1) (Worker 1) (Some 1) (TookDropped 1) 2
        ▸ moment (Job 1) (Worker 1) (Some 1) (GaveUp Absent) 2
        ▸ moment (End 1) (Worker 1) (Some 1) (Ended 1 Dropped) 2
        ▸ moment (Take 1) (Worker 1) (Some 2) (Took 2) 2) }
    // accepted 1 +1 / arrived 1 / accepted 2 / took 2
    ensures refuses_queue_jumper { Refuses (AnswerLaw 1) two_queued
        (moment (Take 1) (Worker 1) (Some 2) (Took 2) 2) }
    // .. / accepted 2 / delivered 1 marked / parked / ended 1 queued / took 1
    ensures refuses_woken_job_first { Refuses (AnswerLaw 1) queued_again
        (moment (Take 1) (Worker 1) (Some 1) (Took 1) 2) }
    // accepted 1 +1 / arrived 1 / idle
    ensures refuses_false_idle { Refuses (AnswerLaw 1) one_arrived
        (moment (Take 1) (Worker 1) None TookNone 2) }
    // .. / finished / ended 1 done / took 1
    ensures refuses_job_that_is_over { Refuses (AnswerLaw 1) one_done
        (moment (Take 1) (Worker 1) (Some 1) (Took 1) 2) }
    // accepted 1 +1 / arrived 1 / took 1 dropped
    ensures refuses_drop_unasked { Refuses (AnswerLaw 1) one_arrived
        (moment (Take 1) (Worker 1) (Some 1) (TookDropped 1) 2) }
{}

/// Each client's jobs are taken in the order in which they entered: the headline's own sentence, apart from what each take answers.
pub fn order()
    // accepted 1 +1 / arrived 1 / accepted 2 / took 1
    ensures accepts_front { InOrder (two_queued
        ▸ moment (Take 1) (Worker 1) (Some 1) (Took 1) 2) }
    // .. / accepted 2 / delivered 1 marked / parked / ended 1 queued / took 2
    ensures accepts_front_before_woken { InOrder (queued_again
        ▸ moment (Take 1) (Worker 1) (Some 2) (Took 2) 2) }
    // .. / accepted 2 / delivered 1 marked / parked / ended 1 queued / took 1
    ensures refuses_woken_job_first { Refuses (Keeps InOrder) queued_again
        (moment (Take 1) (Worker 1) (Some 1) (Took 1) 2) }
    // clients 1 / accepted 1 +1 / accepted 2 / accepted 3 / arrived 1 / took 1 +2 / arrived 2 / took 3: job 3 is of another client
    ensures accepts_other_client { InOrder (one_at_limit
        ▸ moment (Take 2) (Worker 2) (Some 3) (Took 3) 3) }
    // clients 1 / accepted 1 +1 / accepted 2 / accepted 3 / arrived 1 / took 2: job 1 is of the same client
    ensures refuses_passing_over { Refuses (Keeps InOrder) three_queued
        (moment (Take 1) (Worker 1) (Some 2) (Took 2) 2) }
{}

/// Where a client is at its limit, its jobs are passed by. A take gives the first job of another client, and no later one of the same. It
/// finds none where those alone are queued.
pub fn clients()
    // clients 1 / accepted 1 +1 / accepted 2 / accepted 3 / arrived 1 / took 1 +2 / arrived 2 / took 3: job 2 is of the client of job 1
    ensures accepts_passing_by { Legal 4 [] (one_at_limit ▸ moment (Take 2) (Worker 2) (Some 3) (Took 3) 3) }
    // .. / took 3 / .. / ended 3 done / idle / stays 2, timed out: a job is queued, and none is ready
    ensures accepts_idle_beside_queued { Legal 4 [] (none_ready
        ▸ moment (Take 2) (Worker 2) None TookNone 3
        ▸ moment (Late 2) (Worker 2) None (Stays 2 TimedOut) 3) }
    // .. / ended 3 done / clients 2 / took 2: a raised limit
    ensures accepts_raised { Legal 4 [] (none_ready
        ▸ moment (SetClientLimit (Some 2)) Pool None (ClientLimitSet (Some 2)) 3
        ▸ moment (Take 2) (Worker 2) (Some 2) (Took 2) 3) }
    // .. / ended 3 done / clients none / took 2: no limit is left
    ensures accepts_unlimited { Legal 4 [] (none_ready
        ▸ moment (SetClientLimit None) Pool None (ClientLimitSet None) 3
        ▸ moment (Take 2) (Worker 2) (Some 2) (Took 2) 3) }
    // .. / ended 3 done / .. / ended 1 done / took 2: its client has room again
    ensures accepts_room_again { Legal 4 [] (room_again ▸ moment (Take 1) (Worker 1) (Some 2) (Took 2) 3) }
    // clients 1 / accepted 1 +1 / accepted 2 / accepted 3 / arrived 1 / took 2
    ensures refuses_passing_over { Refuses (AnswerLaw 4) three_queued (moment (Take 1) (Worker 1) (Some 2) (Took 2) 2) }
    // .. / took 1 +2 / arrived 2 / idle
    ensures refuses_idle_behind_limit { Refuses (AnswerLaw 4) one_at_limit (moment (Take 2) (Worker 2) None TookNone 3) }
    // .. / took 1 +2 / arrived 2 / took 2
    ensures refuses_take_at_limit { Refuses (AnswerLaw 4) one_at_limit (moment (Take 2) (Worker 2) (Some 2) (Took 2) 3) }
    // .. / took 1 +2 / arrived 2 / dropped (of job 2) / took 2 dropped: a job that was let go waits for room too
    ensures refuses_drop_at_limit { Refuses (AnswerLaw 4) (one_at_limit ▸ moment (OfTask 1 Drop) (Task 1) None HolderDropped 3)
        (moment (Take 2) (Worker 2) (Some 2) (TookDropped 2) 3) }
    // .. / took 3 / .. / ended 3 done / took 2
    ensures refuses_take_of_unready { Refuses (AnswerLaw 4) none_ready (moment (Take 2) (Worker 2) (Some 2) (Took 2) 3) }
    // .. / took 3 / .. / ended 3 done / stopped 2, timed out: a job is queued
    ensures refuses_stop_beside_unready { Refuses (AnswerLaw 4) none_ready (moment (Late 2) (Worker 2) None (Stopped 2 TimedOut) 3) }
    // .. / ended 1 done / idle: its client has room again
    ensures refuses_idle_with_room { Refuses (AnswerLaw 4) room_again (moment (Take 1) (Worker 1) None TookNone 3) }
{}

/// A take leaves no more jobs of its client running than the client limit says, and nothing but a take makes more of them run. So where no more of
/// a client's jobs run than the limit says, no more do as long as it stands. (Where a limit is set lower than what runs, what runs goes on.)
pub fn within_client_limit()
    ensures taken { (setting : ℕ) (plan : List Bool) (past : List Moment) (now : Moment) (s most : ℕ) →
        IsPooled setting plan (past ▸ now) → job_taken now.event.act ≡ Some s → client_limit past ≡ Some most →
        length (of_client (past ▸ now) (client (past ▸ now) s) (running (past ▸ now))) ≤ most }
    // nothing but a take
    ensures no_more { (setting : ℕ) (plan : List Bool) (past : List Moment) (now : Moment) (c : ℕ) →
        IsPooled setting plan (past ▸ now) → job_taken now.event.act ≡ None →
        length (of_client (past ▸ now) c (running (past ▸ now))) ≤ length (of_client past c (running past)) }
    // whatever is seen next, of any client, where there is a limit that is no greater
    ensures kept { (setting : ℕ) (plan : List Bool) (past : List Moment) (now : Moment) (c most : ℕ) →
        IsPooled setting plan (past ▸ now) → is_below (client_limit past) most ≡ false →
        length (of_client past c (running past)) ≤ most →
        length (of_client (past ▸ now) c (running (past ▸ now))) ≤ most }
    // however much is seen later, while there is such a limit
    ensures throughout { (setting : ℕ) (plan : List Bool) (past later : List Moment) (c most : ℕ) →
        IsPooled setting plan (later ++ past) → AtEveryBeginning (λ before. is_below (client_limit (before ++ past)) most ≡ false) later →
        length (of_client past c (running past)) ≤ most →
        length (of_client (later ++ past) c (running (later ++ past))) ≤ most }
    // so no client has more running than a limit that was set while no job ran, as long as it stands
    ensures from_rest { (setting : ℕ) (plan : List Bool) (past later : List Moment) (c most : ℕ) →
        IsPooled setting plan (later ++ past) → AtEveryBeginning (λ before. client_limit (before ++ past) ≡ Some most) later →
        running past ≡ [] →
        length (of_client (later ++ past) c (running (later ++ past))) ≤ most }
{}

/// A wake puts a parked job back and flags a running one as woken; any other it leaves as it is.
pub fn wakes()
    // accepted 1 +1 / arrived 1 / delivered 1 nothing
    ensures accepts_queued { Legal 1 [] (one_arrived
        ▸ moment (Stray 1) Pool None (JobWoken 1 Nothing) 2) }
    // accepted 1 +1 / arrived 1 / took 1 / delivered 1 marked
    ensures accepts_running { Legal 1 [] (one_taken
        ▸ moment (Stray 1) Pool None (JobWoken 1 Marked) 2) }
    // .. / ended 1 parked / delivered 1 entered / took 1
    ensures accepts_parked { IsPooled 1 [] (one_parked
        ▸ moment (Stray 1) Pool None (JobWoken 1 Entered) 2
        ▸ moment (Take 1) (Worker 1) (Some 1) (Took 1) 2) }
    // .. / ended 1 done / delivered 1 nothing
    ensures accepts_done { Legal 1 [] (one_done
        ▸ moment (Stray 1) Pool None (JobWoken 1 Nothing) 2) }
    // .. / gave up / ended 1 dropped / delivered 1 nothing
    ensures accepts_dropped { Legal 1 [] (dropped_over
        ▸ moment (Stray 1) Pool None (JobWoken 1 Nothing) 2) }
    // accepted 1 +1 / arrived 1 / took 1 / delivered 1 entered
    ensures refuses_queuing_while_it_runs { Refuses (AnswerLaw 1) one_taken
        (moment (Stray 1) Pool None (JobWoken 1 Entered) 2) }
    // accepted 1 +1 / arrived 1 / took 1 / delivered 1 nothing
    ensures refuses_unheard_wake { Refuses (AnswerLaw 1) one_taken
        (moment (Stray 1) Pool None (JobWoken 1 Nothing) 2) }
    // accepted 1 +1 / arrived 1 / delivered 1 entered
    ensures refuses_queuing_twice { Refuses (AnswerLaw 1) one_arrived
        (moment (Stray 1) Pool None (JobWoken 1 Entered) 2) }
    // .. / ended 1 parked / delivered 1 marked
    ensures refuses_parked_left { Refuses (AnswerLaw 1) one_parked
        (moment (Stray 1) Pool None (JobWoken 1 Marked) 2) }
    // .. / ended 1 done / delivered 1 entered
    ensures refuses_stale_wake { Refuses (AnswerLaw 1) one_done
        (moment (Stray 1) Pool None (JobWoken 1 Entered) 2) }
    // .. / gave up / ended 1 dropped / delivered 1 entered
    ensures refuses_stale_wake_of_dropped { Refuses (AnswerLaw 1) dropped_over
        (moment (Stray 1) Pool None (JobWoken 1 Entered) 2) }
{}

/// A cancel puts a parked job back and flags one that is queued or running; one that is over it leaves as it is.
pub fn cancels()
    // accepted 1 +1 / cancelled 1 marked / arrived 1 / took 1 dropped: the cancel alone is enough
    ensures accepts_drop_of_cancelled { IsPooled 1 [] (one_queued
        ▸ moment (Strike 1) Pool None (JobCancelled 1 Marked) 2
        ▸ moment Arrive (Worker 1) None (Arrived 1) 2
        ▸ moment (Take 1) (Worker 1) (Some 1) (TookDropped 1) 2) }
    // accepted 1 +1 / arrived 1 / took 1 / dropped / cancelled 1 marked
    ensures accepts_running { Legal 1 [] (dropped_running
        ▸ moment (Strike 1) Pool None (JobCancelled 1 Marked) 2) }
    // .. / took 1 / cancelled / cancelled 1 marked: by its task, and then in the pool
    ensures accepts_cancelled_task { Legal 1 [] (one_taken
        ▸ moment (OfTask 0 Cancel) (Task 0) None TaskCancelled 2
        ▸ moment (Strike 1) Pool None (JobCancelled 1 Marked) 2) }
    // .. / ended 1 parked / dropped / cancelled 1 entered / took 1 dropped
    ensures accepts_parked { IsPooled 1 [] (dropped_parked
        ▸ moment (Strike 1) Pool None (JobCancelled 1 Entered) 2
        ▸ moment (Take 1) (Worker 1) (Some 1) (TookDropped 1) 2) }
    // .. / ended 1 done / dropped / cancelled 1 nothing
    ensures accepts_done { Legal 1 [] (one_done
        ▸ moment (OfTask 0 Drop) (Task 0) None HolderDropped 2
        ▸ moment (Strike 1) Pool None (JobCancelled 1 Nothing) 2) }
    // .. / gave up / ended 1 dropped / cancelled 1 nothing
    ensures accepts_dropped { Legal 1 [] (dropped_over
        ▸ moment (Strike 1) Pool None (JobCancelled 1 Nothing) 2) }
    // accepted 1 +1 / dropped / arrived 1 / cancelled 1 entered
    ensures refuses_queuing_twice { Refuses (AnswerLaw 1) dropped
        (moment (Strike 1) Pool None (JobCancelled 1 Entered) 2) }
    // accepted 1 +1 / arrived 1 / took 1 / dropped / cancelled 1 entered
    ensures refuses_queuing_while_it_runs { Refuses (AnswerLaw 1) dropped_running
        (moment (Strike 1) Pool None (JobCancelled 1 Entered) 2) }
    // .. / ended 1 parked / dropped / cancelled 1 marked
    ensures refuses_parked_left { Refuses (AnswerLaw 1) dropped_parked
        (moment (Strike 1) Pool None (JobCancelled 1 Marked) 2) }
    // .. / gave up / ended 1 dropped / cancelled 1 marked
    ensures refuses_stale_cancel { Refuses (AnswerLaw 1) dropped_over
        (moment (Strike 1) Pool None (JobCancelled 1 Marked) 2) }
{}

/// A sweep puts back the parked jobs that bear a mark, no other, in the order in which they were accepted.
pub fn sweeps()
    // accepted 1 +1 / dropped / arrived 1 / swept 0: the job is marked, and not parked
    ensures accepts_queued_left { Legal 1 [] (dropped ▸ moment Sweep Pool None (Swept 0) 2) }
    // .. / ended 1 parked / swept 0: the job is parked, and bears no mark
    ensures accepts_unmarked_left { IsPooled 1 []
        (one_parked ▸ moment Sweep Pool None (Swept 0) 2) }
    // .. / ended 1 parked / dropped / swept 1 / took 1 dropped
    ensures accepts_marked { IsPooled 1 [] (dropped_parked
        ▸ moment Sweep Pool None (Swept 1) 2
        ▸ moment (Take 1) (Worker 1) (Some 1) (TookDropped 1) 2) }
    // .. / ended 2 parked / dropped (of job 1) / swept 1 / took 1 dropped
    ensures accepts_marked_beside_unmarked { IsPooled 1 [] (two_parked
        ▸ moment (OfTask 0 Drop) (Task 0) None HolderDropped 2
        ▸ moment Sweep Pool None (Swept 1) 2
        ▸ moment (Take 1) (Worker 1) (Some 1) (TookDropped 1) 2) }
    // .. / ended 2 parked / dropped (of job 2) / dropped (of job 1) / swept 2 / took 1 dropped
    ensures accepts_order_of_acceptance { IsPooled 1 [] (two_dropped
        ▸ moment Sweep Pool None (Swept 2) 2
        ▸ moment (Take 1) (Worker 1) (Some 1) (TookDropped 1) 2) }
    // .. / ended 1 parked / dropped / stays 1, timed out: the wait swept
    ensures accepts_sweep_of_late_wait { IsPooled 1 [] (dropped_parked
        ▸ moment (Late 1) (Worker 1) None (Stays 1 TimedOut) 2
        ▸ moment (Take 1) (Worker 1) (Some 1) (TookDropped 1) 2) }
    // .. / ended 1 parked / dropped / swept 0
    ensures refuses_marked_left { Refuses (AnswerLaw 1) dropped_parked
        (moment Sweep Pool None (Swept 0) 2) }
    // .. / ended 2 parked / dropped (of job 1) / swept 1 / took 2: it put back the other one
    ensures refuses_other_put_back { Refuses (AnswerLaw 1) (two_parked
        ▸ moment (OfTask 0 Drop) (Task 0) None HolderDropped 2
        ▸ moment Sweep Pool None (Swept 1) 2)
        (moment (Take 1) (Worker 1) (Some 2) (Took 2) 2) }
    // .. / dropped (of job 2) / dropped (of job 1) / swept 2 / took 2 dropped
    ensures refuses_order_of_dropping { Refuses (AnswerLaw 1) (two_dropped
        ▸ moment Sweep Pool None (Swept 2) 2)
        (moment (Take 1) (Worker 1) (Some 2) (TookDropped 2) 2) }
{}

/// A turn ends as its run did: done, or dropped after giving up. One that waits is handed out where it was let go, goes back
/// where it was woken, and else parks.
pub fn ends()
    // .. / finished / ended 1 done
    ensures accepts_done { Legal 1 [] (one_finished
        ▸ moment (End 1) (Worker 1) (Some 1) (Ended 1 Done) 2) }
    // .. / took 1 dropped / gave up / ended 1 dropped
    ensures accepts_dropped { Legal 1 [] (dropped_given_up
        ▸ moment (End 1) (Worker 1) (Some 1) (Ended 1 Dropped) 2) }
    // .. / took 1 / parked / ended 1 parked
    ensures accepts_parked { IsPooled 1 [] (one_waits
        ▸ moment (End 1) (Worker 1) (Some 1) (Ended 1 Parked) 2) }
    // .. / took 1 / delivered 1 marked / parked / ended 1 queued
    ensures accepts_queued { IsPooled 1 [] (woken_waits
        ▸ moment (End 1) (Worker 1) (Some 1) (Ended 1 Queued) 2) }
    // .. / took 1 / dropped / parked / drop 1
    ensures accepts_handed_out { IsPooled 1 [] (dropped_waits
        ▸ moment (End 1) (Worker 1) (Some 1) (HandedOut 1) 2) }
    // .. / took 1 / parked / ended 1 queued
    ensures refuses_queuing_unwoken { Refuses (AnswerLaw 1) one_waits
        (moment (End 1) (Worker 1) (Some 1) (Ended 1 Queued) 2) }
    // .. / took 1 / dropped / parked / ended 1 parked
    ensures refuses_parking_of_dropped { Refuses (AnswerLaw 1) dropped_waits
        (moment (End 1) (Worker 1) (Some 1) (Ended 1 Parked) 2) }
    // .. / took 1 / parked / drop 1
    ensures refuses_drop_unasked { Refuses (AnswerLaw 1) one_waits
        (moment (End 1) (Worker 1) (Some 1) (HandedOut 1) 2) }
    // .. / took 1 / parked / ended 1 done
    ensures refuses_done_while_waiting { Refuses (AnswerLaw 1) one_waits
        (moment (End 1) (Worker 1) (Some 1) (Ended 1 Done) 2) }
    // .. / finished / ended 1 parked
    ensures refuses_parking_of_done { Refuses (AnswerLaw 1) one_finished
        (moment (End 1) (Worker 1) (Some 1) (Ended 1 Parked) 2) }
{}

/// After a wait a worker stops where there are more workers than the limit, or where it timed out and no job is queued.
pub fn stops()
    // accepted 1 +1 / arrived 1 / stays 1
    ensures accepts_staying { Legal 1 [] (one_arrived
        ▸ moment (Wait 1) (Worker 1) None (Stays 1 Woken) 2) }
    // .. / ended 1 done / stopped 1, timed out
    ensures accepts_stop_by_time { Legal 1 [] (one_done
        ▸ moment (Late 1) (Worker 1) None (Stopped 1 TimedOut) 2) }
    // accepted 1 +1 / arrived 1 / accepted 2 / took 1 +2 / arrived 2 / limit 1 / stopped 2
    ensures accepts_stop_over_limit { Legal 2 [] (two_workers
        ▸ moment (SetLimit 1) Pool None (LimitSet 1) 3
        ▸ moment (Wait 2) (Worker 2) None (Stopped 2 Woken) 3) }
    // .. / ended 1 done / stopped 1, not timed out
    ensures refuses_eager_stop { Refuses (AnswerLaw 1) one_done
        (moment (Wait 1) (Worker 1) None (Stopped 1 Woken) 2) }
    // .. / ended 1 parked / dropped / stopped 1, timed out: its sweep put the job back
    ensures refuses_stop_beside_swept_job { Refuses (AnswerLaw 1) dropped_parked
        (moment (Late 1) (Worker 1) None (Stopped 1 TimedOut) 2) }
    // .. / ended 1 done / stays 1, timed out
    ensures refuses_staying_for_good { Refuses (AnswerLaw 1) one_done
        (moment (Late 1) (Worker 1) None (Stays 1 TimedOut) 2) }
    // .. / arrived 2 / limit 1 / stays 2
    ensures refuses_staying_over_limit { Refuses (AnswerLaw 2) (two_workers
        ▸ moment (SetLimit 1) Pool None (LimitSet 1) 3)
        (moment (Wait 2) (Worker 2) None (Stays 2 Woken) 3) }
{}

/// Serials and workers are numbered in order, and no number is used again; only started workers arrive. Want of memory is an
/// answer only where there is a number for the job.
pub fn numbers()
    // accepted 1 +1 / arrived 1 / accepted 2
    ensures accepts_in_order { Legal 1 [] two_queued }
    // .. / ended 1 done / accepted 1
    ensures refuses_serial_of_done_job { Refuses (AnswerLaw 1) one_done
        (moment (Spawn 0) Pool None (Accepted 1) 2) }
    // accepted 1 +1 / arrived 1 / accepted 3
    ensures refuses_serial_left_out { Refuses (AnswerLaw 1) one_arrived
        (moment (Spawn 0) Pool None (Accepted 3) 2) }
    // accepted 1 +1 / arrived 1 / refused numbers
    ensures refuses_early_end_of_numbers { Refuses (AnswerLaw 1) one_arrived
        (moment (Spawn 0) Pool None (Refused Numbers) 2) }
    // refused memory
    ensures accepts_want_of_memory { Legal 1 [] ([] ▸ moment (Spawn 0) Pool None (Refused Memory) 1) }
    // where the greatest number would be next no short trace ends: refused numbers, and not refused memory
    ensures accepts_end_of_numbers { (past : List Moment) →
        1 + length (accepted_jobs past) ≡ greatest →
        AnswerLaw 1 past (moment (Spawn 0) Pool None (Refused Numbers) 2) }
    ensures refuses_memory_at_end_of_numbers { (past : List Moment) →
        1 + length (accepted_jobs past) ≡ greatest →
        Refuses (AnswerLaw 1) past (moment (Spawn 0) Pool None (Refused Memory) 2) }
    // accepted 1 +1 / arrived 2
    ensures refuses_worker_left_out { Refuses (AnswerLaw 1) one_queued
        (moment Arrive (Worker 2) None (Arrived 2) 2) }
    // accepted 1 +1 / arrived 1 / arrived 2
    ensures refuses_arrival_unstarted { Refuses (AnswerLaw 1) one_arrived
        (moment Arrive (Worker 2) None (Arrived 2) 2) }
{}
