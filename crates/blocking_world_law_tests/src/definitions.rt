//! What the definitions say of short traces.
ghost use Rattle.std.specs.Prelude.{◌≡◌, [], ◌∷◌, Some, None, true, false};
ghost use Rattle.blocking_pool.specs.declared.pool.answer.Refusal.TheVariants.{Memory};
ghost use Rattle.blocking_pool.specs.declared.pool.answer.Woke.TheVariants.{Entered, Marked, Nothing};
ghost use Rattle.blocking_pool.specs.declared.pool.standing.Standing.TheVariants.{Queued, Running, Parked, Done, Dropped};
ghost use Rattle.blocking_world_laws.specs.Core.{is_due, limit_after, wake_of, cancel_of, is_below};
ghost use Rattle.blocking_world_laws.specs.Seen.{events, task_cut};
ghost use Rattle.blocking_world_laws.specs.Seats.{task_seat};
ghost use Rattle.blocking_world_laws.specs.Jobs.{standing, tasks, holder, client_of_owner, client, is_woken, is_cancelled, is_marked, has_ended};
ghost use Rattle.blocking_world_laws.specs.Queue.{entries, takes, queue, running, client_limit, of_client, has_room, ready};
ghost use Rattle.blocking_world_laws.specs.Counts.{workers, idle, limit};
ghost use Rattle.blocking_world_laws.specs.Growth.{known_limit};
ghost use Rattle.blocking_world_laws.specs.Traces.{◌▸◌, moment};
ghost use Rattle.blocking_world_laws.specs.Traces.{one_queued, one_arrived, one_taken, one_answered, one_done, two_workers, two_queued, late_queued};
ghost use Rattle.blocking_world_laws.specs.Traces.{awaited, awaited_finished, cancelled_given_up, detached, dropped, dropped_over, start_refused, second_refused};
ghost use Rattle.blocking_world_laws.specs.Traces.{one_parked, woken_waits, dropped_parked, two_dropped, front_dropped, second_dropped, queued_again};
ghost use Rattle.blocking_world_laws.specs.Traces.{three_queued, one_at_limit, none_ready, room_again};
ghost use Rattle.blocking_world_laws.specs.OwnerTraces.{begun_for_client};
ghost use Rattle.blocking_world_laws.specs.declared.event.Act.TheVariants.{Accepted, Refused, JobWoken, JobCancelled, LimitSet, ClientLimitSet, Swept, TaskCancelled, HolderDropped, Took, TookDropped, Stopped, Ended, NoAction};
ghost use Rattle.blocking_world_laws.specs.declared.event.Party.TheVariants.{Task, Worker, Pool};
ghost use Rattle.blocking_world_laws.specs.declared.event.WaitEnd.TheVariants.{Woken, TimedOut};
ghost use Rattle.blocking_world_laws.specs.declared.step.Step.TheVariants.{Spawn, OfTask, Arrive, Take, Job, End, Wait, Late, SetLimit, Sweep, Stray, Strike, SetClientLimit};
ghost use Rattle.blocking_world_laws.specs.declared.step.TaskCall.TheVariants.{Cancel, Drop};

/// The words that the laws take from the pool: what a wake and a cancel do, when a start is due, and the limit that one leaves.
pub fn words()
    ensures wake_of_queued { wake_of (Some Queued) ≡ Nothing }
    ensures wake_of_running { wake_of (Some Running) ≡ Marked }
    ensures wake_of_parked { wake_of (Some Parked) ≡ Entered }
    ensures wake_of_done { wake_of (Some Done) ≡ Nothing }
    ensures wake_of_dropped { wake_of (Some Dropped) ≡ Nothing }
    ensures cancel_of_queued { cancel_of (Some Queued) ≡ Marked }
    ensures cancel_of_running { cancel_of (Some Running) ≡ Marked }
    ensures cancel_of_parked { cancel_of (Some Parked) ≡ Entered }
    ensures cancel_of_done { cancel_of (Some Done) ≡ Nothing }
    ensures cancel_of_dropped { cancel_of (Some Dropped) ≡ Nothing }
    // six jobs beside one idle worker, below the limit; five jobs; six at the limit; and six once one more was started
    ensures due { is_due 6 1 1 2 0 ≡ true }
    ensures not_due { is_due 5 1 1 2 0 ≡ false }
    ensures not_due_at_limit { is_due 6 1 2 2 0 ≡ false }
    ensures not_due_again { is_due 6 1 1 3 1 ≡ false }
    // a refused start beside three workers, and beside none; and none
    ensures lowered { limit_after 8 3 true ≡ 3 }
    ensures lowered_to_one { limit_after 8 0 true ≡ 1 }
    ensures kept { limit_after 8 3 false ≡ 8 }
{}

/// How a job stands.
pub fn standings()
    // before it is accepted
    ensures nowhere { standing [] 1 ≡ None }
    // accepted 1 +1
    ensures queued { standing one_queued 1 ≡ Some Queued }
    // .. / took 1
    ensures running { standing one_taken 1 ≡ Some Running }
    // .. / parked / ended 1 parked
    ensures parked { standing one_parked 1 ≡ Some Parked }
    // .. / ended 1 parked / delivered 1 entered
    ensures woken { standing (one_parked
        ▸ moment (Stray 1) Pool None (JobWoken 1 Entered) 2) 1 ≡ Some Queued }
    // .. / ended 1 parked / dropped / cancelled 1 entered
    ensures cancelled { standing (dropped_parked
        ▸ moment (Strike 1) Pool None (JobCancelled 1 Entered) 2) 1 ≡ Some Queued }
    // .. / ended 1 parked / dropped / swept 1
    ensures swept { standing (dropped_parked ▸ moment Sweep Pool None (Swept 1) 2) 1 ≡ Some Queued }
    // .. / ended 1 parked / swept 0: it bears no mark
    ensures not_swept { standing (one_parked ▸ moment Sweep Pool None (Swept 0) 2) 1 ≡ Some Parked }
    // .. / delivered 1 marked / parked / ended 1 queued
    ensures queued_again { standing queued_again 1 ≡ Some Queued }
    // .. / finished / ended 1 done
    ensures done { standing one_done 1 ≡ Some Done }
    // .. / gave up / ended 1 dropped
    ensures dropped { standing dropped_over 1 ≡ Some Dropped }
    ensures over { has_ended dropped_over 1 ≡ true }
    // .. / ended 1 done, .. / ended 1 dropped: another job isn't over
    ensures not_over_by_done { has_ended one_done 2 ≡ false }
    ensures not_over_by_dropped { has_ended dropped_over 2 ≡ false }
{}

/// Who holds a job, and what was done to it.
pub fn flags()
    // accepted 1 +1 / arrived 1 / accepted 2
    ensures holder { holder two_queued 2 ≡ Some (Task 1) }
    ensures no_holder { holder two_queued 3 ≡ None }
    // limit 2 / refused memory / swept 0 / accepted 1 +1: what the pool did before brought no task
    ensures first_holder { holder late_queued 1 ≡ Some (Task 0) }
    // .. / took 1 / accepted 2, by worker 1: no new job of the pool's own
    ensures no_task { tasks (one_taken
        ▸ moment (Job 1) (Worker 1) (Some 1) (Accepted 2) 2) ≡ 1 }
    // .. / took 1 / delivered 1 marked / parked
    ensures woken { is_woken woken_waits 1 ≡ true }
    // accepted 1 +1 / arrived 1 / delivered 1 nothing, .. / ended 1 parked / delivered 1 entered: it didn't run
    ensures unwoken_in_queue { is_woken (one_arrived
        ▸ moment (Stray 1) Pool None (JobWoken 1 Nothing) 2) 1 ≡ false }
    ensures unwoken_when_parked { is_woken (one_parked
        ▸ moment (Stray 1) Pool None (JobWoken 1 Entered) 2) 1 ≡ false }
    // .. / took 1 +2 / arrived 2 / delivered 1 marked / took 2: the take of another job leaves it woken
    ensures woken_beside_take { is_woken (two_workers
        ▸ moment (Stray 1) Pool None (JobWoken 1 Marked) 3
        ▸ moment (Take 2) (Worker 2) (Some 2) (Took 2) 3) 1 ≡ true }
    // .. / took 1 +2 / arrived 2 / took 2 / delivered 2 marked: the wake of another job
    ensures unwoken_by_other { is_woken (two_workers
        ▸ moment (Take 2) (Worker 2) (Some 2) (Took 2) 3
        ▸ moment (Stray 2) Pool None (JobWoken 2 Marked) 3) 1 ≡ false }
    // .. / took 1 / delivered 1 marked / parked / ended 1 queued / took 1: a wake counts for one run
    ensures woken_before { is_woken (woken_waits
        ▸ moment (End 1) (Worker 1) (Some 1) (Ended 1 Queued) 2
        ▸ moment (Take 1) (Worker 1) (Some 1) (Took 1) 2) 1 ≡ false }
    // .. / ended 1 queued / dropped / took 1 dropped
    ensures woken_before_drop { is_woken (woken_waits
        ▸ moment (End 1) (Worker 1) (Some 1) (Ended 1 Queued) 2
        ▸ moment (OfTask 0 Drop) (Task 0) None HolderDropped 2
        ▸ moment (Take 1) (Worker 1) (Some 1) (TookDropped 1) 2) 1 ≡ false }
    // accepted 1 +1 / dropped / arrived 1
    ensures marked { is_marked dropped 1 ≡ true }
    // .. / accepted 2 / dropped (of the other job)
    ensures marked_alone { is_marked second_dropped 1 ≡ false }
    ensures others_unmarked { is_marked front_dropped 2 ≡ false }
    // .. / accepted 2 / cancelled (of the other job)
    ensures unmarked_by_cancel { is_marked (two_queued
        ▸ moment (OfTask 1 Cancel) (Task 1) None TaskCancelled 2) 1 ≡ false }
    // accepted 1 +1 / detached, accepted 1 +1 / waits / .. / answered 5: it wasn't let go
    ensures detached { is_marked detached 1 ≡ false }
    ensures awaited { is_marked awaited 1 ≡ false }
    // .. / ended 1 done / dropped: it was over
    ensures marked_late { is_marked (one_done
        ▸ moment (OfTask 0 Drop) (Task 0) None HolderDropped 2) 1 ≡ false }
    // accepted 1 +1 / dropped / arrived 1: a mark is no cancel
    ensures uncancelled { is_cancelled dropped 1 ≡ false }
    // accepted 1 +1 / dropped / arrived 1 / cancelled 1 marked
    ensures cancelled { is_cancelled (dropped
        ▸ moment (Strike 1) Pool None (JobCancelled 1 Marked) 2) 1 ≡ true }
    // .. / accepted 2 / dropped (of job 2) / cancelled 2 marked: the cancel of another job
    ensures uncancelled_by_other { is_cancelled (second_dropped
        ▸ moment (Strike 2) Pool None (JobCancelled 2 Marked) 2) 1 ≡ false }
    // .. / ended 1 parked / dropped / cancelled 1 entered
    ensures cancelled_when_parked { is_cancelled (dropped_parked
        ▸ moment (Strike 1) Pool None (JobCancelled 1 Entered) 2) 1 ≡ true }
    // .. / gave up / ended 1 dropped / cancelled 1 nothing: it was over
    ensures cancelled_late { is_cancelled (dropped_over
        ▸ moment (Strike 1) Pool None (JobCancelled 1 Nothing) 2) 1 ≡ false }
{}

/// Whether a task's waker is seated.
pub fn seats()
    // accepted 1 +1 / arrived 1 / took 1 / answered 5
    ensures nobody { task_seat (task_cut 0 1 (events one_answered)) ≡ false }
    // accepted 1 +1 / waits / arrived 1 / took 1 / answered 5
    ensures seated { task_seat (task_cut 0 1 (events awaited)) ≡ true }
    // .. / waits / .. / answered 5 / cancelled
    ensures kept { task_seat (task_cut 0 1 (events (awaited
        ▸ moment (OfTask 0 Cancel) (Task 0) None TaskCancelled 2))) ≡ true }
    // .. / waits / cancelled / .. / gave up wake owner
    ensures taken_in_giving_up { task_seat (task_cut 0 1 (events cancelled_given_up)) ≡ false }
{}

/// What entered the queue, what was taken, and what stands in it.
pub fn queues()
    // .. / accepted 2 / delivered 1 marked / parked / ended 1 queued
    ensures entries { entries queued_again ≡ 1 ∷ 2 ∷ 1 ∷ [] }
    ensures takes { takes queued_again ≡ 1 ∷ [] }
    ensures queue { queue queued_again ≡ 2 ∷ 1 ∷ [] }
    // .. / dropped (of job 2) / dropped (of job 1) / swept 2: in the order of acceptance
    ensures swept { queue (two_dropped ▸ moment Sweep Pool None (Swept 2) 2) ≡ 1 ∷ 2 ∷ [] }
    // .. / ended 1 parked / dropped / stopped 1, timed out: such a wait sweeps
    ensures swept_late { queue (dropped_parked
        ▸ moment (Late 1) (Worker 1) None (Stopped 1 TimedOut) 2) ≡ 1 ∷ [] }
{}

/// Of which client a job is, the client limit, and which queued jobs are ready.
pub fn clients()
    // accepted 1 +1: of a step that names none
    ensures nobodys { client one_queued 1 ≡ 0 }
    // clients 1 / accepted 1 +1 / accepted 2 / accepted 3 / arrived 1
    ensures of_call { client three_queued 2 ≡ 7 }
    ensures of_other_call { client three_queued 3 ≡ 8 }
    // made 0 / made 1 / asked / accepted 1 +1: of a session it is that of its owner
    ensures of_owner { client_of_owner begun_for_client 0 ≡ 7 }
    ensures of_other_owner { client_of_owner begun_for_client 1 ≡ 8 }
    ensures of_session { client begun_for_client 1 ≡ 7 }
    // the client limit: before any step, and as it was set, raised and taken away
    ensures no_limit { client_limit [] ≡ None }
    ensures limited { client_limit none_ready ≡ Some 1 }
    ensures raised { client_limit (none_ready ▸ moment (SetClientLimit (Some 2)) Pool None (ClientLimitSet (Some 2)) 3) ≡ Some 2 }
    ensures taken_away { client_limit (none_ready ▸ moment (SetClientLimit None) Pool None (ClientLimitSet None) 3) ≡ None }
    // the limit of workers is another one
    ensures limited_alone { client_limit (none_ready ▸ moment (SetLimit 2) Pool None (LimitSet 2) 3) ≡ Some 1 }
    // a number at its limit isn't below it, and where there is no limit each is
    ensures below { is_below (Some 2) 1 ≡ true }
    ensures not_below { is_below (Some 2) 2 ≡ false }
    ensures below_none { is_below None 2 ≡ true }
    // .. / took 1 +2 / arrived 2: client 7 has a job that runs
    ensures part { of_client one_at_limit 7 (entries one_at_limit) ≡ 1 ∷ 2 ∷ [] }
    ensures at_limit { has_room one_at_limit 7 ≡ false }
    ensures with_room { has_room one_at_limit 8 ≡ true }
    // before and after that take, and once the limit is raised or taken away
    ensures all_ready { ready three_queued ≡ 1 ∷ 2 ∷ 3 ∷ [] }
    ensures other_ready { ready one_at_limit ≡ 3 ∷ [] }
    ensures none_is_ready { ready none_ready ≡ [] }
    ensures queued { queue none_ready ≡ 2 ∷ [] }
    ensures ready_again { ready room_again ≡ 2 ∷ [] }
    ensures ready_by_raising { ready (none_ready ▸ moment (SetClientLimit (Some 2)) Pool None (ClientLimitSet (Some 2)) 3) ≡ 2 ∷ [] }
    ensures ready_without_limit { ready (none_ready ▸ moment (SetClientLimit None) Pool None (ClientLimitSet None) 3) ≡ 2 ∷ [] }
{}

/// The counts of workers, and the limit.
pub fn counts()
    // accepted 1 +1 / arrived 1 / accepted 2 / took 1 +2 / arrived 2
    ensures workers { workers two_workers ≡ 2 }
    ensures running { running two_workers ≡ 1 ∷ [] }
    ensures idle { idle two_workers ≡ 1 }
    // accepted 1 +1: a worker that hasn't arrived counts
    ensures unarrived { idle one_queued ≡ 1 }
    // .. / ended 1 done / stopped 1
    ensures stopped { workers (one_done
        ▸ moment (Late 1) (Worker 1) None (Stopped 1 TimedOut) 2) ≡ 0 }
    // .. / arrived 2 / limit 1 / stopped 2: over the limit, and before its time was up
    ensures stopped_over_limit { workers (two_workers
        ▸ moment (SetLimit 1) Pool None (LimitSet 1) 3
        ▸ moment (Wait 2) (Worker 2) None (Stopped 2 Woken) 3) ≡ 1 }
    // the setting's number, which isn't told before the first growth
    ensures setting { limit 4 [] ≡ 4 }
    ensures untold { known_limit 4 [] ≡ None }
    // accepted 1 +1
    ensures told { known_limit 4 one_queued ≡ Some 4 }
    // .. / ended 1 done
    ensures told_since { known_limit 4 one_done ≡ Some 4 }
    // limit 7
    ensures set { known_limit 4 ([] ▸ moment (SetLimit 7) Pool None (LimitSet 7) 1) ≡ Some 7 }
    // refused worker -1
    ensures left { known_limit 4 start_refused ≡ Some 1 }
    // accepted 1 +1 / .. / accepted 6 -2
    ensures lowered { known_limit 4 second_refused ≡ Some 1 }
    ensures unrefused { workers second_refused ≡ 1 }
{}
