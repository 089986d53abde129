//! Legality as a whole.
ghost use Rattle.std.specs.Prelude.{◌≡◌, ◌||◌, ℕ, List, Bool, [], ◌∷◌, Some, None, true, false};
ghost use Rattle.blocking_world_laws.specs.Seen.{is_by_task, is_of_job, is_in_cut};
ghost use Rattle.blocking_world_laws.specs.Jobs.{holder};
ghost use Rattle.blocking_world_laws.specs.Queue.{InOrder, client_limit};
ghost use Rattle.blocking_world_laws.specs.Growth.{GrowthLaw};
ghost use Rattle.blocking_world_laws.specs.Turns.{TurnLaw};
ghost use Rattle.blocking_world_laws.specs.Answers.{AnswerLaw};
ghost use Rattle.blocking_world_laws.specs.Copies.{CopyLaw};
ghost use Rattle.blocking_world_laws.specs.Wakes.{NoLostWake};
ghost use Rattle.blocking_world_laws.specs.OwnerWakes.{NoLostOwnerWake};
ghost use Rattle.blocking_world_laws.specs.Served.{IsServed};
ghost use Rattle.blocking_world_laws.specs.Staffed.{IsStaffedAsSeen};
ghost use Rattle.blocking_world_laws.specs.Steps.{StepLaw, is_pool_step, is_out_of_memory};
ghost use Rattle.blocking_world_laws.specs.Legal.{Legal, PoolLaw};
ghost use Rattle.blocking_world_laws.specs.Traces.{◌▸◌, moment, starting, Refuses, Keeps, IsPooled, LawOfTask, start_refused, room_again};
ghost use Rattle.blocking_world_laws.specs.OwnerTraces.{LawOfOwner, EndsOfOwner, OwnerPasses};
ghost use Rattle.blocking_world_laws.specs.declared.event.Moment.{Moment};
ghost use Rattle.blocking_world_laws.specs.declared.event.Act.TheVariants.{Accepted, TaskGot, Arrived, Took, Stopped, Ended, Answered, Finished, NoAction};
ghost use Rattle.blocking_world_laws.specs.declared.event.Party.TheVariants.{Task, Worker, Pool};
ghost use Rattle.blocking_world_laws.specs.declared.event.HolderWaker.TheVariants.{Absent};
ghost use Rattle.blocking_world_laws.specs.declared.event.WaitEnd.TheVariants.{TimedOut};
ghost use Rattle.blocking_world_laws.specs.declared.step.HandleAnswer.TheVariants.{Number};
ghost use Rattle.blocking_world_laws.specs.declared.step.Step.TheVariants.{Spawn, OfTask, Arrive, Take, Job, Io, End, Late};
ghost use Rattle.blocking_world_laws.specs.declared.step.TaskCall.TheVariants.{Poll};
ghost use Rattle.blocking_pool.specs.declared.pool.standing.Standing.TheVariants.{Done};

/// A step has one event: whatever differs from it in anything is refused. The laws leave one thing open, whether there is
/// memory for a new job.
pub fn one_event()
    // after a legal past, by all the laws
    ensures everywhere { (setting : ℕ) (plan : List Bool) (past : List Moment) (now other : Moment) →
        now.step ≡ other.step → is_out_of_memory now.event.act ≡ is_out_of_memory other.event.act →
        Legal setting plan (past ▸ now) → Legal setting plan (past ▸ other) →
        now.event ≡ other.event }
    // at the pool, by the laws of steps and of the pool alone
    ensures at_pool { (setting : ℕ) (plan : List Bool) (past : List Moment) (now other : Moment) →
        IsPooled setting plan past →
        now.step ≡ other.step → is_pool_step now.step ≡ true →
        is_out_of_memory now.event.act ≡ false → is_out_of_memory other.event.act ≡ false →
        StepLaw past now → StepLaw past other →
        PoolLaw setting plan past now → PoolLaw setting plan past other →
        now.event ≡ other.event }
    // and where no client limit is set so it is after any past
    ensures at_unlimited_pool { (setting : ℕ) (plan : List Bool) (past : List Moment) (now other : Moment) →
        client_limit past ≡ None →
        now.step ≡ other.step → is_pool_step now.step ≡ true →
        is_out_of_memory now.event.act ≡ false → is_out_of_memory other.event.act ≡ false →
        StepLaw past now → StepLaw past other →
        PoolLaw setting plan past now → PoolLaw setting plan past other →
        now.event ≡ other.event }
{}

/// What one law refuses is in no legal trace.
pub fn refusals()
    ensures by_step { (setting : ℕ) (plan : List Bool) (past : List Moment) (now : Moment) →
        Refuses StepLaw past now → Legal setting plan (past ▸ now) → ⊥ }
    ensures by_growth { (setting : ℕ) (plan : List Bool) (past : List Moment) (now : Moment) →
        Refuses (GrowthLaw setting plan) past now → Legal setting plan (past ▸ now) → ⊥ }
    ensures by_answer { (setting : ℕ) (plan : List Bool) (past : List Moment) (now : Moment) →
        Refuses (AnswerLaw setting) past now → Legal setting plan (past ▸ now) → ⊥ }
    ensures by_turn { (setting : ℕ) (plan : List Bool) (past : List Moment) (now : Moment) →
        Refuses TurnLaw past now → Legal setting plan (past ▸ now) → ⊥ }
    ensures by_order { (setting : ℕ) (plan : List Bool) (past : List Moment) (now : Moment) →
        Refuses (Keeps InOrder) past now → Legal setting plan (past ▸ now) → ⊥ }
    ensures by_wake { (setting : ℕ) (plan : List Bool) (past : List Moment) (now : Moment) →
        Refuses (Keeps NoLostWake) past now → Legal setting plan (past ▸ now) → ⊥ }
    ensures by_owner_wake { (setting : ℕ) (plan : List Bool) (past : List Moment) (now : Moment) →
        Refuses (Keeps NoLostOwnerWake) past now → Legal setting plan (past ▸ now) → ⊥ }
    ensures by_service { (setting : ℕ) (plan : List Bool) (past : List Moment) (now : Moment) →
        Refuses (Keeps IsServed) past now → Legal setting plan (past ▸ now) → ⊥ }
    ensures by_copy { (setting : ℕ) (plan : List Bool) (past : List Moment) (now : Moment) →
        Refuses CopyLaw past now → Legal setting plan (past ▸ now) → ⊥ }
    ensures by_staffing { (setting : ℕ) (plan : List Bool) (past : List Moment) (now : Moment) →
        Refuses (Keeps IsStaffedAsSeen) past now → Legal setting plan (past ▸ now) → ⊥ }
    // an event of this owner or of its job
    ensures by_owner { (setting : ℕ) (plan : List Bool) (past : List Moment) (now : Moment) →
        (h : ℕ) → is_in_cut h now.event ≡ true →
        Refuses (LawOfOwner h) past now → Legal setting plan (past ▸ now) → ⊥ }
    // one that tells an end which isn't one
    ensures by_ends { (setting : ℕ) (plan : List Bool) (past : List Moment) (now : Moment) →
        (h : ℕ) → is_in_cut h now.event ≡ true →
        Refuses (EndsOfOwner h) past now → Legal setting plan (past ▸ now) → ⊥ }
    // one after which what passed is no beginning of what was given
    ensures by_passing { (setting : ℕ) (plan : List Bool) (past : List Moment) (now : Moment) →
        (h : ℕ) → is_in_cut h now.event ≡ true →
        Refuses (Keeps (OwnerPasses h)) past now → Legal setting plan (past ▸ now) → ⊥ }
    // an event of this task or of its job
    ensures by_task { (setting : ℕ) (plan : List Bool) (past : List Moment) (now : Moment) →
        (k s : ℕ) → holder (past ▸ now) s ≡ Some (Task k) →
        (is_by_task k now.event || is_of_job s now.event) ≡ true →
        Refuses (LawOfTask k s) past now → Legal setting plan (past ▸ now) → ⊥ }
{}

/// Whole calls, from the first step to the last.
pub fn calls()
    // accepted 1 +1 / arrived 1 / took 1 / answered 5 / finished / ended 1 done / got 5 / stopped 1
    ensures accepts_call { Legal 4 [] ([]
        ▸ starting 1 (moment (Spawn 0) Pool None (Accepted 1) 1)
        ▸ moment Arrive (Worker 1) None (Arrived 1) 2
        ▸ moment (Take 1) (Worker 1) (Some 1) (Took 1) 2
        ▸ moment (Io 1 (Number 5)) (Worker 1) (Some 1) (Answered (Number 5)) 2
        ▸ moment (Job 1) (Worker 1) (Some 1) (Finished Absent) 2
        ▸ moment (End 1) (Worker 1) (Some 1) (Ended 1 Done) 2
        ▸ moment (OfTask 0 Poll) (Task 0) None (TaskGot 5) 2
        ▸ moment (Late 1) (Worker 1) None (Stopped 1 TimedOut) 2) }
    // refused worker -1 / accepted 1 +2 / arrived 1 / took 1 / answered 5 / finished / ended 1 done / got 5 / nothing /
    // stopped 1
    ensures accepts_call_after_refused_start { Legal 500 (true ∷ []) (start_refused
        ▸ starting 1 (moment (Spawn 0) Pool None (Accepted 1) 2)
        ▸ moment Arrive (Worker 1) None (Arrived 1) 3
        ▸ moment (Take 1) (Worker 1) (Some 1) (Took 1) 3
        ▸ moment (Io 1 (Number 5)) (Worker 1) (Some 1) (Answered (Number 5)) 3
        ▸ moment (Job 1) (Worker 1) (Some 1) (Finished Absent) 3
        ▸ moment (End 1) (Worker 1) (Some 1) (Ended 1 Done) 3
        ▸ moment (OfTask 0 Poll) (Task 0) None (TaskGot 5) 3
        ▸ moment (Take 2) (Worker 2) None NoAction 3
        ▸ moment (Late 1) (Worker 1) None (Stopped 1 TimedOut) 3) }
    // clients 1 / accepted 1 +1 / accepted 2 / accepted 3 / arrived 1 / took 1 +2 / arrived 2 / took 3 / .. / ended 3 done / .. /
    // ended 1 done / took 2: jobs 1 and 2 are of one client, job 3 of another
    ensures accepts_calls_of_clients { Legal 4 [] (room_again ▸ moment (Take 1) (Worker 1) (Some 2) (Took 2) 3) }
{}
