//! Growth: which starts there are.
ghost use Rattle.std.specs.Prelude.{◌≡◌, ℕ, Bool, List, [], ◌∷◌, Some, None, true, false};
ghost use Rattle.blocking_pool.specs.declared.pool.answer.Refusal.TheVariants.{Memory, NoWorker};
ghost use Rattle.blocking_pool.specs.declared.pool.standing.Standing.TheVariants.{Queued};
ghost use Rattle.blocking_pool.specs.declared.pool.answer.Woke.TheVariants.{Entered};
ghost use Rattle.blocking_world_laws.specs.Jobs.{client_of_step};
ghost use Rattle.blocking_world_laws.specs.Growth.{GrowthLaw, turned_away};
ghost use Rattle.blocking_world_laws.specs.Served.{IsServed, last_refused};
ghost use Rattle.blocking_world_laws.specs.Legal.{Legal};
ghost use Rattle.blocking_world_laws.specs.Traces.{◌▸◌, moment, starting, refusing, Refuses, Keeps, IsPooled};
ghost use Rattle.blocking_world_laws.specs.Traces.{one_queued, one_arrived, two_queued, five_queued, start_refused};
ghost use Rattle.blocking_world_laws.specs.Traces.{three_queued, one_at_limit, none_ready};
ghost use Rattle.blocking_world_laws.specs.Traces.{still_unstaffed, second_refused, raised_limit, unstaffed_parked, unstaffed_dropped, front_dropped};
ghost use Rattle.blocking_world_laws.specs.declared.event.Moment.{Moment};
ghost use Rattle.blocking_world_laws.specs.declared.event.Act.TheVariants.{Accepted, Refused, JobWoken, JobCancelled, ClientLimitSet, Swept, Arrived, Took, TookDropped, Ended, NoAction};
ghost use Rattle.blocking_world_laws.specs.declared.event.Party.TheVariants.{Worker, Pool};
ghost use Rattle.blocking_world_laws.specs.declared.step.Step.TheVariants.{Spawn, Arrive, Take, End, Sweep, Stray, Strike, SetClientLimit};

/// What is due at a new job is started, once, and no more, and starts are numbered on.
pub fn starts_at_new_jobs()
    // accepted 1 +1
    ensures accepts_first_job { Legal 1 [] one_queued }
    // accepted 1 +1 / .. / accepted 5 / accepted 6 +2: six jobs beside one idle worker
    ensures accepts_sixth_job { Legal 2 [] (five_queued
        ▸ starting 1 (moment (Spawn 0) Pool None (Accepted 6) 2)) }
    // accepted 1 +1 / arrived 1 / accepted 2 +2: two jobs beside one idle worker
    ensures refuses_start_not_due { Refuses (GrowthLaw 2 []) one_arrived
        (starting 1 (moment (Spawn 0) Pool None (Accepted 2) 2)) }
    // accepted 1 +1 +2: one job beside one idle worker, once that is started
    ensures refuses_start_twice { Refuses (GrowthLaw 2 []) []
        (starting 2 (moment (Spawn 0) Pool None (Accepted 1) 1)) }
{}

/// What is due at a take is started, by the jobs that it leaves, and no more.
pub fn starts_at_takes()
    // accepted 1 +1 / arrived 1 / accepted 2 / took 1 +2: one job beside no idle worker
    ensures accepts_start_at_take { Legal 2 [] (two_queued
        ▸ starting 1 (moment (Take 1) (Worker 1) (Some 1) (Took 1) 2)) }
    // accepted 1 +1 / arrived 1 / accepted 2 / dropped (of job 1) / took 1 dropped +2
    ensures accepts_start_at_drop { Legal 2 [] (front_dropped
        ▸ starting 1 (moment (Take 1) (Worker 1) (Some 1) (TookDropped 1) 2)) }
    // accepted 1 +1 / arrived 1 / accepted 2 / dropped (of job 1) / took 1 dropped, at limit 2
    ensures refuses_start_left_out_at_drop { Refuses (GrowthLaw 2 []) front_dropped
        (moment (Take 1) (Worker 1) (Some 1) (TookDropped 1) 2) }
    // accepted 1 +1 / arrived 1 / accepted 2 / took 1 +2, at limit 1
    ensures refuses_start_past_limit { Refuses (GrowthLaw 1 []) two_queued
        (starting 1 (moment (Take 1) (Worker 1) (Some 1) (Took 1) 2)) }
{}

/// What is due where a job is put back is started by a sweep, a wake or a cancel, and not by the end of a turn.
pub fn starts_where_jobs_go_back()
    // .. / ended 1 parked / stopped 1 / dropped / swept 1 +2
    ensures accepts_start_at_sweep { IsPooled 1 [] (unstaffed_dropped
        ▸ starting 1 (moment Sweep Pool None (Swept 1) 2)) }
    // .. / ended 1 parked / stopped 1 / dropped / cancelled 1 entered +2
    ensures accepts_start_at_cancel { IsPooled 1 [] (unstaffed_dropped
        ▸ starting 1 (moment (Strike 1) Pool None (JobCancelled 1 Entered) 2)) }
    // .. / delivered 1 marked / parked / ended 1 queued: six jobs beside one idle worker, below the limit
    ensures accepts_queuing_again_without_growth { IsPooled 1 [] (raised_limit
        ▸ moment (End 1) (Worker 1) (Some 1) (Ended 1 Queued) 2) }
    // .. / ended 1 parked / stopped 1 / dropped / swept 1
    ensures refuses_start_left_out_at_sweep { Refuses (GrowthLaw 1 []) unstaffed_dropped
        (moment Sweep Pool None (Swept 1) 2) }
    // .. / ended 1 parked / stopped 1 / dropped / cancelled 1 entered
    ensures refuses_start_left_out_at_cancel { Refuses (GrowthLaw 1 []) unstaffed_dropped
        (moment (Strike 1) Pool None (JobCancelled 1 Entered) 2) }
{}

/// A growth counts the ready jobs: those of a client at its limit call for no worker, nor does a refused job of such a client.
pub fn starts_for_ready_jobs()
    // clients 1 / accepted 1 +1 / accepted 2 / accepted 3 / arrived 1 / took 1 +2: job 3 is ready
    ensures accepts_start_for_ready { Legal 4 [] one_at_limit }
    // .. / took 1 +2 / arrived 2 / took 3: job 2 isn't
    ensures accepts_no_start_for_unready { GrowthLaw 4 [] one_at_limit
        (moment (Take 2) (Worker 2) (Some 3) (Took 3) 3) }
    // .. / took 1 +2 / arrived 2 / took 3 +3
    ensures refuses_start_for_unready { Refuses (GrowthLaw 4 []) one_at_limit
        (starting 1 (moment (Take 2) (Worker 2) (Some 3) (Took 3) 3)) }
    // clients 1 / accepted 1 +1 / accepted 2 / accepted 3 / arrived 1 / took 1
    ensures refuses_start_left_out { Refuses (GrowthLaw 4 []) three_queued
        (moment (Take 1) (Worker 1) (Some 1) (Took 1) 2) }
    // .. / ended 3 done / .. / clients 2 +3: a limit that is raised makes jobs ready, and the pool doesn't grow for that
    ensures refuses_growth_by_raising { Refuses (GrowthLaw 4 []) none_ready
        (starting 1 (moment (SetClientLimit (Some 2)) Pool None (ClientLimitSet (Some 2)) 3)) }
    // the refused job of a client at its limit, and of one that has room
    ensures turned_away_at_limit { turned_away one_at_limit (moment (Spawn 7) Pool None (Refused NoWorker) 3) (Refused NoWorker) ≡ 0 }
    ensures turned_away_with_room { turned_away one_at_limit (moment (Spawn 8) Pool None (Refused NoWorker) 3) (Refused NoWorker) ≡ 1 }
    ensures none_turned_away { turned_away one_at_limit (moment (Spawn 8) Pool None (Refused Memory) 3) (Refused Memory) ≡ 0 }
{}

/// The law of growth leaves one answer alone. By what was seen before, what was done, and the client of a job that came with it, the
/// starts are known.
pub fn one_growth()
    ensures { (setting : ℕ) (plan : List Bool) (past : List Moment) (now other : Moment) →
        client_of_step past now.step ≡ client_of_step past other.step → now.event.act ≡ other.event.act →
        GrowthLaw setting plan past now → GrowthLaw setting plan past other →
        (now.event.first ≡ other.event.first) × (now.event.started ≡ other.event.started)
        × (now.event.start_refused ≡ other.event.start_refused) }
{}

/// A refused start is told where one is due and refused, is no worker, uses its number up and lowers the limit.
pub fn refused_starts()
    // refused worker -1 / nothing / accepted 1 +2
    ensures accepts_next_try { Legal 1 (true ∷ []) (still_unstaffed
        ▸ starting 1 (moment (Spawn 0) Pool None (Accepted 1) 2)) }
    // accepted 1 +1 / .. / accepted 6 -2 / accepted 7: the limit is 1 now
    ensures accepts_lowered_limit { Legal 3 (false ∷ true ∷ []) (second_refused
        ▸ moment (Spawn 0) Pool None (Accepted 7) 3) }
    // refused worker -1 / nothing / accepted 1: the refused start stays counted as a worker
    ensures refuses_refused_worker { Refuses (GrowthLaw 1 (true ∷ [])) still_unstaffed
        (moment (Spawn 0) Pool None (Accepted 1) 2) }
    // refused worker -1 / nothing / accepted 1 +1: the refused start's number is given again
    ensures refuses_number_again { Refuses (GrowthLaw 1 (true ∷ [])) still_unstaffed
        (starting 1 (moment (Spawn 0) Pool None (Accepted 1) 1)) }
    // accepted 1 +1 / .. / accepted 6 -2 / accepted 7 +3: the limit is forgotten that the refused start left
    ensures refuses_forgotten_limit { Refuses (GrowthLaw 3 (false ∷ true ∷ [])) second_refused
        (starting 1 (moment (Spawn 0) Pool None (Accepted 7) 3)) }
    // accepted 1 +1, where start 1 is to be refused
    ensures refuses_start_despite_plan { Refuses (GrowthLaw 1 (true ∷ [])) []
        (starting 1 (moment (Spawn 0) Pool None (Accepted 1) 1)) }
    // accepted 1 +1 / .. / accepted 5 / accepted 6 -2, where no start is to be refused
    ensures refuses_refusal_without_plan { Refuses (GrowthLaw 3 []) five_queued
        (refusing (moment (Spawn 0) Pool None (Accepted 6) 2)) }
{}

/// A new job is accepted only where a worker is counted after its growth, and refused for want of one only where none is. Want of
/// memory may be told in either case.
pub fn staffed_jobs()
    // refused worker -1
    ensures accepts_refusal { Legal 1 (true ∷ []) start_refused }
    // refused memory, where start 1 would be refused
    ensures accepts_want_of_memory { Legal 1 (true ∷ [])
        ([] ▸ moment (Spawn 0) Pool None (Refused Memory) 1) }
    // accepted 1 +1 / refused memory
    ensures accepts_want_of_memory_beside_worker { Legal 1 [] (one_queued
        ▸ moment (Spawn 0) Pool None (Refused Memory) 2) }
    // accepted 1 -1
    ensures refuses_job_without_worker { Refuses (GrowthLaw 1 (true ∷ [])) []
        (refusing (moment (Spawn 0) Pool None (Accepted 1) 1)) }
{}

/// Where jobs are queued and no worker is left, the last start that was tried was refused.
pub fn service()
    // .. / ended 1 parked / stopped 1 / delivered 1 entered -2
    ensures accepts_refused_start { IsServed (unstaffed_parked
        ▸ refusing (moment (Stray 1) Pool None (JobWoken 1 Entered) 2)) }
    // refused worker -1 / nothing / accepted 1 +2: the last start was made
    ensures last_was_made { last_refused (still_unstaffed
        ▸ starting 1 (moment (Spawn 0) Pool None (Accepted 1) 2)) ≡ false }
    // accepted 1 +1 -2: one start was made, and then one was refused
    ensures last_was_refused { last_refused ([]
        ▸ refusing (starting 1 (moment (Spawn 0) Pool None (Accepted 1) 1))) ≡ true }
    ensures accepts_refused_start_in_pool { IsPooled 1 (false ∷ true ∷ []) (unstaffed_parked
        ▸ refusing (moment (Stray 1) Pool None (JobWoken 1 Entered) 2)) }
    // .. / ended 1 parked / stopped 1 / delivered 1 entered +2
    ensures accepts_start { IsPooled 1 [] (unstaffed_parked
        ▸ starting 1 (moment (Stray 1) Pool None (JobWoken 1 Entered) 2)) }
    // .. / ended 1 parked / stopped 1 / delivered 1 entered: nobody is left to take the job
    ensures refuses_nobody { Refuses (Keeps IsServed) unstaffed_parked
        (moment (Stray 1) Pool None (JobWoken 1 Entered) 2) }
    // the law of growth refuses it too, where the limit is above 0 and so a start is due
    ensures refuses_start_left_out { Refuses (GrowthLaw 1 []) unstaffed_parked
        (moment (Stray 1) Pool None (JobWoken 1 Entered) 2) }
    ensures growth_accepts_it_at_limit_0 { GrowthLaw 0 [] unstaffed_parked
        (moment (Stray 1) Pool None (JobWoken 1 Entered) 2) }
{}
