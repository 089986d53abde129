//! What holds of the jobs that are ready: laws over the contracts of the pool's calls. No function here does anything.
ghost use Rattle.std.specs.Prelude.{◌≡◌, ◌+◌, ℕ, Bool, Option, Some, None, Result, length};
ghost use Rattle.std.specs.FinMap as map;
ghost use Rattle.blocking_pool.specs.Jobs.{JobNumber};
ghost use Rattle.blocking_pool.specs.Lists.{first_of};
ghost use Rattle.blocking_pool.specs.PoolAnswers.{Adds, Takes, Wakes, Cancels, Sweeps, Waits};
ghost use Rattle.blocking_pool.specs.Pools.{Pool, IsSound, ready, ready_with, SetsClientLimit};
ghost use Rattle.blocking_pool.specs.Ready.{client_of, of_client};
ghost use Rattle.blocking_pool.specs.ReadyLaws.{MakesNoneReady, RingsForReady, RingsAllForReady};
ghost use Rattle.blocking_pool.specs.Starters.{asked};
ghost use Rattle.blocking_pool.specs.declared.pool.answer.Refused.{Refused};
ghost use Rattle.blocking_pool.specs.declared.pool.answer.Took.{Took};
ghost use Rattle.blocking_pool.specs.declared.pool.answer.Waited.{Waited};
ghost use Rattle.blocking_pool.specs.declared.pool.answer.Woke.{Woke};

use crate::pool::job::Job;
use crate::pool::starter::Starter;

/// Where no client limit is set, each queued job is ready. So it is where no worker is left, since then no job runs.
pub fn all_ready<J>()
    ensures unlimited { (pool : Pool J) → pool.client_limit ≡ None → ready pool ≡ pool.queue }
    ensures unstaffed { (pool : Pool J) → IsSound pool → pool.counts.workers ≡ 0 → ready pool ≡ pool.queue }
    ensures new_unstaffed { (pool : Pool J) (client : ℕ) → IsSound pool → pool.counts.workers ≡ 0 →
        ready_with pool client ≡ length pool.queue + 1 }
{}

/// The jobs of one client are taken in the order in which they entered: the first job that is ready is the first of its
/// client's queued jobs.
pub fn order_of_each_client<J>()
    ensures { (pool : Pool J) (serial : ℕ) → first_of (ready pool) ≡ Some serial →
        first_of (of_client pool.jobs (client_of (map.get pool.jobs serial)) pool.queue) ≡ Some serial }
{}

/// A take makes no job ready that wasn't: one job more of its client runs.
pub fn takes_make_none_ready<J: Job, S: Starter>()
    ensures { (before after : S) (old : Pool J) (took : Took J) (new : Pool J) →
        Takes J.may_answer (asked S.Starter before after) old took new → MakesNoneReady old new }
{}

/// Each call that makes a job ready that wasn't notifies a worker, but for the end of a turn, whose worker is free to take
/// the job. Where a client limit rises, all workers are notified.
pub fn rings_where_jobs_get_ready<J: Job, S: Starter>()
    ensures adds { (before after : S) (old : Pool J) (client : ℕ) (value : J) (answer : Result JobNumber (Refused J)) (new : Pool J) →
        Adds (asked S.Starter before after) old client value answer new → RingsForReady old new }
    ensures wakes { (before after : S) (old : Pool J) (number : JobNumber) (woke : Woke) (new : Pool J) →
        Wakes (asked S.Starter before after) old number woke new → RingsForReady old new }
    ensures cancels { (before after : S) (old : Pool J) (number : JobNumber) (woke : Woke) (new : Pool J) →
        Cancels (asked S.Starter before after) old number woke new → RingsForReady old new }
    ensures sweeps { (before after : S) (old : Pool J) (count : ℕ) (new : Pool J) →
        Sweeps J.may_answer (asked S.Starter before after) old count new → RingsForReady old new }
    ensures waits { (before after : S) (timed_out : Bool) (old : Pool J) (waited : Waited) (new : Pool J) →
        Waits J.may_answer (asked S.Starter before after) timed_out old waited new → RingsForReady old new }
    ensures client_limits { (limit : Option ℕ) (old new : Pool J) →
        SetsClientLimit limit old new → RingsAllForReady old new }
{}
