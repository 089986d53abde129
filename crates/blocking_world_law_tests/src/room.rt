//! Room: how many jobs of a client run before and after a take and the end of a turn, by the contracts of the pool's calls.
ghost use Rattle.std.specs.Prelude.{◌≡◌, ◌≢◌, ◌≤◌, ◌+◌, ℕ, Some};
ghost use Rattle.std.specs.FinMap as map;
ghost use Rattle.blocking_pool.specs.Jobs.{JobNumber, job_of};
ghost use Rattle.blocking_pool.specs.PoolAnswers.{Takes, Ends};
ghost use Rattle.blocking_pool.specs.Pools.{Pool, IsSound};
ghost use Rattle.blocking_pool.specs.Ready.{client_of, running_of};
ghost use Rattle.blocking_pool.specs.Starters.{asked};
ghost use Rattle.blocking_pool.specs.declared.pool.answer.Finish.{Finish};
ghost use Rattle.blocking_pool.specs.declared.pool.answer.Gone.{Gone};
ghost use Rattle.blocking_pool.specs.declared.pool.answer.Gone.TheVariants.{Free};
ghost use Rattle.blocking_pool.specs.declared.pool.answer.Took.{Took};
ghost use Rattle.blocking_pool.specs.declared.pool.answer.Took.TheVariants.{Run, Drop};
ghost use Rattle.blocking_pool.specs.declared.pool.token.WorkerPass.{WorkerPass};

use blocking_pool::pool::{Job, Starter};

/// A take leaves no more jobs of its client running than the client limit says, whether its job is to be run or to be dropped.
/// Of another client as many run as before. So a take keeps what no client exceeds.
pub fn takes_within_limit<J: Job, S: Starter>()
    ensures run { (before after : S) (old : Pool J) (turn : JobNumber) (value : J) (new : Pool J) (most : ℕ) →
        Takes J.may_answer (asked S.Starter before after) old (Run turn value) new → old.client_limit ≡ Some most →
        running_of new.jobs (client_of (map.get new.jobs turn.serial)) new.next_serial ≤ most }
    ensures drop { (before after : S) (old : Pool J) (turn : JobNumber) (value : J) (new : Pool J) (most : ℕ) →
        Takes J.may_answer (asked S.Starter before after) old (Drop turn value) new → old.client_limit ≡ Some most →
        running_of new.jobs (client_of (map.get new.jobs turn.serial)) new.next_serial ≤ most }
    ensures run_beside { (before after : S) (old : Pool J) (turn : JobNumber) (value : J) (new : Pool J) (client : ℕ) →
        Takes J.may_answer (asked S.Starter before after) old (Run turn value) new → client ≢ client_of (map.get old.jobs turn.serial) →
        running_of new.jobs client new.next_serial ≡ running_of old.jobs client old.next_serial }
    ensures drop_beside { (before after : S) (old : Pool J) (turn : JobNumber) (value : J) (new : Pool J) (client : ℕ) →
        Takes J.may_answer (asked S.Starter before after) old (Drop turn value) new → client ≢ client_of (map.get old.jobs turn.serial) →
        running_of new.jobs client new.next_serial ≡ running_of old.jobs client old.next_serial }
    ensures kept { (before after : S) (old : Pool J) (took : Took J) (new : Pool J) (most client : ℕ) →
        Takes J.may_answer (asked S.Starter before after) old took new → old.client_limit ≡ Some most →
        running_of old.jobs client old.next_serial ≤ most → running_of new.jobs client new.next_serial ≤ most }
{}

/// The end of a turn frees at most one place, and that of its own job's client: where the worker gets free, just one. Of another client as many
/// run as before.
///
/// That is why an end notifies nobody: at most one job more may be taken, and the worker that is free now may take it.
pub fn ends_free_one<J: Job>()
    ensures no_more { (old : Pool J) (turn : JobNumber) (finish : Finish J) (gone : Gone J) (new : Pool J) (client : ℕ) →
        Ends J.may_answer old turn finish gone new →
        running_of new.jobs client new.next_serial ≤ running_of old.jobs client old.next_serial }
    ensures one_less { (old : Pool J) (turn : JobNumber) (finish : Finish J) (gone : Gone J) (new : Pool J) (client : ℕ) →
        Ends J.may_answer old turn finish gone new →
        running_of old.jobs client old.next_serial ≤ running_of new.jobs client new.next_serial + 1 }
    ensures freed { (old : Pool J) (turn : JobNumber) (finish : Finish J) (pass : WorkerPass) (new : Pool J) →
        IsSound old → Ends J.may_answer old turn finish (Free pass) new →
        running_of old.jobs (client_of (job_of old.jobs turn)) old.next_serial
        ≡ running_of new.jobs (client_of (job_of old.jobs turn)) new.next_serial + 1 }
    ensures beside { (old : Pool J) (turn : JobNumber) (finish : Finish J) (gone : Gone J) (new : Pool J) (client : ℕ) →
        Ends J.may_answer old turn finish gone new → client ≢ client_of (job_of old.jobs turn) →
        running_of new.jobs client new.next_serial ≡ running_of old.jobs client old.next_serial }
{}
