//! What holds of every past that keeps the laws, whatever was seen.
ghost use Rattle.std.specs.Prelude.{◌≡◌, ◌↔◌, ℕ, ◌<◌, ◌-◌, ◌++◌, length, reverse, List, [], Bool, true, Option, Some, None, IfSome};
ghost use Rattle.blocking_pool.specs.Lists.{first_of};
ghost use Rattle.blocking_world_laws.specs.Jobs.{standing, is_queued, is_running};
ghost use Rattle.blocking_world_laws.specs.Queue.{AreThose, InOrder, NeverLimited, entries, takes, queue, running, of_client, client_limit, ready};
ghost use Rattle.blocking_world_laws.specs.Steps.{is_take, job_taken};
ghost use Rattle.blocking_world_laws.specs.Legal.{Legal, IsLegalThroughout};
ghost use Rattle.blocking_world_laws.specs.Behind.{AllWriteBehind};
ghost use Rattle.blocking_world_laws.specs.Seen.{IsBeginning, cut};
ghost use Rattle.blocking_world_laws.specs.Solo.{AreIndependent};
ghost use Rattle.blocking_world_laws.specs.Traces.{◌▸◌, IsPooled};
ghost use Rattle.blocking_world_laws.specs.declared.event.Act.TheVariants.{ClientLimitSet, TookNone};
ghost use Rattle.blocking_world_laws.specs.declared.event.Event.{Event};
ghost use Rattle.blocking_world_laws.specs.declared.event.Moment.{Moment};

/// A past is legal exactly where the laws hold at every beginning of it. `Legal` says so step by step: each moment may follow
/// those before it.
pub fn beginnings()
    ensures both_forms { (setting : ℕ) (plan : List Bool) (past : List Moment) →
        Legal setting plan past ↔ IsLegalThroughout setting plan past }
    ensures each_beginning { (setting : ℕ) (plan : List Bool) (past : List Moment) (now : Moment) →
        Legal setting plan (past ▸ now) → Legal setting plan past }
{}

/// Of each client the order of entry is its takes and then its part of the queue. The queue and the running jobs are those that
/// stand so, each once. This holds of each trace that keeps the pool's law, as each legal one does.
pub fn queue_and_running()
    ensures entered { (setting : ℕ) (plan : List Bool) (past : List Moment) →
        IsPooled setting plan past → (c : ℕ) →
        of_client past c (entries past) ≡ of_client past c (takes past) ++ of_client past c (queue past) }
    ensures count { (setting : ℕ) (plan : List Bool) (past : List Moment) →
        IsPooled setting plan past →
        length (queue past) ≡ length (entries past) - length (takes past) }
    ensures queued { (setting : ℕ) (plan : List Bool) (past : List Moment) →
        IsPooled setting plan past →
        AreThose (λ s. is_queued (standing past s)) (queue past) }
    ensures running { (setting : ℕ) (plan : List Bool) (past : List Moment) →
        IsPooled setting plan past →
        AreThose (λ s. is_running (standing past s)) (running past) }
{}

/// Each client's jobs are taken in the order in which they entered. A take gives the first queued job whose client has room, and leaves the
/// worker idle exactly where there is none.
pub fn taking()
    ensures in_order { (setting : ℕ) (plan : List Bool) (past : List Moment) → IsPooled setting plan past → InOrder past }
    ensures first { (setting : ℕ) (plan : List Bool) (past : List Moment) (now : Moment) →
        IsPooled setting plan (past ▸ now) → (s : ℕ) → job_taken now.event.act ≡ Some s → first_of (ready past) ≡ Some s }
    ensures idle { (setting : ℕ) (plan : List Bool) (past : List Moment) (now : Moment) →
        IsPooled setting plan (past ▸ now) → is_take now.event.act ≡ true →
        now.event.act ≡ TookNone ↔ ready past ≡ [] }
{}

/// The client limit is the one that was told last; before one was told there is none.
pub fn limits_of_clients()
    ensures none { client_limit [] ≡ None }
    ensures told { (past : List Moment) (now : Moment) (limit : Option ℕ) → now.event.act ≡ ClientLimitSet limit → client_limit (past ▸ now) ≡ limit }
    ensures kept { (past : List Moment) (now : Moment) →
        ((limit : Option ℕ) → now.event.act ≡ ClientLimitSet limit → ⊥) → client_limit (past ▸ now) ≡ client_limit past }
{}

/// Where no client limit is set each queued job is ready, and so it is where no job runs. Where none was ever set jobs are taken in the order
/// in which they entered, whatever their clients.
pub fn unlimited()
    ensures all_ready { (past : List Moment) → client_limit past ≡ None → ready past ≡ queue past }
    ensures ready_beside_none { (past : List Moment) → running past ≡ [] → IfSome (client_limit past) (λ n. 0 < n) → ready past ≡ queue past }
    ensures entered { (setting : ℕ) (plan : List Bool) (past : List Moment) →
        IsPooled setting plan past → NeverLimited past →
        entries past ≡ takes past ++ queue past }
    ensures in_order { (setting : ℕ) (plan : List Bool) (past : List Moment) →
        IsPooled setting plan past → NeverLimited past →
        IsBeginning (takes past) (entries past) }
{}

/// Of what an owner wrote no more waits for its writer than the pipe holds. (Of what a handle gave no more waits for its owner, by the law of
/// each owner itself.)
pub fn writing_behind()
    ensures { (setting : ℕ) (plan : List Bool) (past : List Moment) → Legal setting plan past → AllWriteBehind past }
{}

/// What an owner sees rests on itself and on its own jobs. Where no new job was refused, the cut of each owner keeps that owner's laws,
/// which name no other.
///
/// A cut keeps the order: what is cut of events with the oldest first, as worlds tell them, is in reverse what is cut of the past.
pub fn independence()
    ensures solo { (setting : ℕ) (plan : List Bool) (past : List Moment) → Legal setting plan past → AreIndependent past }
    ensures either_order { (h : ℕ) (seen : List Event) → cut h (reverse seen) ≡ reverse (cut h seen) }
{}
