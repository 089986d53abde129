//! What every holder keeps, apart from what its calls do. Bodies are empty.
ghost use Rattle.std.specs.Prelude.{◌≡◌, ◌⊎◌, ◌||◌, ◌++◌, ◌∷◌, ℕ, true, List, [], length, None};
ghost use Rattle.blocking_pool.specs.Jobs.{JobNumber};
ghost use Rattle.blocking_world_laws.specs.JobTable.{has_finished, has_given_up};
ghost use Rattle.blocking_world_laws.specs.Jobs.{holder};
ghost use Rattle.blocking_world_laws.specs.OwnerSeats.{is_job_seated};
ghost use Rattle.blocking_world_laws.specs.OwnerWakes.{IsSessionOf};
ghost use Rattle.blocking_world_laws.specs.Seen.{own, acts_of};
ghost use Rattle.blocking_world_laws.specs.Sessions.{session};
ghost use Rattle.blocking_world_laws.specs.Wakes.{is_waiting, was_woken};
ghost use Rattle.blocking_world_laws.specs.declared.event.Event.{Event};
ghost use Rattle.blocking_world_laws.specs.declared.event.Moment.{Moment};
ghost use Rattle.blocking_world_holders.specs.Owners.{Owner, new_owner};
ghost use Rattle.blocking_world_holders.specs.OwnerSteps as of_owners;
ghost use Rattle.blocking_world_holders.specs.OwnerSteps.{OwnerStep, owner_after};
ghost use Rattle.blocking_world_holders.specs.OwnerTies.{OwnerAs, OwnersHold};
ghost use Rattle.blocking_world_holders.specs.Steps as of_tasks;
ghost use Rattle.blocking_world_holders.specs.Tasks.{Task, new_task};
ghost use Rattle.blocking_world_holders.specs.Ties.{TasksHold};

/// Whatever tasks and the jobs of their calls do, each keeps its laws, and hangs together with its cut. That is so after a step of one of
/// them, after the making of one, and after an event of none: one of no job, or of an owner's.
pub fn tasks()
    ensures aside { (row : List Task) (past : List Moment) (now : Moment) →
        of_tasks.IsAside now.event → TasksHold row past → TasksHold row (now ∷ past) }
    ensures beside { (row : List Task) (past : List Moment) (now : Moment) →
        of_tasks.IsBeside past now.event → TasksHold row past → TasksHold row (now ∷ past) }
    ensures born { (row : List Task) (past : List Moment) (now : Moment) (number : JobNumber) →
        of_tasks.MakesTask now.event number.serial → holder past number.serial ≡ None →
        TasksHold row past → TasksHold (row ++ new_task number ∷ []) (now ∷ past) }
    ensures stepped { (old new : List Task) (past : List Moment) (now : Moment) →
        of_tasks.TakesStep past old now.event new → TasksHold old past →
        TasksHold new (now ∷ past) }
{}

/// Whatever owners and the jobs of their sessions do, each keeps its laws, and hangs together with its cut, in the same three cases. It stays
/// of its client, whatever step it takes. An owner that waits in a session whose job is over, or sits in its own seat, was woken.
pub fn owners()
    ensures aside { (row : List Owner) (past : List Moment) (now : Moment) →
        of_owners.IsAside past now.event → OwnersHold row past → OwnersHold row (now ∷ past) }
    ensures born { (row : List Owner) (past : List Moment) (now : Moment) (capacity client : ℕ) →
        of_owners.MakesOwner now.event (length row) capacity → OwnersHold row past →
        OwnersHold (row ++ new_owner capacity client ∷ []) (now ∷ past) }
    ensures stepped { (old new : List Owner) (past : List Moment) (now : Moment) →
        of_owners.TakesStep past old now.event new → OwnersHold old past →
        OwnersHold new (now ∷ past) }
    ensures steady { (step : OwnerStep) (owner : Owner) → (owner_after step owner).client ≡ owner.client }
    ensures told { (owner : Owner) (cut : List Event) (s : ℕ) → OwnerAs owner cut →
        IsSessionOf (session (own cut)) s → is_waiting (own cut) ≡ true →
        (has_finished (acts_of s cut) || has_given_up (acts_of s cut) ≡ true) ⊎ (is_job_seated cut ≡ true) →
        was_woken cut ≡ true }
{}
