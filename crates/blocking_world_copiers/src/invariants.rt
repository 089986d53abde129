//! What all assemblies keep, apart from what their steps do. Bodies are empty.
ghost use Rattle.std.specs.Prelude.{◌≡◌, ◌<◌, ◌≤◌, ℕ, Bool, List, [], ◌∷◌, length};
ghost use Rattle.blocking_pool.specs.Pools.{empty_pool};
ghost use Rattle.blocking_world_laws.specs.Growth.{IsPlanned};
ghost use Rattle.blocking_world_laws.specs.Legal.{Legal};
ghost use Rattle.blocking_world_laws.specs.declared.event.Event.{Event};
ghost use Rattle.blocking_world_laws.specs.declared.event.Moment.{Moment};
ghost use Rattle.blocking_world_laws.specs.declared.step.Step.{Step};
ghost use Rattle.blocking_world_state.specs.Carried.{bytes_of};
ghost use Rattle.blocking_world_copiers.specs.Assemblies.{Assembled, Does, bytes_to_come};
ghost use Rattle.blocking_world_copiers.specs.Ties.{IsLawful};

/// Whatever step a lawful assembly takes, by the starts of a plan, it stays lawful, and its setting stays. The moment of the step is added
/// to what was seen. The event carries no more bytes than were announced before the step, of a lawful assembly or another.
pub fn each_step()
    ensures lawful { (setting : ℕ) (plan : List Bool) (w new : Assembled) (past : List Moment)
        (step : Step) (e : Event) → IsLawful setting plan w past →
        Does (IsPlanned plan) step w e new →
        IsLawful setting plan new (record { step = step; event = e } ∷ past) }
    ensures setting { (setting : ℕ) (plan : List Bool) (w new : Assembled) (past : List Moment)
        (step : Step) (e : Event) → IsLawful setting plan w past →
        Does (IsPlanned plan) step w e new → new.parts.crew.pool.counts.setting ≡ setting }
    ensures carried { (plan : List Bool) (w new : Assembled) (step : Step) (e : Event) →
        Does (IsPlanned plan) step w e new → length (bytes_of e.act) ≤ bytes_to_come w step }
{}

/// A new assembly is lawful where nothing was seen, if its setting is above 0. What was seen of a lawful one is legal.
pub fn beginnings()
    ensures assembly { (setting : ℕ) (plan : List Bool) (w : Assembled) →
        w ≡ record {
          parts = record {
            crew = record { pool = empty_pool setting 1 1; hands = [] };
            rows = [];
            tasks = [];
            owners = [];
          };
          copiers = [];
          made = 0;
        } → 0 < setting → IsLawful w.parts.crew.pool.counts.setting plan w [] }
    ensures legal { (setting : ℕ) (plan : List Bool) (w : Assembled) (past : List Moment) →
        IsLawful setting plan w past → Legal setting plan past }
{}
