//! What every crew keeps, apart from what its calls do. Bodies are empty.
ghost use Rattle.std.specs.Prelude.{◌≡◌, ℕ, Bool, true, List, [], ◌∷◌, Option, Ok, is_some};
ghost use Rattle.blocking_pool.specs.Jobs.{JobNumber};
ghost use Rattle.blocking_pool.specs.Pools.{empty_pool};
ghost use Rattle.blocking_world_laws.specs.Growth.{IsPlanned};
ghost use Rattle.blocking_world_laws.specs.Jobs.{standing};
ghost use Rattle.blocking_world_laws.specs.Staffed.{IsStaffed, AreAsSeen};
ghost use Rattle.blocking_world_laws.specs.declared.event.Event.{Event};
ghost use Rattle.blocking_world_laws.specs.declared.event.Moment.{Moment};
ghost use Rattle.blocking_world_laws.specs.declared.event.Party.{Party};
ghost use Rattle.blocking_world_laws.specs.declared.step.Step.{Step};
ghost use Rattle.blocking_world_pool.specs.Crews.{Crew, free_hands, busy_hands};
ghost use Rattle.blocking_world_pool.specs.Moves.{Call, Add, Moves};
ghost use Rattle.blocking_world_pool.specs.Ties.{CrewHolds, Served};
ghost use Rattle.blocking_world_pool.specs.Ties.{IsAsked, IsAside, IsNumberOf, seen_as};

/// Whatever call a crew takes, whatever step of the layer above it was and whoever's job, two things hold. They hold if
/// the layer above gave what the call asks of it. The crew hangs together with what was seen, and the law of the pool
/// holds. The number of a job stays its number, and queued jobs are served as before. An event that is nothing to the crew
/// changes none of it.
pub fn each_call()
    ensures holds { (setting : ℕ) (plan : List Bool) (crew new : Crew) (past : List Moment)
        (call : Call) (e : Event) (step : Step) (owner : Option ℕ) →
        CrewHolds setting plan crew past → Moves (IsPlanned plan) call crew e new →
        IsAsked crew past step call → CrewHolds setting plan new (seen_as step e owner ∷ past) }
    ensures served { (setting : ℕ) (plan : List Bool) (crew new : Crew) (past : List Moment)
        (call : Call) (e : Event) (step : Step) (owner : Option ℕ) →
        CrewHolds setting plan crew past → Moves (IsPlanned plan) call crew e new →
        IsAsked crew past step call → Served setting past →
        Served setting (seen_as step e owner ∷ past) }
    ensures numbers { (setting : ℕ) (plan : List Bool) (crew new : Crew) (past : List Moment)
        (call : Call) (e : Event) (number : JobNumber) →
        CrewHolds setting plan crew past → Moves (IsPlanned plan) call crew e new →
        is_some (standing past number.serial) ≡ true →
        IsNumberOf crew.pool number → IsNumberOf new.pool number }
    ensures aside { (setting : ℕ) (plan : List Bool) (crew : Crew) (past : List Moment)
        (last : Moment) → CrewHolds setting plan crew past → IsAside crew last.event →
        CrewHolds setting plan crew (last ∷ past) }
{}

/// A new crew hangs together with what was seen of it, which is nothing; and the number that a new job gets is its number.
pub fn beginnings()
    ensures crew { (setting : ℕ) (plan : List Bool) →
        CrewHolds setting plan (record { pool = empty_pool setting 1 1; hands = [] }) [] }
    ensures number { (plan : List Bool) (crew new : Crew) (party : Party) (client : ℕ)
        (number : JobNumber) (e : Event) →
        Moves (IsPlanned plan) (Add party client (Ok number)) crew e new →
        IsNumberOf new.pool number }
{}

/// What the workers of a crew hold is what was seen, and accounts for the workers, the idle ones and the running jobs.
pub fn staffing()
    ensures staffed { (setting : ℕ) (plan : List Bool) (crew : Crew) (past : List Moment) →
        CrewHolds setting plan crew past →
        IsStaffed (free_hands crew.hands) (busy_hands crew.hands) past }
    ensures as_seen { (setting : ℕ) (plan : List Bool) (crew : Crew) (past : List Moment) →
        CrewHolds setting plan crew past →
        AreAsSeen (free_hands crew.hands) (busy_hands crew.hands) past }
{}
