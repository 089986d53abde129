//! What all parts keep, apart from what their steps do. Bodies are empty.
ghost use Rattle.std.specs.Prelude.{◌≡◌, ◌<◌, ◌≤◌, ℕ, not, Bool, List, [], ◌∷◌, length, slice_get, Option};
ghost use Rattle.blocking_pool.specs.Limits.{limit_of_setting};
ghost use Rattle.blocking_pool.specs.Pools.{empty_pool};
ghost use Rattle.blocking_world_laws.specs.Growth.{IsPlanned};
ghost use Rattle.blocking_world_laws.specs.Seen.{events, acts_of_owner};
ghost use Rattle.blocking_world_laws.specs.Served.{IsServed};
ghost use Rattle.blocking_world_laws.specs.Sessions.{is_poll_over, under_way};
ghost use Rattle.blocking_world_laws.specs.Staffed.{IsStaffed, AreAsSeen};
ghost use Rattle.blocking_world_laws.specs.Steps.{StepLaw, has_action, is_job_action};
ghost use Rattle.blocking_world_laws.specs.declared.event.Act.{Act};
ghost use Rattle.blocking_world_laws.specs.declared.event.Event.{Event};
ghost use Rattle.blocking_world_laws.specs.declared.event.Moment.{Moment};
ghost use Rattle.blocking_world_laws.specs.declared.event.Party.{Party};
ghost use Rattle.blocking_world_laws.specs.declared.step.Step.{Step};
ghost use Rattle.blocking_world_laws.specs.declared.step.Step.TheVariants.{Job};
ghost use Rattle.blocking_world_pool.specs.Crews.{free_hands, busy_hands};
ghost use Rattle.blocking_world_state.specs.Carried.{bytes_of, bytes_to_come, polls_in};
ghost use Rattle.blocking_world_state.specs.Moves.{CopierMoves, Steps};
ghost use Rattle.blocking_world_state.specs.Parts.{Parts, next_at};
ghost use Rattle.blocking_world_state.specs.Ties.{IsFree, IsLawful};

/// Whatever step lawful parts take, by the starts of a plan, they stay lawful, and their setting stays. The moment of the step is added to
/// what was seen. It keeps the law of steps, where the step asks and drops no owner that is lent to a copier. The event carries no more
/// bytes than were announced before the step, of lawful parts or others.
pub fn each_step()
    ensures lawful { (setting : ℕ) (plan : List Bool) (w new : Parts) (past : List Moment)
        (step : Step) (e : Event) → IsLawful setting plan w past →
        Steps (IsPlanned plan) step w e new →
        IsLawful setting plan new (record { step = step; event = e } ∷ past) }
    ensures setting { (setting : ℕ) (plan : List Bool) (w new : Parts) (past : List Moment)
        (step : Step) (e : Event) → IsLawful setting plan w past →
        Steps (IsPlanned plan) step w e new → new.crew.pool.counts.setting ≡ setting }
    ensures steps { (setting : ℕ) (plan : List Bool) (w new : Parts) (past : List Moment)
        (step : Step) (e : Event) → IsLawful setting plan w past →
        Steps (IsPlanned plan) step w e new → IsFree past step →
        StepLaw past (record { step = step; event = e }) }
    ensures carried { (plan : List Bool) (w new : Parts) (step : Step) (e : Event) →
        Steps (IsPlanned plan) step w e new → length (bytes_of e.act) ≤ bytes_to_come w step }
{}

/// Whatever a copier's step does to lawful parts, and whatever is only reported: they stay lawful, with its moment added to what was seen;
/// and their setting stays.
pub fn each_copier_step()
    ensures lawful { (setting : ℕ) (plan : List Bool) (w new : Parts) (past : List Moment)
        (asked : Step) (who : Party) (act : Act) (e : Event) → IsLawful setting plan w past →
        CopierMoves asked who act w e new →
        IsLawful setting plan new (record { step = asked; event = e } ∷ past) }
    ensures setting { (setting : ℕ) (plan : List Bool) (w new : Parts) (past : List Moment)
        (asked : Step) (who : Party) (act : Act) (e : Event) → IsLawful setting plan w past →
        CopierMoves asked who act w e new →
        new.crew.pool.counts.setting ≡ setting }
{}

/// New parts are lawful where nothing was seen, if their setting is above 0; and the limit of a setting is, whatever its text.
pub fn beginnings()
    ensures parts { (setting : ℕ) (plan : List Bool) (w : Parts) →
        w ≡ record {
          crew = record { pool = empty_pool setting 1 1; hands = [] };
          rows = [];
          tasks = [];
          owners = [];
        } → 0 < setting → IsLawful w.crew.pool.counts.setting plan w [] }
    ensures limit { (text : Option (List ℕ)) → 0 < limit_of_setting text }
{}

/// What is read off lawful parts. Queued jobs are served. What the workers hold is what was seen, and accounts for the workers, the
/// idle ones and the running jobs. The step of a worker's job has an action where that job's next action is its own to take. The
/// poll of an owner is under way where it was seen to be.
pub fn readings()
    ensures served { (setting : ℕ) (plan : List Bool) (w : Parts) (past : List Moment) →
        IsLawful setting plan w past → IsServed past }
    ensures staffed { (setting : ℕ) (plan : List Bool) (w : Parts) (past : List Moment) →
        IsLawful setting plan w past →
        IsStaffed (free_hands w.crew.hands) (busy_hands w.crew.hands) past }
    ensures held { (setting : ℕ) (plan : List Bool) (w : Parts) (past : List Moment) →
        IsLawful setting plan w past →
        AreAsSeen (free_hands w.crew.hands) (busy_hands w.crew.hands) past }
    ensures acts { (setting : ℕ) (plan : List Bool) (w : Parts) (past : List Moment) (v : ℕ) →
        IsLawful setting plan w past →
        has_action past (Job v) ≡ is_job_action (next_at w v) }
    ensures polls { (setting : ℕ) (plan : List Bool) (w : Parts) (past : List Moment) (h : ℕ) →
        IsLawful setting plan w past → polls_in (slice_get w.owners h) ≡
        not (is_poll_over (under_way (acts_of_owner h (events past)))) }
{}
