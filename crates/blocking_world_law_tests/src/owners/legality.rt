//! Whole sessions; the cut of an owner, and what its law leaves open.
ghost use Rattle.std.specs.Prelude.{◌≡◌, ℕ, List, [], true, false, Some, None};
ghost use Rattle.blocking_world_laws.specs.Seen.{events, cut, is_some_worker};
ghost use Rattle.blocking_world_laws.specs.Turns.{is_giving_up};
ghost use Rattle.blocking_world_laws.specs.Steps.{is_answered};
ghost use Rattle.blocking_world_laws.specs.OwnerTable.{next_of_owner};
ghost use Rattle.blocking_world_laws.specs.OwnerLaws.{OwnerLaw, is_of_poll, is_settled};
ghost use Rattle.blocking_world_laws.specs.Legal.{Legal};
ghost use Rattle.blocking_world_laws.specs.Traces.{◌▸◌, moment};
ghost use Rattle.blocking_world_laws.specs.OwnerTraces.{polls, takes, works, ends};
ghost use Rattle.blocking_world_laws.specs.OwnerTraces.{reader_parked, reader_dropped, end_read, stop_back};
ghost use Rattle.blocking_world_laws.specs.OpTraces.{operation_over, inner_replied};
ghost use Rattle.blocking_pool.specs.declared.pool.answer.Woke.TheVariants.{Entered};
ghost use Rattle.blocking_pool.specs.declared.pool.standing.Standing.TheVariants.{Dropped};
ghost use Rattle.blocking_world_laws.specs.declared.event.Act.TheVariants.{JobCancelled, Replied, TookDropped, Ended, GaveUp};
ghost use Rattle.blocking_world_laws.specs.declared.event.Event.{Event};
ghost use Rattle.blocking_world_laws.specs.declared.event.HolderWaker.TheVariants.{Absent};
ghost use Rattle.blocking_world_laws.specs.declared.event.Party.TheVariants.{Pool};
ghost use Rattle.blocking_world_laws.specs.declared.event.Reply.TheVariants.{Handle};
ghost use Rattle.blocking_world_laws.specs.declared.step.Step.TheVariants.{Strike};

/// A cut has the events of one owner and of its jobs alone.
pub fn cuts()
    // made 0 / asked / accepted 1 +1 / .. / parked / ended 1 parked, seen by owner 1
    ensures of_other { cut 1 (events reader_parked) ≡ [] }
    // what is cut stays as it is
    ensures of_cut { cut 0 (cut 0 (events reader_parked)) ≡ cut 0 (events reader_parked) }
{}

/// After a cut an action of a poll is one act, where the pool doesn't answer it; so is an action of a job's own.
pub fn one_act()
    ensures of_poll { (cut : List Event) (now other : Event) →
        is_some_worker now.party ≡ false → is_some_worker other.party ≡ false →
        is_of_poll now.act ≡ true → is_of_poll other.act ≡ true → is_settled (next_of_owner cut) ≡ true →
        OwnerLaw cut now → OwnerLaw cut other → now.act ≡ other.act }
    ensures of_job { (cut : List Event) (s : ℕ) (now other : Event) →
        is_some_worker now.party ≡ true → is_some_worker other.party ≡ true →
        now.job ≡ Some s → other.job ≡ Some s →
        is_giving_up now.act ≡ is_giving_up other.act → is_answered now.act ≡ false →
        OwnerLaw cut now → OwnerLaw cut other → now.act ≡ other.act }
{}

/// Whole sessions, from the making of the owner to the return of its handle, or until it was dropped.
pub fn sessions()
    // made 0 / asked / accepted 1 +1 / .. / ended 1 done / asked / got end / back / replied ok 0
    ensures accepts_read { Legal 1 [] end_read }
    // .. / asked (for the handle) / closed wake 1 / .. / ended 1 done / asked (for the handle) / back / replied handle
    ensures accepts_stop { Legal 1 [] (stop_back ▸ polls (Replied Handle) 2) }
    // made 0 / asked (for an operation) / accepted 1 +1 / waits / .. / asked (for the result) / result 9 / replied ok 9 / .. / ended 1 done
    ensures accepts_operation { Legal 1 [] operation_over }
    // .. / asked (for the handle, for good) / closed wake 1 / .. / waits / .. / asked (for the handle, for good) / back / replied handle
    ensures accepts_return { Legal 1 [] inner_replied }
    // .. / ended 1 parked / dropped / cancelled 1 entered / took 1 dropped / gave up / ended 1 dropped
    ensures accepts_drop { Legal 1 [] (reader_dropped
        ▸ moment (Strike 1) Pool None (JobCancelled 1 Entered) 2
        ▸ takes 1 (TookDropped 1)
        ▸ works 1 (GaveUp Absent)
        ▸ ends 1 (Ended 1 Dropped)) }
{}
