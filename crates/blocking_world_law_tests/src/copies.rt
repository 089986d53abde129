//! What the law of copies accepts and refuses, and what the law of steps says of copiers. Bodies are empty.
ghost use Rattle.std.specs.Prelude.{◌≡◌, [], ◌∷◌, Option, Some, None, true, false};
ghost use Rattle.blocking_world_laws.specs.Copies.{CopyLaw, AskReader, AskWriter, Tells, all_taken, next_of_copier, read_by, written_by};
ghost use Rattle.blocking_world_laws.specs.CopyTraces.{both_read, both_inside, one_taken, both_taken, taken_again, then_flushed, tells_copied};
ghost use Rattle.blocking_world_laws.specs.Lent.{Copier, copiers, has_owner, links};
ghost use Rattle.blocking_world_laws.specs.Seen.{cut, events};
ghost use Rattle.blocking_world_laws.specs.Traces.{◌▸◌, moment, Refuses};
ghost use Rattle.blocking_world_laws.specs.OwnerTraces.{polls, works, given};
ghost use Rattle.blocking_world_laws.specs.declared.step.HandleAnswer.TheVariants.{Number};
ghost use Rattle.blocking_world_laws.specs.declared.event.Act.TheVariants.{Asked, Accepted, Got, Filled, Waits, Replied, Peeked, Linked, Copied, CopyFailed};
ghost use Rattle.blocking_world_laws.specs.declared.event.CopySide.TheVariants as side;
ghost use Rattle.blocking_world_laws.specs.declared.event.Party.TheVariants.{Owner, Pool};
ghost use Rattle.blocking_world_laws.specs.declared.event.Reply.TheVariants.{Okay, Count};
ghost use Rattle.blocking_world_laws.specs.declared.step.HandleCall.TheVariants.{Read, Write, Flush, Close};
ghost use Rattle.blocking_world_laws.specs.declared.step.Step.TheVariants.{Own, Link, Copy};

/// A copier that was made reads first, writes what it read, and after a partial write the rest.
pub fn steps()
    ensures made { links ([] ▸ moment (Link 0 1 2) Pool None (Linked 0) 1) ≡ 1 }
    ensures lent { has_owner 1 (copiers ([] ▸ moment (Link 0 1 2) Pool None (Linked 0) 1)) ≡ true }
    ensures reads { next_of_copier (record { number = 0; reader = 0; writer = 1; piece = 2 })
        ([] ▸ moment (Link 0 1 2) Pool None (Linked 0) 1) ≡ AskReader (Read 2) }
    ensures writes { next_of_copier (record { number = 0; reader = 0; writer = 1; piece = 2 })
        ([] ▸ moment (Link 0 1 2) Pool None (Linked 0) 1
        ▸ moment (Copy 0) (Owner 0) None (Asked (Read 2)) 1
        ▸ moment (Own 0) (Owner 0) None (Got (97 ∷ 98 ∷ []) None) 1
        ▸ moment (Own 0) (Owner 0) None (Replied (Count 2)) 1) ≡ AskWriter (Write (97 ∷ 98 ∷ [])) }
    ensures rest { next_of_copier (record { number = 0; reader = 0; writer = 1; piece = 2 })
        ([] ▸ moment (Link 0 1 2) Pool None (Linked 0) 1
        ▸ moment (Copy 0) (Owner 0) None (Asked (Read 2)) 1
        ▸ moment (Own 0) (Owner 0) None (Got (97 ∷ 98 ∷ []) None) 1
        ▸ moment (Own 0) (Owner 0) None (Replied (Count 2)) 1
        ▸ moment (Copy 0) (Owner 1) None (Asked (Write (97 ∷ 98 ∷ []))) 1
        ▸ moment (Own 1) (Owner 1) None (Filled 1 None) 1
        ▸ moment (Own 1) (Owner 1) None (Replied (Count 1)) 1) ≡ AskWriter (Write (98 ∷ [])) }
    ensures flushes { next_of_copier (record { number = 0; reader = 0; writer = 1; piece = 2 })
        ([] ▸ moment (Link 0 1 2) Pool None (Linked 0) 1
        ▸ moment (Copy 0) (Owner 0) None (Asked (Read 2)) 1
        ▸ moment (Own 0) (Owner 0) None (Replied (Count 0)) 1) ≡ AskWriter Flush }
{}

/// It may tell that all was copied only after a flush, and where it has written all that it read.
pub fn copies()
    ensures refuses_no_flush { Refuses CopyLaw ([] ▸ moment (Link 0 1 2) Pool None (Linked 0) 1)
        (moment (Copy 0) Pool None (Copied 0) 1) }
    ensures refuses_dropped_rest { Refuses CopyLaw
        ([] ▸ moment (Link 0 1 2) Pool None (Linked 0) 1
        ▸ moment (Copy 0) (Owner 0) None (Asked (Read 2)) 1
        ▸ moment (Own 0) (Owner 0) None (Got (97 ∷ 98 ∷ []) None) 1
        ▸ moment (Own 0) (Owner 0) None (Replied (Count 2)) 1
        ▸ moment (Copy 0) (Owner 1) None (Asked (Write (97 ∷ 98 ∷ []))) 1
        ▸ moment (Own 1) (Owner 1) None (Filled 1 None) 1
        ▸ moment (Own 1) (Owner 1) None (Replied (Count 1)) 1
        ▸ moment (Copy 0) (Owner 1) None (Asked Flush) 1
        ▸ moment (Own 1) (Owner 1) None (Replied Okay) 1)
        (moment (Copy 0) Pool None (Copied 1) 1) }
    ensures refuses_count_of_what_was_read { Refuses CopyLaw
        ([] ▸ moment (Link 0 1 2) Pool None (Linked 0) 1
        ▸ moment (Copy 0) (Owner 0) None (Asked (Read 2)) 1
        ▸ moment (Own 0) (Owner 0) None (Replied (Count 0)) 1
        ▸ moment (Copy 0) (Owner 1) None (Asked Flush) 1
        ▸ moment (Own 1) (Owner 1) None (Replied Okay) 1)
        (moment (Copy 0) Pool None (Copied 1) 1) }
{}

/// It may tell so only where its writer's handle took all that it wrote: not while some of it stands in the pipe, whatever the flush was
/// replied. What a handle took is read session after session.
pub fn takes()
    ensures accepts_all_taken { CopyLaw (then_flushed both_taken) (tells_copied 2) }
    ensures refuses_all_inside { Refuses CopyLaw (then_flushed both_inside) (tells_copied 2) }
    ensures refuses_one_inside { Refuses CopyLaw (then_flushed one_taken) (tells_copied 2) }
    ensures joins { all_taken (cut 0 (events taken_again)) ≡ 97 ∷ 98 ∷ 99 ∷ [] }
{}

/// Each part of the law of copies refuses by itself.
pub fn parts()
    // .. / replied ok 2 / asked (to write 616263) / accepted 1 / put 3: more than was read
    ensures refuses_more_than_was_read { Refuses CopyLaw
        (both_read ▸ moment (Copy 0) (Owner 0) None (Asked (Write (97 ∷ 98 ∷ 99 ∷ []))) 1 ▸ polls (Accepted 1) 1)
        (polls (Filled 3 None) 2) }
    // .. / put 1 / replied ok 1 / peeked 1 / answered 1 / asked / replied ok 0 / asked / replied ok / copied 1: the other byte isn't written
    ensures refuses_rest_that_was_not_written { Refuses CopyLaw
        (then_flushed (both_read ▸ moment (Copy 0) (Owner 0) None (Asked (Write (97 ∷ 98 ∷ []))) 1 ▸ polls (Accepted 1) 1
        ▸ polls (Filled 1 None) 2 ▸ polls (Replied (Count 1)) 2 ▸ works 1 (Peeked (97 ∷ [])) ▸ given 1 (Number 1)))
        (tells_copied 1) }
    // .. / answered 2 / asked (to close) / replied ok / copied 2
    ensures refuses_close_for_flush { Refuses CopyLaw
        (both_taken ▸ moment (Copy 0) (Owner 0) None (Asked Close) 2 ▸ polls (Replied Okay) 2) (tells_copied 2) }
    // .. / answered 2 / asked (to flush) / waits / copied 2
    ensures refuses_flush_that_waits { Refuses CopyLaw
        (both_taken ▸ moment (Copy 0) (Owner 0) None (Asked Flush) 2 ▸ polls Waits 2) (tells_copied 2) }
{}
