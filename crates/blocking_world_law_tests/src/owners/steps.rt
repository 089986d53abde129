//! Which event a step of an owner has.
ghost use Rattle.std.specs.Prelude.{[], None};
ghost use Rattle.blocking_world_laws.specs.Steps.{StepLaw};
ghost use Rattle.blocking_world_laws.specs.Traces.{moment, of_owner, Refuses};
ghost use Rattle.blocking_world_laws.specs.OwnerTraces.{asks, polls, drops, works};
ghost use Rattle.blocking_world_laws.specs.OwnerTraces.{one_made, one_asked, reader_waits, reader_taken, reader_dropped};
ghost use Rattle.blocking_core.specs.declared.io.Position.TheVariants.{Start};
ghost use Rattle.blocking_pool.specs.declared.pool.answer.Woke.TheVariants.{Entered};
ghost use Rattle.blocking_world_laws.specs.declared.event.Act.TheVariants.{Made, Asked, JobCancelled, Replied, RoomFree, NoAction};
ghost use Rattle.blocking_world_laws.specs.declared.event.Party.TheVariants.{Owner, Pool};
ghost use Rattle.blocking_world_laws.specs.declared.event.Reply.TheVariants.{Handle};
ghost use Rattle.blocking_world_laws.specs.declared.step.HandleCall.TheVariants.{Read, GetMut, Seek, Next, Operate, OperateAgain, IntoInner};
ghost use Rattle.blocking_world_laws.specs.declared.step.Step.TheVariants.{New, Ask, Own, Strike};

/// An owner may be made at any time, is numbered in order, and keeps the capacity that it was made with.
pub fn makings()
    // made 0
    ensures accepts_owner { StepLaw [] (moment (New 4 0) (Owner 0) None (Made 0 4) 1) }
    // made 0, for client 7
    ensures accepts_for_client { StepLaw [] (moment (New 4 7) (Owner 0) None (Made 0 4) 1) }
    // made 0 / made 1
    ensures accepts_second { StepLaw one_made (moment (New 0 0) (Owner 1) None (Made 1 0) 1) }
    // nothing
    ensures refuses_nothing { Refuses StepLaw [] (moment (New 4 0) Pool None NoAction 1) }
    // made 0 / made 0
    ensures refuses_number_again { Refuses StepLaw one_made (moment (New 4 0) (Owner 0) None (Made 0 4) 1) }
    // made 0, of another capacity
    ensures refuses_other_capacity { Refuses StepLaw [] (moment (New 4 0) (Owner 0) None (Made 0 5) 1) }
{}

/// An owner is asked and dropped where it is there and no poll of it is under way; its poll goes on while it is.
pub fn calls()
    // made 0 / asked
    ensures accepts_call { StepLaw one_made (asks (Read 2) 1) }
    // made 0 / nothing
    ensures refuses_nothing { Refuses StepLaw one_made (moment (Ask 0 (Read 2)) (Owner 0) None NoAction 1) }
    // made 0 / asked, of another call
    ensures refuses_other_call { Refuses StepLaw one_made
        (moment (Ask 0 (Read 2)) (Owner 0) None (Asked GetMut) 1) }
    // made 0 / asked, of owner 1
    ensures refuses_stranger { Refuses StepLaw one_made
        (moment (Ask 1 (Read 2)) (Owner 1) None (Asked (Read 2)) 1) }
    // made 0 / asked / nothing
    ensures accepts_no_second_call { StepLaw one_asked (moment (Ask 0 GetMut) (Owner 0) None NoAction 1) }
    // made 0 / asked / asked
    ensures refuses_second_call { Refuses StepLaw one_asked (asks GetMut 1) }
    // made 0 / asked / nothing, of the poll
    ensures refuses_idle_poll { Refuses StepLaw one_asked (moment (Own 0) (Owner 0) None NoAction 1) }
    // .. / waits / nothing, of the poll that is over
    ensures accepts_poll_over { StepLaw reader_waits (moment (Own 0) (Owner 0) None NoAction 2) }
    // .. / waits / replied handle
    ensures refuses_poll_after_wait { Refuses StepLaw reader_waits (polls (Replied Handle) 2) }
    // .. / waits / dropped
    ensures accepts_drop { StepLaw reader_waits (drops 2) }
    // made 0 / asked / dropped
    ensures refuses_drop_in_poll { Refuses StepLaw one_asked (drops 1) }
    // .. / dropped / dropped
    ensures refuses_drop_twice { Refuses StepLaw reader_dropped (drops 2) }
{}

/// An event of an owner's job is told of that owner; and the job may be cancelled in the pool once its owner was dropped.
pub fn jobs()
    // .. / took 1 / room 4
    ensures accepts_job { StepLaw reader_taken (works 1 (RoomFree 4)) }
    // .. / took 1 / room 4, of owner 1
    ensures refuses_other_owner { Refuses StepLaw reader_taken (of_owner 1 (works 1 (RoomFree 4))) }
    // .. / dropped / cancelled 1 entered
    ensures accepts_cancel { StepLaw reader_dropped (moment (Strike 1) Pool None (JobCancelled 1 Entered) 2) }
    // .. / waits / .. / took 1 / cancelled 1 entered: its owner is there
    ensures refuses_cancel { Refuses StepLaw reader_taken
        (moment (Strike 1) Pool None (JobCancelled 1 Entered) 2) }
{}

/// An owner that rests is asked for anything, and for the result of an operation where one is pending.
pub fn calls_of_each_kind()
    // made 0 / asked (to seek)
    ensures accepts_seek { StepLaw one_made (asks (Seek (Start 7)) 1) }
    // made 0 / asked (for an item)
    ensures accepts_item { StepLaw one_made (asks Next 1) }
    // made 0 / asked (for an operation)
    ensures accepts_operation { StepLaw one_made (asks Operate 1) }
    // made 0 / asked (for the handle, for good)
    ensures accepts_handle { StepLaw one_made (asks IntoInner 1) }
    // made 0 / nothing
    ensures refuses_nothing_for_item { Refuses StepLaw one_made (moment (Ask 0 Next) (Owner 0) None NoAction 1) }
    ensures refuses_nothing_for_operation { Refuses StepLaw one_made (moment (Ask 0 Operate) (Owner 0) None NoAction 1) }
    ensures refuses_nothing_for_handle { Refuses StepLaw one_made (moment (Ask 0 IntoInner) (Owner 0) None NoAction 1) }
    // made 0 / nothing, of a call for a result: no operation is pending
    ensures accepts_nothing_for_result { StepLaw one_made (moment (Ask 0 OperateAgain) (Owner 0) None NoAction 1) }
    ensures refuses_result { Refuses StepLaw one_made (asks OperateAgain 1) }
{}
