//! What owners keep who have operations run on their handle.
ghost use Rattle.std.specs.Prelude.{◌≡◌, [], ◌∷◌, Some, None, true, false};
ghost use Rattle.blocking_pool.specs.declared.pool.answer.Refusal.TheVariants.{NoWorker};
ghost use Rattle.blocking_pool.specs.declared.pool.standing.Standing.TheVariants.{Done};
ghost use Rattle.blocking_world_laws.specs.Seen.{EachMayFollow, events, cut, own};
ghost use Rattle.blocking_world_laws.specs.Steps.{StepLaw};
ghost use Rattle.blocking_world_laws.specs.JobTable.{Operating, AskResult, PutResult, Finish, next_of_job};
ghost use Rattle.blocking_world_laws.specs.OwnerSeats.{result_seat, slot_seat};
ghost use Rattle.blocking_world_laws.specs.OwnerWakes.{NoLostOwnerWake};
ghost use Rattle.blocking_world_laws.specs.Sessions.{has_begun, is_pending_operation};
ghost use Rattle.blocking_world_laws.specs.Traces.{◌▸◌, moment, Refuses, Keeps};
ghost use Rattle.blocking_world_laws.specs.OwnerTraces.{asks, polls, works, given, ends, FirstOwnerLaw, KeepsFirstOwner, FirstOwnerIsNotLost};
ghost use Rattle.blocking_world_laws.specs.OpTraces.{operator_made, operation_begun, operation_taken, nine_given, nine_put, nine_got, nine_replied, operation_over, read_anew};
ghost use Rattle.blocking_world_laws.specs.OpTraces.{nine_unasked, second_begun, stop_for_operation, then_stopped, older_asked};
ghost use Rattle.blocking_world_laws.specs.declared.event.Act.TheVariants.{Accepted, Refused, OwnerClosed, Back, ResultGot, Replied, Waits, Answered, Ended, ResultPut, Finished, HolderWoken, NoAction};
ghost use Rattle.blocking_world_laws.specs.declared.event.HolderWaker.TheVariants.{Taken, Absent};
ghost use Rattle.blocking_world_laws.specs.declared.event.Party.TheVariants.{Owner};
ghost use Rattle.blocking_world_laws.specs.declared.event.Reply.TheVariants.{Count, Handle, NotBegun};
ghost use Rattle.blocking_world_laws.specs.declared.step.HandleAnswer.TheVariants.{Number, Failed};
ghost use Rattle.blocking_world_laws.specs.declared.step.HandleCall.TheVariants.{Read, Operate, OperateAgain, GetMut};
ghost use Rattle.blocking_world_laws.specs.declared.step.Step.TheVariants.{Ask};

/// A poll begins an operation and looks for its result; asked again it goes on where it was: in the session that it stops, or at the result.
pub fn tables()
    // an operation and a read after it
    ensures accepts_session { KeepsFirstOwner read_anew }
    // made 0 / asked / refused worker / replied refused worker
    ensures accepts_refused_session { KeepsFirstOwner (operator_made
        ▸ asks Operate 1 ▸ polls (Refused NoWorker) 1 ▸ polls (Replied (NotBegun NoWorker)) 1) }
    // a reading session is stopped / waits / .. / asked (for the result) / back / accepted 2 / waits
    ensures accepts_stop_and_begin { KeepsFirstOwner (then_stopped stop_for_operation
        ▸ asks OperateAgain 2 ▸ polls Back 2 ▸ polls (Accepted 2) 2 ▸ polls Waits 2) }
    // .. / replied ok 9 / asked (for an operation) / waits: the job of the one before has the handle
    ensures accepts_operation_after { KeepsFirstOwner (nine_replied ▸ asks Operate 2 ▸ polls Waits 2) }
    // .. / ended 1 done / asked (for an operation) / back / accepted 2 / waits
    ensures accepts_second { KeepsFirstOwner (second_begun ▸ polls Waits 2) }
    // .. / delivered owner / asked (for an operation) / result 9: that is of the one before, which was given up
    ensures refuses_older_result { Refuses FirstOwnerLaw (nine_put ▸ asks Operate 2) (polls (ResultGot 9) 2) }
    // .. / ended 1 done / asked (for an operation) / back / accepted 2 / result 9: so is this
    ensures refuses_result_of_other_job { Refuses FirstOwnerLaw second_begun (polls (ResultGot 9) 2) }
    // .. / delivered owner / asked (for an operation) / waits / asked (for the result) / waits: it looks for the handle of the one before
    ensures accepts_wait_at_older_slot { KeepsFirstOwner (older_asked ▸ polls Waits 2) }
    // .. / delivered owner / asked (for an operation) / waits / asked (for the result) / result 9: not for the result of that
    ensures refuses_older_result_again { Refuses FirstOwnerLaw older_asked (polls (ResultGot 9) 2) }
    // .. / asked (for the result) / back / accepted 2 / waits, after the one before is over
    ensures accepts_operation_at_last { KeepsFirstOwner (older_asked
        ▸ polls Waits 2 ▸ works 1 (Finished Taken) ▸ works 1 HolderWoken ▸ ends 1 (Ended 1 Done)
        ▸ asks OperateAgain 2 ▸ polls Back 2 ▸ polls (Accepted 2) 2 ▸ polls Waits 2) }
    // .. / ended 1 done / asked (for an operation) / replied ok 9
    ensures refuses_result_unlooked { Refuses FirstOwnerLaw (nine_unasked ▸ asks Operate 2) (polls (Replied (Count 9)) 2) }
    // .. / accepted 1 +1 / back: it looks for the result
    ensures refuses_return_in_its_place { Refuses FirstOwnerLaw operation_begun (polls Back 2) }
    // .. / result 9 / replied ok 8
    ensures refuses_other_result { Refuses FirstOwnerLaw nine_got (polls (Replied (Count 8)) 2) }
    // .. / replied ok 9 / asked (for the handle) / replied handle: its job has it
    ensures refuses_lent_handle { Refuses FirstOwnerLaw (nine_replied ▸ asks GetMut 2) (polls (Replied Handle) 2) }
    // .. / replied ok 9 / asked (to read) / closed: an operation has no pipe
    ensures refuses_close { Refuses FirstOwnerLaw (nine_replied ▸ asks (Read 2) 2) (polls (OwnerClosed None) 2) }
{}

/// The result of an operation is asked for again only while the operation is pending: its last poll waited, and nothing else was asked since.
pub fn pending()
    // .. / delivered owner / asked (for the result)
    ensures accepts_pending { KeepsFirstOwner (nine_put ▸ asks OperateAgain 2) }
    // made 0 / asked (for the result)
    ensures refuses_before_any { Refuses FirstOwnerLaw operator_made (asks OperateAgain 1) }
    // .. / result 9 / replied ok 9 / asked (for the result)
    ensures refuses_after_result { Refuses FirstOwnerLaw nine_replied (asks OperateAgain 2) }
    // .. / delivered owner / asked (to read nothing) / replied ok 0 / asked (for the result): the read gave it up
    ensures refuses_given_up { Refuses FirstOwnerLaw (nine_put ▸ asks (Read 0) 2 ▸ polls (Replied (Count 0)) 2) (asks OperateAgain 2) }
    // .. / delivered owner / asked (to read) / waits / asked (for the result): that wait was for a read
    ensures refuses_wait_of_read { Refuses FirstOwnerLaw (nine_put ▸ asks (Read 2) 2 ▸ polls Waits 2) (asks OperateAgain 2) }
    // .. / waits, where a reading session is stopped first
    ensures stops_first { has_begun (own (cut 0 (events stop_for_operation))) ≡ false }
    ensures waits_for_it { is_pending_operation (own (cut 0 (events stop_for_operation))) ≡ true }
{}

/// Each step has its action: the result of an operation is asked for while one is pending, and then alone.
pub fn steps()
    // an operation and a read after it
    ensures accepts_session { EachMayFollow StepLaw read_anew }
    // a reading session is stopped / waits / .. / asked (for the result) / back / accepted 2 / waits
    ensures accepts_stop_and_begin { EachMayFollow StepLaw (then_stopped stop_for_operation
        ▸ asks OperateAgain 2 ▸ polls Back 2 ▸ polls (Accepted 2) 2 ▸ polls Waits 2) }
    // .. / delivered owner / nothing, of a call for the result
    ensures refuses_nothing { Refuses StepLaw nine_put (moment (Ask 0 OperateAgain) (Owner 0) None NoAction 2) }
    // .. / result 9 / replied ok 9 / nothing, of a call for the result
    ensures accepts_nothing_after_result { StepLaw nine_replied (moment (Ask 0 OperateAgain) (Owner 0) None NoAction 2) }
    ensures refuses_result_twice { Refuses StepLaw nine_replied (asks OperateAgain 2) }
    // .. / delivered owner / asked (to read nothing) / replied ok 0 / nothing, of a call for the result: the read gave it up
    ensures accepts_nothing_after_given_up { StepLaw (nine_put ▸ asks (Read 0) 2 ▸ polls (Replied (Count 0)) 2)
        (moment (Ask 0 OperateAgain) (Owner 0) None NoAction 2) }
    ensures refuses_result_of_given_up { Refuses StepLaw (nine_put ▸ asks (Read 0) 2 ▸ polls (Replied (Count 0)) 2) (asks OperateAgain 2) }
    // .. / delivered owner / asked (for the handle) / waits / asked (for the result): so did this call, which waits
    ensures refuses_result_of_stopped { Refuses StepLaw (nine_put ▸ asks GetMut 2 ▸ polls Waits 2) (asks OperateAgain 2) }
{}

/// A job runs its operation, puts the result, and finishes.
pub fn jobs()
    ensures asks_first { next_of_job Operating [] ≡ AskResult }
    // answered 9
    ensures puts_result { next_of_job Operating (Answered (Number 9) ∷ []) ≡ PutResult }
    // result
    ensures finishes { next_of_job Operating (ResultPut Absent ∷ Answered (Number 9) ∷ []) ≡ Finish }
    // .. / took 1 / answered fault 9: an operation gives a number
    ensures refuses_failure { Refuses FirstOwnerLaw operation_taken (given 1 (Failed 9)) }
    // .. / took 1 / result wake owner: it hasn't run
    ensures refuses_result_before_answer { Refuses FirstOwnerLaw operation_taken (works 1 (ResultPut Taken)) }
    // .. / answered 9 / finished: the result is put first
    ensures refuses_finish_before_result { Refuses FirstOwnerLaw nine_given (works 1 (Finished Absent)) }
    // .. / result wake owner / delivered owner / result
    ensures refuses_result_twice { Refuses FirstOwnerLaw nine_put (works 1 (ResultPut Absent)) }
{}

/// An owner finds the result once the job has put it, and waits where it comes, not where the handle does.
pub fn places()
    // .. / accepted 1 +1 / result 0: nothing was put yet
    ensures refuses_early_result { Refuses FirstOwnerLaw operation_begun (polls (ResultGot 0) 2) }
    // .. / delivered owner / asked (for the result) / waits: it is there
    ensures refuses_wait_beside_result { Refuses FirstOwnerLaw (nine_put ▸ asks OperateAgain 2) (polls Waits 2) }
    // .. / delivered owner / asked (for the result) / result 8
    ensures refuses_other_number { Refuses FirstOwnerLaw (nine_put ▸ asks OperateAgain 2) (polls (ResultGot 8) 2) }
    // .. / waits / .. / answered 9 / result
    ensures refuses_forgotten_at_result { Refuses FirstOwnerLaw nine_given (works 1 (ResultPut Absent)) }
    // .. / result wake owner / delivered owner / finished wake owner: it waited for the result alone
    ensures refuses_made_up_at_finish { Refuses FirstOwnerLaw nine_put (works 1 (Finished Taken)) }
    // .. / accepted 1 +1 / waits / ..
    ensures sits_at_result { result_seat (cut 0 (events operation_taken)) ≡ true }
    ensures sits_there_alone { slot_seat (cut 0 (events operation_taken)) ≡ false }
    // .. / result wake owner / delivered owner
    ensures result_takes_it { result_seat (cut 0 (events nine_put)) ≡ false }
{}

/// An owner that waits for a result, or for the handle of an operation, is told.
pub fn wakes()
    // .. / result wake owner / delivered owner / finished / ended 1 done
    ensures accepts_told_owner { FirstOwnerIsNotLost nine_unasked }
    // .. / waits / .. / answered 9 / result / finished / ended 1 done
    ensures refuses_untold_owner { Refuses (Keeps NoLostOwnerWake) (nine_given ▸ works 1 (ResultPut Absent) ▸ works 1 (Finished Absent))
        (ends 1 (Ended 1 Done)) }
{}
