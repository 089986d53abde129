//! One short trace for each definition of which the edits of this crate try a wrong reading: what the definition says of it, and the
//! wrong reading doesn't. What else shows the laws stands in `blocking_world_law_tests`.
ghost use Rattle.std.specs.Prelude.{◌≡◌, [], Some, None, false};
ghost use Rattle.blocking_pool.specs.declared.pool.answer.Refusal.TheVariants.{Memory, NoWorker};
ghost use Rattle.blocking_pool.specs.declared.pool.answer.Woke.TheVariants.{Entered, Marked};
ghost use Rattle.blocking_pool.specs.declared.pool.standing.Standing.TheVariants.{Queued, Parked, Dropped};
ghost use Rattle.blocking_world_laws.specs.Seen.{events, task_cut};
ghost use Rattle.blocking_world_laws.specs.Queue.{InOrder, client_limit, ready};
ghost use Rattle.blocking_world_laws.specs.Growth.{GrowthLaw, known_limit, turned_away};
ghost use Rattle.blocking_world_laws.specs.Served.{IsServed};
ghost use Rattle.blocking_world_laws.specs.Turns.{TurnLaw};
ghost use Rattle.blocking_world_laws.specs.Answers.{AnswerLaw};
ghost use Rattle.blocking_world_laws.specs.Seats.{task_seat};
ghost use Rattle.blocking_world_laws.specs.Wakes.{NoLostWake};
ghost use Rattle.blocking_world_laws.specs.Steps.{StepLaw};
ghost use Rattle.blocking_world_laws.specs.Legal.{Legal};
ghost use Rattle.blocking_world_laws.specs.Traces.{◌▸◌, moment, starting, refusing, of_owner, Refuses, Keeps, FirstTaskLaw};
ghost use Rattle.blocking_world_laws.specs.Traces.{one_queued, one_arrived, two_queued, dropped, second_dropped, late_queued, second_refused};
ghost use Rattle.blocking_world_laws.specs.Traces.{awaited, awaited_finished, cancelled_finished, untold_given_up};
ghost use Rattle.blocking_world_laws.specs.Traces.{three_queued, one_at_limit, none_ready};
ghost use Rattle.blocking_world_laws.specs.Traces.{one_waits, one_parked, woken_waits, raised_limit, unstaffed_parked};
ghost use Rattle.blocking_world_laws.specs.declared.event.Act.TheVariants.{Accepted, Refused, JobWoken, JobCancelled, LimitSet, ClientLimitSet, Swept, Waits, TaskGot, TaskDetached, Arrived, Took, TookDropped, TookNone, Stopped, Ended, Finished, NoAction};
ghost use Rattle.blocking_world_laws.specs.declared.event.Party.TheVariants.{Owner, Task, Worker, Pool};
ghost use Rattle.blocking_world_laws.specs.declared.event.HolderWaker.TheVariants.{Absent};
ghost use Rattle.blocking_world_laws.specs.declared.event.WaitEnd.TheVariants.{TimedOut};
ghost use Rattle.blocking_world_laws.specs.declared.step.Step.TheVariants.{New, Spawn, OfTask, Arrive, Take, Job, End, Late, SetLimit, Sweep, Stray, Strike, SetClientLimit};
ghost use Rattle.blocking_world_laws.specs.declared.step.TaskCall.TheVariants.{Poll, Cancel};
ghost use Rattle.std.specs.Prelude.{◌∷◌, true};
ghost use Rattle.blocking_world_laws.specs.Seen.{cut};
ghost use Rattle.blocking_world_laws.specs.Passed.{inside};
ghost use Rattle.blocking_world_laws.specs.Jobs.{client, is_marked};
ghost use Rattle.blocking_world_laws.specs.OwnerWakes.{NoLostOwnerWake};
ghost use Rattle.blocking_world_laws.specs.OwnerTable.{next_of_owner, Say};
ghost use Rattle.blocking_world_laws.specs.OwnerTraces.{asks, polls, takes, works, given, ends, FirstOwnerLaw, FirstOwnerEnds};
ghost use Rattle.blocking_world_laws.specs.OwnerTraces.{reader_waits, room_found, four_given, reader_parked, two_got, two_told, end_given};
ghost use Rattle.blocking_world_laws.specs.OwnerTraces.{begun_for_client, told_before, reader_back, reader_dropped};
ghost use Rattle.blocking_world_laws.specs.declared.event.Act.TheVariants.{Got, Replied, RoomFree, GaveUp};
ghost use Rattle.blocking_world_laws.specs.declared.event.Reply.TheVariants.{Okay, Count};
ghost use Rattle.blocking_world_laws.specs.declared.step.HandleAnswer.TheVariants.{Number, Gave};
ghost use Rattle.blocking_world_laws.specs.declared.step.HandleCall.TheVariants.{Read, Write, Flush, GetMut};
ghost use Rattle.blocking_core.specs.declared.io.Fault.TheVariants.{WriteZero};
ghost use Rattle.blocking_world_laws.specs.JobTable.{Writing, fault};
ghost use Rattle.blocking_world_laws.specs.Passed.{accepted, taken};
ghost use Rattle.blocking_world_laws.specs.Seen.{own};
ghost use Rattle.blocking_world_laws.specs.Behind.{WritesBehind, AllWriteBehind};
ghost use Rattle.blocking_world_laws.specs.Solo.{Solo, AreIndependent, is_without_refusal};
ghost use Rattle.blocking_world_laws.specs.WriteTraces.{writer_made, write_begun, two_filled, two_peeked, one_answered, one_written, last_filled, writer_parked};
ghost use Rattle.blocking_world_laws.specs.WriteTraces.{writer_drained, flush_asked, unflushed_back, writer_closed, one_peeked, then_done, then_back};
ghost use Rattle.blocking_world_laws.specs.WriteTraces.{none_written};
ghost use Rattle.blocking_world_laws.specs.declared.event.Act.TheVariants.{Filled, FillShut, Answered, Peeked, JobClosed, Taken as TakenOut};
ghost use Rattle.blocking_world_laws.specs.declared.event.HolderWaker.TheVariants.{Taken};
ghost use Rattle.blocking_core.specs.declared.io.Position.TheVariants.{Start};
ghost use Rattle.blocking_world_laws.specs.JobTable.{Streaming, AskItem, SendItem, next_of_job};
ghost use Rattle.blocking_world_laws.specs.OwnerSeats.{result_seat};
ghost use Rattle.blocking_world_laws.specs.Sessions.{capacity};
ghost use Rattle.blocking_world_laws.specs.OwnerTraces.{drops, FirstOwnerPasses};
ghost use Rattle.blocking_world_laws.specs.ItemTraces.{item_asked, stream_taken, first_given, second_waits, first_asked, first_got, second_asked, stream_back};
ghost use Rattle.blocking_world_laws.specs.SeekTraces.{old_seek_taken, then_sought, old_sought, other_asked, seek_failed};
ghost use Rattle.blocking_world_laws.specs.OpTraces.{operation_begun, operation_taken, nine_put, older_asked, stop_for_operation, then_stopped, inner_asked, inner_waits, inner_replied};
ghost use Rattle.blocking_world_laws.specs.declared.event.Act.TheVariants.{Made, GotItem, GotEnd, Back, ResultGot, JobParked, Put, ResultPut};
ghost use Rattle.blocking_world_laws.specs.declared.event.Reply.TheVariants.{OneItem, NoMore, Handle, NotBegun, Failed as FailedReply};
ghost use Rattle.blocking_world_laws.specs.declared.step.HandleAnswer.TheVariants.{Item, Fine, Failed as FailedAnswer};
ghost use Rattle.blocking_world_laws.specs.OwnerTraces.{stop_back};
ghost use Rattle.blocking_world_laws.specs.declared.step.HandleCall.TheVariants.{Close, Next, Seek, Operate, OperateAgain, IntoInner};
ghost use Rattle.blocking_core.specs.declared.io.Fault.TheVariants.{Refused as FaultRefused};

/// What the pool answers: with the next serial, with the first ready job and only as it was let go, by how a job stands.
pub fn answers()
    // accepted 1 +1 / arrived 1 / accepted 1
    ensures refuses_serial_again { Refuses (AnswerLaw 1) one_arrived
        (moment (Spawn 0) Pool None (Accepted 1) 2) }
    // accepted 1 +1 / dropped / arrived 1 / took 1
    ensures refuses_run_of_dropped { Refuses (AnswerLaw 1) dropped
        (moment (Take 1) (Worker 1) (Some 1) (Took 1) 2) }
    // accepted 1 +1 / arrived 1 / accepted 2 / dropped (of job 2) / took 1 dropped
    ensures refuses_drop_of_other { Refuses (AnswerLaw 1) second_dropped
        (moment (Take 1) (Worker 1) (Some 1) (TookDropped 1) 2) }
    // accepted 1 +1 / dropped / arrived 1 / cancelled 1 marked / took 1 dropped
    ensures accepts_cancel_of_queued { Legal 1 [] (dropped
        ▸ moment (Strike 1) Pool None (JobCancelled 1 Marked) 2
        ▸ moment (Take 1) (Worker 1) (Some 1) (TookDropped 1) 2) }
    // .. / ended 1 parked / swept 1
    ensures refuses_unmarked_put_back { Refuses (AnswerLaw 1) one_parked
        (moment Sweep Pool None (Swept 1) 2) }
    // .. / took 1 / delivered 1 marked / parked / ended 1 parked
    ensures refuses_forgotten_wake { Refuses (AnswerLaw 1) woken_waits
        (moment (End 1) (Worker 1) (Some 1) (Ended 1 Parked) 2) }
    // accepted 1 +1 / arrived 1 / stopped 1, timed out
    ensures refuses_stop_beside_queued_job { Refuses (AnswerLaw 1) one_arrived
        (moment (Late 1) (Worker 1) None (Stopped 1 TimedOut) 2) }
{}

/// Each client's jobs are taken in the order in which they entered.
pub fn order()
    // accepted 1 +1 / arrived 1 / accepted 2 / took 2
    ensures refuses_queue_jumper { Refuses (Keeps InOrder) two_queued
        (moment (Take 1) (Worker 1) (Some 2) (Took 2) 2) }
    // clients 1 / accepted 1 +1 / accepted 2 / accepted 3 / arrived 1 / took 2: a job of the same client is passed over
    ensures refuses_passing_over { Refuses (Keeps InOrder) three_queued
        (moment (Take 1) (Worker 1) (Some 2) (Took 2) 2) }
{}

/// Of which client a job is, which queued jobs are ready, and what a take, a growth and a step do where a client is at its limit.
pub fn clients()
    // clients 1 / accepted 1 +1 / accepted 2 / accepted 3 / arrived 1 / took 1 +2 / arrived 2: job 2 is of the client of job 1, job 3 isn't
    ensures third_is_ready { ready one_at_limit ≡ 3 ∷ [] }
    ensures client_of_call { client one_at_limit 3 ≡ 8 }
    // made 0 / made 1 / asked / accepted 1 +1
    ensures client_of_session { client begun_for_client 1 ≡ 7 }
    // .. / clients none: no limit is left
    ensures taken_away { client_limit (one_at_limit ▸ moment (SetClientLimit None) Pool None (ClientLimitSet None) 3) ≡ None }
    // .. / clients 2 / accepted 4: the new job is of the client that its step names
    ensures raised { ready (one_at_limit
        ▸ moment (SetClientLimit (Some 2)) Pool None (ClientLimitSet (Some 2)) 3
        ▸ moment (Spawn 8) Pool None (Accepted 4) 3) ≡ 2 ∷ 3 ∷ 4 ∷ [] }
    // .. / took 1 +2 / arrived 2 / idle: the front job isn't ready, but another is
    ensures refuses_idle_beside_ready { Refuses (AnswerLaw 4) one_at_limit (moment (Take 2) (Worker 2) None TookNone 3) }
    // .. / took 1 +2 / arrived 2 / took 2: the client of the front job is at its limit
    ensures refuses_take_at_limit { Refuses (AnswerLaw 4) one_at_limit (moment (Take 2) (Worker 2) (Some 2) (Took 2) 3) }
    // .. / took 1 +2 / arrived 2 / took 3 +3: no job is ready then
    ensures refuses_start_for_unready { Refuses (GrowthLaw 4 []) one_at_limit (starting 1 (moment (Take 2) (Worker 2) (Some 3) (Took 3) 3)) }
    // a refused job counts where its client has room
    ensures turned_away_at_limit { turned_away one_at_limit (moment (Spawn 7) Pool None (Refused NoWorker) 3) (Refused NoWorker) ≡ 0 }
    ensures turned_away_with_room { turned_away one_at_limit (moment (Spawn 8) Pool None (Refused NoWorker) 3) (Refused NoWorker) ≡ 1 }
    // .. / took 3 / .. / ended 3 done / stopped 2, timed out: a job is queued
    ensures refuses_stop_beside_unready { Refuses (AnswerLaw 4) none_ready (moment (Late 2) (Worker 2) None (Stopped 2 TimedOut) 3) }
    // clients 0
    ensures refuses_limit_of_none { Refuses StepLaw [] (moment (SetClientLimit (Some 0)) Pool None (ClientLimitSet (Some 0)) 1) }
    // nothing, where a client limit may always be taken away
    ensures refuses_limit_left { Refuses StepLaw [] (moment (SetClientLimit None) Pool None NoAction 1) }
    // clients none, of a limit 1
    ensures refuses_other_limit { Refuses StepLaw [] (moment (SetClientLimit (Some 1)) Pool None (ClientLimitSet None) 1) }
{}

/// Which starts there are, and the limit as it is told.
pub fn growth()
    // accepted 1 +1 / arrived 1, told with the number that was started as the next one
    ensures refuses_number_of_started { Refuses (GrowthLaw 1 []) one_queued
        (moment Arrive (Worker 1) None (Arrived 1) 1) }
    // accepted 1 +1 / arrived 1 / accepted 2 / took 1, at limit 2
    ensures refuses_start_left_out { Refuses (GrowthLaw 2 []) two_queued
        (moment (Take 1) (Worker 1) (Some 1) (Took 1) 2) }
    // .. / delivered 1 marked / parked / ended 1 queued +2
    ensures refuses_growth_by_queuing_again { Refuses (GrowthLaw 1 []) raised_limit
        (starting 1 (moment (End 1) (Worker 1) (Some 1) (Ended 1 Queued) 2)) }
    // accepted 1 +1 / refused worker
    ensures refuses_refusal_beside_worker { Refuses (GrowthLaw 1 []) one_queued
        (moment (Spawn 0) Pool None (Refused NoWorker) 2) }
    // .. / stopped 1 / delivered 1 entered -2 / nothing
    ensures accepts_refused_start { IsServed (unstaffed_parked
        ▸ refusing (moment (Stray 1) Pool None (JobWoken 1 Entered) 2)
        ▸ moment (Take 1) (Worker 1) None NoAction 3) }
    // swept 0 / refused memory / nothing: none of them is a growth
    ensures limit_is_untold { known_limit 4 ([]
        ▸ moment Sweep Pool None (Swept 0) 1
        ▸ moment (Spawn 0) Pool None (Refused Memory) 1
        ▸ moment Arrive Pool None NoAction 1) ≡ None }
{}

/// A job that waits does nothing.
pub fn turns()
    // .. / took 1 / parked / finished
    ensures refuses_act_while_waiting { Refuses TurnLaw one_waits
        (moment (Job 1) (Worker 1) (Some 1) (Finished Absent) 2) }
{}

/// Which event a step has.
pub fn steps()
    // .. / waits / .. / answered 5 / cancelled 1 marked
    ensures refuses_cancel_of_awaited { Refuses StepLaw awaited
        (moment (Strike 1) Pool None (JobCancelled 1 Marked) 2) }
    // limit 2 / refused memory / swept 0 / accepted 1 +1 / waits, of task 1
    ensures refuses_task_of_no_job { Refuses StepLaw late_queued
        (moment (OfTask 1 Poll) (Task 1) None Waits 2) }
    // limit 3, of a limit 2
    ensures refuses_other_limit { Refuses StepLaw []
        (moment (SetLimit 2) Pool None (LimitSet 3) 1) }
    // accepted 1 +1 / detached, of a cancel
    ensures refuses_cancel_told_as_detaching { Refuses StepLaw one_queued
        (moment (OfTask 0 Cancel) (Task 0) None TaskDetached 2) }
    // .. / took 1 / peeked 2 / nothing, of a job: it asks its writer
    ensures accepts_nothing_beside_write { StepLaw two_peeked (moment (Job 1) (Worker 1) None NoAction 2) }
    // .. / took 1 / drained / nothing, of a job: it asks for the flush
    ensures accepts_nothing_beside_flush { StepLaw writer_drained (moment (Job 1) (Worker 1) None NoAction 2) }
    // .. / took 1 / nothing, of a job that asks for an item
    ensures accepts_nothing_beside_item { StepLaw stream_taken (moment (Job 1) (Worker 1) None NoAction 2) }
    // .. / took 1 / nothing, of a job that asks for a seek
    ensures accepts_nothing_beside_seek { StepLaw old_seek_taken (moment (Job 1) (Worker 1) None NoAction 2) }
{}

/// What a task finds, who is seated, and who waits.
pub fn tasks()
    // .. / answered 5 / cancelled / finished / got 5
    ensures refuses_answer_after_cancel { Refuses FirstTaskLaw cancelled_finished
        (moment (OfTask 0 Poll) (Task 0) None (TaskGot 5) 2) }
    // .. / waits / .. / answered 5 / finished wake owner
    ensures waker_is_taken { task_seat (task_cut 0 1 (events awaited_finished)) ≡ false }
    // accepted 1 +1 / cancelled / waits / arrived 1 / took 1 dropped / gave up / ended 1 dropped
    ensures refuses_wait_for_dropped { Refuses (Keeps NoLostWake) untold_given_up
        (moment (End 1) (Worker 1) (Some 1) (Ended 1 Dropped) 2) }
{}

/// What a poll of an owner does next, what it is answered, and what is told to be over.
pub fn owners()
    // .. / waits / replied ok 0, where the poll is over
    ensures refuses_poll_after_wait { Refuses StepLaw reader_waits (polls (Replied (Count 0)) 2) }
    // .. / got 6162 wake 1 / replied ok 2
    ensures refuses_undelivered_note { Refuses FirstOwnerLaw two_got (polls (Replied (Count 2)) 2) }
    // .. / answered 61626364 / put 4 wake owner / .. / got 6162 wake 1
    ensures rest_is_inside { inside (cut 0 (events two_got)) ≡ 99 ∷ 100 ∷ [] }
    // .. / got 6162 wake 1 / delivered 1 entered / replied ok 2 / asked / got 6364 wake 1
    ensures refuses_note_twice { Refuses FirstOwnerLaw (two_told ▸ polls (Replied (Count 2)) 2 ▸ asks (Read 2) 2)
        (polls (Got (99 ∷ 100 ∷ []) (Some 1)) 2) }
    // .. / asked / got end / back
    ensures tells_the_end { next_of_owner (cut 0 (events reader_back)) ≡ Say (Count 0) }
    // .. / ended 1 parked / asked / replied ok 0
    ensures refuses_early_end { Refuses FirstOwnerEnds (reader_parked ▸ asks (Read 2) 2) (polls (Replied (Count 0)) 2) }
    // .. / room 4 / answered fault 8 / answered - / asked / back / replied ok 0: a failure came before that end
    ensures refuses_end_behind_fault { Refuses FirstOwnerEnds
        (room_found ▸ given 1 (FailedAnswer 8) ▸ given 1 (Gave []) ▸ asks (Read 2) 2 ▸ polls Back 2) (polls (Replied (Count 0)) 2) }
    // .. / delivered 1 entered / .. / waits / took 1 / parked / ended 1 parked
    ensures refuses_wait_for_parked { Refuses (Keeps NoLostOwnerWake) told_before (ends 1 (Ended 1 Parked)) }
    // .. / got 6162 wake 1 / delivered 1 entered / replied ok 2 / took 1 / parked / ended 1 parked: there is room for two
    ensures refuses_parked_beside_room { Refuses (Keeps NoLostOwnerWake)
        (two_told ▸ polls (Replied (Count 2)) 2 ▸ takes 1 (Took 1) ▸ works 1 JobParked) (ends 1 (Ended 1 Parked)) }
    // .. / put 2 / replied ok 2 / arrived 1 / took 1 / parked / ended 1 parked: there are two bytes to be written
    ensures refuses_parked_beside_bytes { Refuses (Keeps NoLostOwnerWake)
        (two_filled ▸ polls (Replied (Count 2)) 2 ▸ moment Arrive (Worker 1) None (Arrived 1) 2 ▸ takes 1 (Took 1) ▸ works 1 JobParked)
        (ends 1 (Ended 1 Parked)) }
{}

/// What the job of an owner does next, and which job a dropped owner lets go.
pub fn jobs_of_owners()
    // .. / room 4 / answered 6162636465
    ensures refuses_more_than_asked { Refuses FirstOwnerLaw room_found
        (given 1 (Gave (97 ∷ 98 ∷ 99 ∷ 100 ∷ 101 ∷ []))) }
    // .. / answered - / room 4
    ensures refuses_read_after_end { Refuses FirstOwnerLaw end_given (works 1 (RoomFree 4)) }
    // .. / answered 61626364 / gave up
    ensures refuses_giving_up_unasked { Refuses FirstOwnerLaw four_given (works 1 (GaveUp Absent)) }
    // .. / back / replied handle / asked / accepted 2 / took 2 / room 4: the owner's end is open in the next session
    ensures accepts_open_again { FirstOwnerLaw (stop_back ▸ polls (Replied Handle) 2 ▸ asks (Read 2) 2 ▸ polls (Accepted 2) 2
        ▸ takes 2 (Took 2)) (works 2 (RoomFree 4)) }
    // .. / ended 1 parked / dropped
    ensures dropped_owner_marks { is_marked reader_dropped 1 ≡ true }
{}

/// What a poll of an owner that writes does next, and what a flush tells.
pub fn writers()
    // .. / replied ok / asked (to close) / replied ok / asked (for the handle)
    ensures refuses_call_of_closed { Refuses FirstOwnerLaw writer_closed (asks GetMut 2) }
    ensures refuses_step_to_closed { Refuses StepLaw writer_closed (asks GetMut 2) }
    // .. / replied ok / asked (to close) / replied ok / asked (to close)
    ensures accepts_close_of_closed { FirstOwnerLaw writer_closed (asks Close 2) }
    // .. / ended 1 parked / asked (to flush) / replied ok
    ensures refuses_early_flush { Refuses FirstOwnerLaw flush_asked (polls (Replied Okay) 2) }
    // .. / put 2 / replied ok 3
    ensures refuses_other_count { Refuses FirstOwnerLaw two_filled (polls (Replied (Count 3)) 2) }
    // .. / ended 1 done / asked (to write 61) / put shut / replied ok 1
    ensures refuses_count_of_closed_pipe { Refuses FirstOwnerLaw
        (then_done none_written ▸ asks (Write (97 ∷ [])) 2 ▸ polls FillShut 2) (polls (Replied (Count 1)) 2) }
    // .. / ended 1 parked / asked (to write 61) / put 1 wake 1 / replied ok 1
    ensures refuses_undelivered_note_of_put { Refuses FirstOwnerLaw
        (writer_parked ▸ asks (Write (97 ∷ [])) 2 ▸ polls (Filled 1 (Some 1)) 2) (polls (Replied (Count 1)) 2) }
    // .. / put 1 wake 1 / delivered 1 entered / replied ok 1 / asked (to write 62) / put 1 wake 1
    ensures refuses_note_of_put_twice { Refuses FirstOwnerLaw
        (writer_parked ▸ asks (Write (97 ∷ [])) 2 ▸ polls (Filled 1 (Some 1)) 2 ▸ polls (JobWoken 1 Entered) 2
        ▸ polls (Replied (Count 1)) 2 ▸ asks (Write (98 ∷ [])) 2) (polls (Filled 1 (Some 1)) 2) }
    // .. / peeked 1 / answered fault 8 / answered 1 / answered ok / .. / back / replied ok: all was taken, and flushed
    ensures refuses_fault_hidden_by_flush { Refuses FirstOwnerEnds
        (then_back (one_peeked ▸ given 1 (FailedAnswer 8) ▸ given 1 (Number 1) ▸ given 1 Fine)) (polls (Replied Okay) 2) }
    // .. / peeked 1 / answered 0 / answered 1 / answered ok / .. / back / replied ok: all was taken, and flushed
    ensures refuses_none_as_written { Refuses FirstOwnerEnds
        (then_back (one_peeked ▸ given 1 (Number 0) ▸ given 1 (Number 1) ▸ given 1 Fine)) (polls (Replied Okay) 2) }
    // .. / peeked 2 / answered 1 / answered ok / .. / back / replied ok: no write failed, and it was flushed
    ensures refuses_part_as_written { Refuses FirstOwnerEnds
        (then_back (two_peeked ▸ given 1 (Number 1) ▸ given 1 Fine)) (polls (Replied Okay) 2) }
    // .. / peeked 1 / answered 1 / .. / back / replied ok: all was taken
    ensures refuses_unflushed { Refuses FirstOwnerEnds (then_back (one_peeked ▸ given 1 (Number 1))) (polls (Replied Okay) 2) }
    // .. / drained / answered fault 9 / .. / asked (to close) / back / replied ok
    ensures refuses_close_of_unflushed { Refuses FirstOwnerEnds unflushed_back (polls (Replied Okay) 2) }
{}

/// What the job of an owner that writes does next, what it wrote, and what is inside its pipe.
pub fn jobs_of_writers()
    // .. / peeked 2 / taken 2 wake owner: its writer hasn't taken them
    ensures refuses_taken_before_answer { Refuses FirstOwnerLaw two_peeked (works 1 (TakenOut 2 Taken)) }
    // .. / peeked 2 / answered 3
    ensures refuses_more_than_offered { Refuses FirstOwnerLaw two_peeked (given 1 (Number 3)) }
    // .. / drained / closed
    ensures refuses_close_before_flush { Refuses FirstOwnerLaw writer_drained (works 1 (JobClosed Absent)) }
    // .. / peeked 1 / answered 0 / peeked 1
    ensures refuses_peek_after_none { Refuses FirstOwnerLaw (one_peeked ▸ given 1 (Number 0)) (works 1 (Peeked (97 ∷ []))) }
    // .. / waits / .. / peeked 2 / answered 1 / taken 1
    ensures refuses_forgotten_waker { Refuses FirstOwnerLaw one_answered (works 1 (TakenOut 1 Absent)) }
    // .. / replied ok 1 / answered 1 / taken 1 wake owner
    ensures refuses_waker_twice { Refuses FirstOwnerLaw (last_filled ▸ given 1 (Number 1)) (works 1 (TakenOut 1 Taken)) }
    // answered 0, after peeked 01
    ensures none_is_a_fault { fault Writing (Answered (Number 0) ∷ Peeked (1 ∷ []) ∷ []) ≡ Some WriteZero }
    // .. / peeked 2 / answered 1 / taken 1 wake owner
    ensures rest_is_inside_to_write { inside (cut 0 (events one_written)) ≡ 121 ∷ [] }
    // .. / put 2 / .. / put 1
    ensures accepted_in_order { accepted (own (cut 0 (events last_filled))) ≡ 120 ∷ 121 ∷ 122 ∷ [] }
    // answered 1 of 0102, after answered 1 of 0304
    ensures taken_in_order { taken (Answered (Number 1) ∷ Peeked (1 ∷ 2 ∷ []) ∷ Answered (Number 1) ∷ Peeked (3 ∷ 4 ∷ []) ∷ []) ≡ 3 ∷ 1 ∷ [] }
{}

/// How far a writer may be behind its owner.
pub fn writers_behind()
    // .. / accepted 1 +1 / put 2
    ensures accepts_full_pipe { WritesBehind (cut 0 (events two_filled)) }
    // .. / accepted 1 +1 / put 3, into a pipe of two
    ensures refuses_more_than_the_pipe { Refuses (Keeps AllWriteBehind) write_begun (polls (Filled 3 None) 2) }
    // .. / peeked 2 / asked (to write 7a) / put 1: its writer took none
    ensures refuses_more_than_was_taken { Refuses (Keeps AllWriteBehind)
        (two_peeked ▸ asks (Write (122 ∷ [])) 2) (polls (Filled 1 None) 2) }
    // .. / answered 1 / .. / put 1 / replied ok 1
    ensures accepts_what_was_taken { WritesBehind (cut 0 (events last_filled)) }
{}

/// What an owner may see that is alone, and where each owner saw what it might have seen alone.
pub fn owners_alone()
    // accepted 1 +1 / accepted 2 / accepted 3 / accepted 4 / accepted 5 / accepted 6 -2
    ensures refused_start_is_no_refusal { is_without_refusal (events second_refused) ≡ true }
    // limit 2 / refused memory / swept 0 / accepted 1 +1
    ensures refused_job_is_one { is_without_refusal (events late_queued) ≡ false }
    // made 0
    ensures accepts_its_own { Solo 0 (events writer_made) }
    ensures refuses_another_owners { Solo 1 (events writer_made) → ⊥ }
    // made 0 / asked / refused memory
    ensures refuses_refused_job { Solo 0 (events (item_asked ▸ polls (Refused Memory) 1)) → ⊥ }
    // made 0 / made 0
    ensures refuses_second_making { Solo 0 (events (writer_made ▸ moment (New 2 0) (Owner 0) None (Made 0 2) 1)) → ⊥ }
    // made 0 / parked, of no job
    ensures refuses_act_of_no_job { Solo 0 (events (writer_made ▸ of_owner 0 (moment (Job 1) (Worker 1) None JobParked 1))) → ⊥ }
    // .. / waits / replied ok 0, where the poll is over
    ensures refuses_unlawful_owner { Refuses (Keeps AreIndependent) reader_waits (polls (Replied (Count 0)) 2) }
{}

/// What an owner finds that takes items, what its job does next, and which end it is told.
pub fn streams()
    // .. / ended 1 done / asked / replied end
    ensures refuses_end_beside_item { Refuses FirstOwnerEnds second_asked (polls (Replied NoMore) 2) }
    // .. / asked / got end / back / replied end
    ensures accepts_end_of_items { FirstOwnerEnds stream_back (polls (Replied NoMore) 2) }
    // .. / ended 1 done / asked / got end
    ensures refuses_end_of_filled_pipe { Refuses FirstOwnerLaw second_asked (polls GotEnd 2) }
    // .. / replied item 0 / .. / asked / got item 0
    ensures refuses_item_twice { Refuses FirstOwnerLaw second_asked (polls (GotItem 0 None) 2) }
    // .. / asked / got item 0 wake 1: it is no longer inside
    ensures got_item_is_out { inside (cut 0 (events first_got)) ≡ [] }
    // .. / answered item 1 / parked / answered item 2
    ensures refuses_dropped_item { Refuses FirstOwnerLaw second_waits (given 1 (Item 2)) }
    ensures refuses_two_in_hand { Refuses (Keeps FirstOwnerPasses) second_waits (given 1 (Item 2)) }
    // put 1, after answered item 5
    ensures asks_for_next { next_of_job Streaming (Put 1 Absent ∷ Answered (Item 5) ∷ []) ≡ AskItem }
    // parked, after answered item 5
    ensures sends_again { next_of_job Streaming (JobParked ∷ Answered (Item 5) ∷ []) ≡ SendItem 5 }
    // .. / got item 0 wake 1 / replied item 0
    ensures refuses_undelivered_note_of_item { Refuses FirstOwnerLaw first_got (polls (Replied (OneItem 0)) 2) }
    // .. / ended 1 done / asked / got item 1 wake 1
    ensures refuses_note_of_item_twice { Refuses FirstOwnerLaw second_asked (polls (GotItem 1 (Some 1)) 2) }
    // .. / answered item 0 / parked: there is room
    ensures refuses_wait_beside_room { Refuses FirstOwnerLaw first_given (works 1 JobParked) }
    // .. / ended 1 parked / asked / waits: there is an item
    ensures refuses_wait_beside_item { Refuses FirstOwnerLaw first_asked (polls Waits 2) }
    // made 0, with the default
    ensures default_of_items { capacity Streaming (Made 0 0 ∷ []) ≡ 8192 }
    // made 0 / asked / refused memory / replied fault refused memory
    ensures refuses_refusal_as_fault { Refuses FirstOwnerLaw (item_asked ▸ polls (Refused Memory) 1)
        (polls (Replied (FailedReply (FaultRefused Memory))) 1) }
{}

/// What a seek tells, what an operation gives, and when the handle is given for good.
pub fn seeks_and_operations()
    // .. / answered 7 / .. / ended 1 done / asked (to seek s9) / back / replied ok 7
    ensures refuses_older_position { Refuses FirstOwnerLaw other_asked (polls (Replied (Count 7)) 2) }
    // .. / answered 7 / .. / ended 1 done / asked (to seek s7) / back / accepted 2: its answer is there
    ensures refuses_second_seek { Refuses FirstOwnerLaw (old_sought ▸ asks (Seek (Start 7)) 2 ▸ polls Back 2) (polls (Accepted 2) 2) }
    // .. / answered fault 5 / .. / ended 1 done / asked (to seek s9) / back / accepted 2
    ensures refuses_untold_fault { Refuses FirstOwnerLaw (seek_failed ▸ asks (Seek (Start 9)) 2 ▸ polls Back 2) (polls (Accepted 2) 2) }
    // .. / answered fault 5 / .. / ended 1 done / asked (for an item) / back / accepted 2: who asks for an item isn't told that fault
    ensures accepts_item_after_fault { FirstOwnerLaw (seek_failed ▸ asks Next 2 ▸ polls Back 2) (polls (Accepted 2) 2) }
    // .. / answered fault 5 / .. / ended 1 done / asked (for an operation) / back / accepted 2: nor who asks for an operation
    ensures accepts_operation_after_fault { FirstOwnerLaw (seek_failed ▸ asks Operate 2 ▸ polls Back 2) (polls (Accepted 2) 2) }
    // .. / answered fault 5 / asked (for an operation) / waits / .. / ended 1 done / asked (for the result) / back / accepted 2
    ensures accepts_result_after_fault { FirstOwnerLaw
        (then_sought (old_seek_taken ▸ given 1 (FailedAnswer 5) ▸ asks Operate 2 ▸ polls Waits 2) ▸ asks OperateAgain 2 ▸ polls Back 2)
        (polls (Accepted 2) 2) }
    // a reading session is stopped / waits / .. / asked (for the result) / back / accepted 2 / waits / took 2 / answered 9 /
    // result wake owner
    ensures accepts_result_of_asked_again { FirstOwnerLaw
        (then_stopped stop_for_operation ▸ asks OperateAgain 2 ▸ polls Back 2 ▸ polls (Accepted 2) 2 ▸ polls Waits 2
        ▸ takes 2 (Took 2) ▸ given 2 (Number 9)) (works 2 (ResultPut Taken)) }
    // a reading session is stopped / waits / .. / asked (for the result) / back / refused worker / replied refused worker
    ensures accepts_refusal_of_asked_again { FirstOwnerLaw
        (then_stopped stop_for_operation ▸ asks OperateAgain 2 ▸ polls Back 2 ▸ polls (Refused NoWorker) 2)
        (polls (Replied (NotBegun NoWorker)) 2) }
    // .. / result wake owner / delivered owner / asked (for an operation) / result 9
    ensures refuses_older_result { Refuses FirstOwnerLaw (nine_put ▸ asks Operate 2) (polls (ResultGot 9) 2) }
    // .. / delivered owner / asked (for an operation) / waits / asked (for the result) / result 9: that of the one before
    ensures refuses_older_result_again { Refuses FirstOwnerLaw older_asked (polls (ResultGot 9) 2) }
    // .. / accepted 1 +1 / result 0
    ensures refuses_early_result { Refuses FirstOwnerLaw operation_begun (polls (ResultGot 0) 2) }
    // .. / result wake owner / delivered owner
    ensures result_takes_its_seat { result_seat (cut 0 (events nine_put)) ≡ false }
    // .. / accepted 1 +1 / waits / ..
    ensures wait_takes_its_seat { result_seat (cut 0 (events operation_taken)) ≡ true }
    // .. / delivered owner / asked (to read) / waits / asked (for the result)
    ensures refuses_result_of_given_up { Refuses FirstOwnerLaw (nine_put ▸ asks (Read 2) 2 ▸ polls Waits 2) (asks OperateAgain 2) }
    // .. / ended 1 parked / asked (for the handle, for good) / replied handle
    ensures refuses_lent_handle { Refuses FirstOwnerLaw inner_asked (polls (Replied Handle) 2) }
    // .. / waits / asked (to read)
    ensures refuses_read_after_inner { Refuses FirstOwnerLaw inner_waits (asks (Read 2) 2) }
    // .. / back / replied handle / asked (for the handle, for good)
    ensures refuses_call_of_gone { Refuses FirstOwnerLaw inner_replied (asks IntoInner 2) }
    // .. / back / replied handle / dropped
    ensures refuses_drop_of_gone { Refuses FirstOwnerLaw inner_replied (drops 2) }
{}
