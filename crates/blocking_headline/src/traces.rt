//! Short traces that the page accepts, and moments that it refuses. Each function has an empty body, and is about one sentence.
//!
//! A clause `accepts_..` says that the whole page, or one clause of it for the first owner, holds of a trace. A clause `refuses_..` names a
//! moment that the page refuses after a past. The traces are those of `blocking_world_laws/specs` and of `specs/CopierTraces`.
ghost use Rattle.std.specs.Prelude.{◌≡◌, [], ◌∷◌, Some, None, filter, true, false};
ghost use Rattle.blocking_pool.specs.declared.pool.answer.Woke.TheVariants.{Entered};
ghost use Rattle.blocking_pool.specs.declared.pool.standing.Standing.TheVariants.{Parked, Done};
ghost use Rattle.blocking_world_laws.specs.CopyTraces.{tells_copied};
ghost use Rattle.blocking_world_laws.specs.ItemTraces.{first_asked};
ghost use Rattle.blocking_world_laws.specs.OwnerTraces.{asks, polls, takes, works, given, ends, one_begun, reader_taken, reader_parked, two_got, two_told};
ghost use Rattle.blocking_world_laws.specs.OwnerTraces.{four_read, reader_back, stop_begun, untold_parked, told_before};
ghost use Rattle.blocking_world_laws.specs.Traces.{◌▸◌, moment, starting, Refuses, one_queued, one_arrived, one_taken, one_answered, one_finished};
ghost use Rattle.blocking_world_laws.specs.Traces.{one_done, two_queued, two_workers, awaited_finished, untold_finished};
ghost use Rattle.blocking_world_laws.specs.Traces.{of_owner, one_parked, queued_again, one_at_limit};
ghost use Rattle.blocking_world_laws.specs.WriteTraces.{write_begun, writer_taken, two_filled, all_written, flush_back, all_flushed, unflushed_back};
ghost use Rattle.blocking_headline.specs.CopierTraces.{OnlyCopiesRefuses, asks_reader, asks_writer, reader, two, copy_inside, copy_written, copy_flushed};
ghost use Rattle.blocking_headline.specs.Headline.{AtThis, Headline, IsAll, IsNotLost, polls as polls_of};
ghost use Rattle.blocking_headline.specs.Headline.{line, in_one_line, ends as ends_turn, came_back, calls, rests};
ghost use Rattle.blocking_headline.specs.Words.{Owner, Task, Worker, Pool, Accepted, Took, Ended, Got, Waits, Replied, Answered, Peeked, HolderWoken};
ghost use Rattle.blocking_headline.specs.Words.{TookDropped, JobWoken, JobCancelled, ClientLimitSet, Back, NoAction, Gave, Fine, NoMore, Close};
ghost use Rattle.blocking_headline.specs.Words.{Okay, Count, Number, Read, Flush, IsBeginning, events, cut, acts_of_owner, acts_of_task};
ghost use Rattle.blocking_headline.specs.Words.{last_job, call, got, gave, accepted, taken};
ghost use Rattle.blocking_world_laws.specs.declared.step.Step.TheVariants.{Spawn, Take, Job, Io, End, OfTask, Arrive, Strike, SetClientLimit};
ghost use Rattle.blocking_world_laws.specs.declared.step.TaskCall.TheVariants.{Poll};
ghost use Rattle.blocking_world_laws.specs.declared.event.Act.TheVariants.{Arrived, Finished, RoomFree};
ghost use Rattle.blocking_world_laws.specs.declared.event.HolderWaker.TheVariants.{Absent};

/// 1. The job that has waited longest is run.
pub fn order()
    // accepted 1 +1 / arrived 1 / accepted 2 / took 1
    ensures accepts_front { Headline 1 (two_queued ▸ moment (Take 1) (Worker 1) (Some 1) (Took 1) 2) }
    // accepted 1 +1 / arrived 1 / accepted 2 / took 2
    ensures refuses_second { Refuses (AtThis 1) two_queued (moment (Take 1) (Worker 1) (Some 2) (Took 2) 2) }
    // accepted 1 +1 / arrived 1 / took 2, which never entered
    ensures refuses_unknown { Refuses (AtThis 1) one_arrived (moment (Take 1) (Worker 1) (Some 2) (Took 2) 2) }
    // .. / took 2, which never entered / nothing
    ensures refuses_earlier_moment { Headline 1 (one_arrived ▸ moment (Take 1) (Worker 1) (Some 2) (Took 2) 2 ▸ moment Arrive Pool None NoAction 2) → ⊥ }
    // accepted 1 +1 / arrived 1 / accepted 2 (of client 7) / took 2, where no client was limited
    ensures refuses_other_client { Refuses (AtThis 1) (one_arrived ▸ moment (Spawn 7) Pool None (Accepted 2) 2)
        (moment (Take 1) (Worker 1) (Some 2) (Took 2) 2) }
    // clients none / accepted 1 +1 / arrived 1 / accepted 2 (of client 7) / took 2
    ensures refuses_other_client_unlimited { Refuses (AtThis 1) ([] ▸ moment (SetClientLimit None) Pool None (ClientLimitSet None) 1
        ▸ starting 1 (moment (Spawn 0) Pool None (Accepted 1) 1) ▸ moment Arrive (Worker 1) None (Arrived 1) 2
        ▸ moment (Spawn 7) Pool None (Accepted 2) 2) (moment (Take 1) (Worker 1) (Some 2) (Took 2) 2) }
    // clients 1 / .. / took 1 +2 / arrived 2 / took 3: job 2 is of the client of job 1, which has a job running
    ensures accepts_other_client { IsBeginning (3 ∷ []) (filter (in_one_line one_at_limit 3) (line one_at_limit)) }
{}

/// 2. One worker at a time runs a job, and does all that is done in its run.
pub fn turns()
    // .. / accepted 2 / took 1 +1 / arrived 2 / took 2: two workers, each with its job
    ensures accepts_one_each { Headline 2 (two_workers ▸ moment (Take 2) (Worker 2) (Some 2) (Took 2) 3) }
    // .. / took 1 +1 / arrived 2 / took 1: a second worker runs the job
    ensures refuses_second_worker { Refuses (AtThis 2) two_workers (moment (Take 2) (Worker 2) (Some 1) (Took 1) 3) }
    // .. / took 1 +1 / arrived 2 / took 2 by worker 1, which has job 1
    ensures refuses_second_job { Refuses (AtThis 2) two_workers (moment (Take 1) (Worker 1) (Some 2) (Took 2) 3) }
    // .. / took 1 +1 / arrived 2 / took 1 dropped, which worker 1 has
    ensures refuses_dropped_take { Refuses (AtThis 2) two_workers (moment (Take 2) (Worker 2) (Some 1) (TookDropped 1) 3) }
    // accepted 1 +1 / arrived 1 / took 1 / answered 5
    ensures accepts_act { Headline 1 one_answered }
    // accepted 1 +1 / arrived 1 / took 1 / answered 5 by worker 2
    ensures refuses_act_of_other { Refuses (AtThis 1) one_taken
        (moment (Io 2 (Number 5)) (Worker 2) (Some 1) (Answered (Number 5)) 2) }
    // .. / took 1 / answered 5 / finished / ended 1 done
    ensures accepts_end { Headline 1 one_done }
    // .. / took 1 / answered 5 / finished / ended 1 done by worker 2
    ensures refuses_end_by_other { Refuses (AtThis 1) one_finished (moment (End 2) (Worker 2) (Some 1) (Ended 1 Done) 2) }
    // .. / took 1 / answered 5 / finished / ended 1 done by worker 2, which is told of no job
    ensures refuses_end_of_no_run { Refuses (AtThis 1) one_finished (moment (End 2) (Worker 2) None (Ended 1 Done) 2) }
{}

/// 3. No start passes the limit.
pub fn starts()
    // accepted 1 +1
    ensures accepts_one { Headline 1 one_queued }
    // accepted 1 +2, where the limit is 1
    ensures refuses_two { Refuses (AtThis 1) [] (starting 2 (moment (Spawn 0) Pool None (Accepted 1) 1)) }
    // accepted 1 +1 / accepted 2 +1, where the limit is 1
    ensures refuses_one_more { Refuses (AtThis 1) one_queued (starting 1 (moment (Spawn 0) Pool None (Accepted 2) 2)) }
{}

/// 4. What is read was given, what was taken was written, in order; and it is all where a reply says so.
pub fn passes()
    // .. / answered 61626364 / put 4 / parked / ended 1 parked / asked / got 6162
    ensures accepts_read { IsBeginning (got (acts_of_owner 0 (events two_got))) (gave (last_job (cut 0 (events two_got)))) }
    // .. / ended 1 parked / asked / got 6261
    ensures refuses_swapped { Refuses (AtThis 1) (reader_parked ▸ asks (Read 2) 2) (polls (Got (98 ∷ 97 ∷ []) (Some 1)) 2) }
    // .. / put 1 / answered 1 / taken 1 / ..: all is written
    ensures accepts_written { IsBeginning (taken (last_job (cut 0 (events all_written)))) (accepted (acts_of_owner 0 (events all_written))) }
    // .. / put 2 / .. / took 1 / peeked 7978 / answered 1
    ensures refuses_swapped_writing { Refuses (AtThis 1) (writer_taken ▸ works 1 (Peeked (121 ∷ 120 ∷ []))) (given 1 (Number 1)) }
    // .. / answered - / .. / asked / got end / back / replied ok 0
    ensures accepts_end { IsAll (acts_of_owner 0 (events reader_back)) (last_job (cut 0 (events reader_back)))
        (call (acts_of_owner 0 (events reader_back))) (Replied (Count 0)) }
    // .. / answered 61626364 / put 4 / parked / ended 1 parked / asked / replied ok 0: an early end
    ensures refuses_early_end { Refuses (AtThis 1) (reader_parked ▸ asks (Read 2) 2) (polls (Replied (Count 0)) 2) }
    // .. / got 6162 / .. / took 1 / room 2 / answered - / asked / replied ok 0: two were not read
    ensures refuses_end_before_the_rest { Refuses (AtThis 1) (two_told ▸ polls (Replied (Count 2)) 2 ▸ takes 1 (Took 1)
        ▸ works 1 (RoomFree 2) ▸ given 1 (Gave []) ▸ asks (Read 2) 2) (polls (Replied (Count 0)) 2) }
    // .. / got 6364 / replied ok 2 / asked / replied ok 0: all was read, and the reader told no end
    ensures refuses_end_untold { Refuses (AtThis 1) (four_read ▸ asks (Read 2) 2) (polls (Replied (Count 0)) 2) }
    // .. / ended 1 parked / asked (to read none) / replied ok 0
    ensures accepts_empty_read { IsAll (acts_of_owner 0 (events (reader_parked ▸ asks (Read 0) 2)))
        (last_job (cut 0 (events (reader_parked ▸ asks (Read 0) 2))))
        (call (acts_of_owner 0 (events (reader_parked ▸ asks (Read 0) 2)))) (Replied (Count 0)) }
    // .. / answered item 1 / parked / ended 1 parked / asked (for an item) / replied end: an early end
    ensures refuses_early_end_of_items { Refuses (AtThis 1) first_asked (polls (Replied NoMore) 2) }
    // .. / answered ok / .. / asked (to flush) / back / replied ok
    ensures accepts_flush { IsAll (acts_of_owner 0 (events flush_back)) (last_job (cut 0 (events flush_back)))
        (call (acts_of_owner 0 (events flush_back))) (Replied Okay) }
    // .. / put 2 / replied ok 2 / asked (to flush) / replied ok: an early flush
    ensures refuses_early_flush { Refuses (AtThis 1) (two_filled ▸ polls (Replied (Count 2)) 2 ▸ asks Flush 2) (polls (Replied Okay) 2) }
    // .. / put 2 / .. / took 1 / peeked 7879 / answered 1 / answered ok / asked (to flush) / back / replied ok: one was not written
    ensures refuses_flush_of_part { Refuses (AtThis 1) (two_filled ▸ polls (Replied (Count 2)) 2 ▸ moment Arrive (Worker 1) None (Arrived 1) 2
        ▸ takes 1 (Took 1) ▸ works 1 (Peeked (120 ∷ 121 ∷ [])) ▸ given 1 (Number 1) ▸ given 1 Fine ▸ asks Flush 2 ▸ polls Back 2)
        (polls (Replied Okay) 2) }
    // .. / answered fault 9 / .. / asked (to close) / back / replied ok
    ensures refuses_failed_flush { Refuses (AtThis 1) unflushed_back (polls (Replied Okay) 2) }
    // .. / answered fault 9 / .. / asked (to close) / back / asked (to flush) / replied ok: the handle came back in an older call
    ensures accepts_later_flush { IsAll (acts_of_owner 0 (events (unflushed_back ▸ asks Flush 2)))
        (last_job (cut 0 (events (unflushed_back ▸ asks Flush 2))))
        (call (acts_of_owner 0 (events (unflushed_back ▸ asks Flush 2)))) (Replied Okay) }
    // .. / accepted 1 +1 / asked (to flush) / back / replied ok: nothing was put
    ensures accepts_flush_of_nothing { IsAll (acts_of_owner 0 (events (write_begun ▸ asks Flush 2 ▸ polls Back 2)))
        (last_job (cut 0 (events (write_begun ▸ asks Flush 2 ▸ polls Back 2))))
        (call (acts_of_owner 0 (events (write_begun ▸ asks Flush 2 ▸ polls Back 2)))) (Replied Okay) }
{}

/// 5. Who waits for a job that rests was woken.
pub fn waits()
    // .. / waits / .. / put 4 wake owner / delivered owner / parked / ended 1 parked
    ensures accepts_woken_owner { IsNotLost (Owner 0) 1 (acts_of_owner 0 (events reader_parked)) reader_parked }
    // .. / waits / .. / put 4 / parked / ended 1 parked
    ensures refuses_lost_wake { Refuses (AtThis 1) untold_parked (ends 1 (Ended 1 Parked)) }
    // accepted 1 +1 / waits / .. / finished wake owner / delivered owner / ended 1 done
    ensures accepts_woken_task { Headline 1 (awaited_finished
        ▸ moment (Job 1) (Worker 1) (Some 1) HolderWoken 2 ▸ moment (End 1) (Worker 1) (Some 1) (Ended 1 Done) 2) }
    // accepted 1 +1 / waits / .. / finished / ended 1 done
    ensures refuses_lost_wake_of_task { Refuses (AtThis 1) untold_finished (moment (End 1) (Worker 1) (Some 1) (Ended 1 Done) 2) }
    // .. / delivered owner / parked / ended 1 parked / nothing
    ensures accepts_nothing_done { IsNotLost (Owner 0) 1 (acts_of_owner 0 (events (reader_parked ▸ polls NoAction 2))) (reader_parked ▸ polls NoAction 2) }
    // .. / waits / .. / took 1: the job runs
    ensures accepts_running_job { IsNotLost (Owner 0) 1 (acts_of_owner 0 (events reader_taken)) reader_taken }
    // .. / ended 1 parked / asked / got 6162 wake 1: the owner doesn't wait
    ensures accepts_no_wait { IsNotLost (Owner 0) 1 (acts_of_owner 0 (events two_got)) two_got }
    // .. / ended 1 parked / asked / closed wake 1 / delivered 1 entered / waits
    ensures accepts_queued_job { IsNotLost (Owner 0) 1 (acts_of_owner 0 (events (stop_begun ▸ polls (JobWoken 1 Entered) 2 ▸ polls Waits 2)))
        (stop_begun ▸ polls (JobWoken 1 Entered) 2 ▸ polls Waits 2) }
    // .. / delivered owner / parked / ended 1 parked / asked / waits
    ensures refuses_wait_for_parked { Refuses (AtThis 1) (reader_parked ▸ asks (Read 2) 2) (polls Waits 2) }
    // .. / delivered 1 entered / .. / waits / took 1 / parked / ended 1 parked: the owner was woken before it waited
    ensures refuses_older_wake { Refuses (AtThis 1) told_before (ends 1 (Ended 1 Parked)) }
    // .. / waits / .. / put 4 / parked / delivered owner (of job 2) / ended 1 parked
    ensures refuses_wake_of_other { Refuses (AtThis 1)
        (untold_parked ▸ of_owner 0 (moment (Job 2) (Worker 2) (Some 2) HolderWoken 2)) (ends 1 (Ended 1 Parked)) }
    // .. / finished wake owner / delivered owner / ended 1 done
    ensures accepts_told_task { IsNotLost (Task 0) 1 (acts_of_task 0 (events (awaited_finished
        ▸ moment (Job 1) (Worker 1) (Some 1) HolderWoken 2 ▸ moment (End 1) (Worker 1) (Some 1) (Ended 1 Done) 2)))
        (awaited_finished ▸ moment (Job 1) (Worker 1) (Some 1) HolderWoken 2 ▸ moment (End 1) (Worker 1) (Some 1) (Ended 1 Done) 2) }
    // .. / finished wake owner / delivered owner / ended 1 done / nothing
    ensures accepts_nothing_done_by_task { IsNotLost (Task 0) 1 (acts_of_task 0 (events (awaited_finished
        ▸ moment (Job 1) (Worker 1) (Some 1) HolderWoken 2 ▸ moment (End 1) (Worker 1) (Some 1) (Ended 1 Done) 2
        ▸ moment (OfTask 0 Poll) (Task 0) None NoAction 2))) (awaited_finished ▸ moment (Job 1) (Worker 1) (Some 1) HolderWoken 2
        ▸ moment (End 1) (Worker 1) (Some 1) (Ended 1 Done) 2 ▸ moment (OfTask 0 Poll) (Task 0) None NoAction 2) }
    // accepted 1 +1 / arrived 1 / took 1 / delivered owner / waits / finished / ended 1 done
    ensures refuses_older_wake_of_task { Refuses (AtThis 1) (one_taken ▸ moment (Job 1) (Worker 1) (Some 1) HolderWoken 2
        ▸ moment (OfTask 0 Poll) (Task 0) None Waits 2 ▸ moment (Job 1) (Worker 1) (Some 1) (Finished Absent) 2)
        (moment (End 1) (Worker 1) (Some 1) (Ended 1 Done) 2) }
{}

/// What a copier tells is so. The page holds of all that comes before each of these moments, and `copies` alone refuses them.
pub fn copies()
    // .. / asked (to flush) / closed / drained / answered ok / closed / finished / ended 2 done / back / replied ok / copied 2
    ensures accepts_copied { Headline 1 (copy_flushed Flush two ▸ tells_copied 2) }
    // .. / asked (to flush) / .. / replied ok / copied 1
    ensures refuses_wrong_count { OnlyCopiesRefuses 1 (copy_flushed Flush two) (tells_copied 1) }
    // .. / asked (to flush) / replied ok / copied 2: the reader was asked, and both stand in the writer's pipe
    ensures refuses_all_inside { OnlyCopiesRefuses 1 (copy_inside two ▸ asks_reader Flush ▸ reader (Replied Okay)) (tells_copied 2) }
    // .. / answered 2 / taken 2 / copied 2: no flush was asked
    ensures refuses_unflushed { OnlyCopiesRefuses 1 (copy_written two) (tells_copied 2) }
    // .. / asked (to close) / .. / replied ok / copied 2
    ensures refuses_closed { OnlyCopiesRefuses 1 (copy_flushed Close two) (tells_copied 2) }
    // .. / answered 2 / taken 2 / asked (to flush) / copied 2: the flush isn't answered
    ensures refuses_unanswered { OnlyCopiesRefuses 1 (copy_written two ▸ asks_writer Flush) (tells_copied 2) }
    // .. / asked (to flush) / .. / replied ok / asked (to read 2) / copied 2: the flush wasn't asked last
    ensures refuses_read_after { OnlyCopiesRefuses 1 (copy_flushed Flush two ▸ asks_reader (Read 2)) (tells_copied 2) }
    // .. / got 6162 / .. / asked (to write 616162) / .. / put 3 / .. / answered 3 / .. / asked (to flush) / .. / replied ok / copied 2
    ensures refuses_more { OnlyCopiesRefuses 1 (copy_flushed Flush (97 ∷ 97 ∷ 98 ∷ [])) (tells_copied 2) }
{}

/// What the page's words say of short traces.
pub fn words()
    // accepted 1 +1 / arrived 1 / accepted 2
    ensures line_of_new { line two_queued ≡ 1 ∷ 2 ∷ [] }
    // accepted 1 +1 / arrived 1 / took 1
    ensures line_of_taken { line one_taken ≡ [] }
    // .. / ended 1 parked / asked / got 6162 wake 1 / delivered 1 entered
    ensures line_of_woken { line two_told ≡ 1 ∷ [] }
    // .. / parked / ended 1 parked / cancelled 1 entered
    ensures line_of_cancelled { line (one_parked ▸ moment (Strike 1) Pool None (JobCancelled 1 Entered) 2) ≡ 1 ∷ [] }
    // .. / took 1 / accepted 2 / delivered 1 marked / parked / ended 1 queued
    ensures line_of_queued_again { line queued_again ≡ 2 ∷ 1 ∷ [] }
    ensures end_of_other { ends_turn (Ended 2 Done) 1 ≡ false }
    ensures take_is_no_end { ends_turn (Took 1) 1 ≡ false }
    // .. / asked (to flush) / back / replied ok
    ensures back_before_the_reply { came_back (acts_of_owner 0 (events all_flushed)) ≡ true }
    // accepted 1 +1 / arrived 1 / accepted 2
    ensures calls_in_order { calls two_queued ≡ 1 ∷ 2 ∷ [] }
    // made 0 / asked / accepted 1 +1
    ensures calls_of_an_owner { calls one_begun ≡ [] }
    // .. / ended 1 parked / took 1
    ensures rest_of_taken { rests 1 (reader_parked ▸ takes 1 (Took 1)) ≡ false }
    // nothing
    ensures nothing_polled { polls_of 1 0 ([] ▸ polls NoAction 1) ≡ [] }
{}
