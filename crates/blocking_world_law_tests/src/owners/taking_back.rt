//! What owners keep who take their handle back for good.
ghost use Rattle.std.specs.Prelude.{◌≡◌, Some, None, true, false};
ghost use Rattle.blocking_pool.specs.declared.pool.answer.Woke.TheVariants.{Entered, Nothing};
ghost use Rattle.blocking_world_laws.specs.Seen.{EachMayFollow, events, cut, own};
ghost use Rattle.blocking_world_laws.specs.Sessions.{is_owner_gone};
ghost use Rattle.blocking_world_laws.specs.Steps.{StepLaw};
ghost use Rattle.blocking_world_laws.specs.Traces.{◌▸◌, moment, Refuses};
ghost use Rattle.blocking_world_laws.specs.OwnerTraces.{asks, polls, drops, FirstOwnerLaw, KeepsFirstOwner};
ghost use Rattle.blocking_world_laws.specs.OwnerTraces.{one_made, end_read, failed_done};
ghost use Rattle.blocking_world_laws.specs.WriteTraces.{writer_closed};
ghost use Rattle.blocking_world_laws.specs.OpTraces.{inner_asked, inner_waits, inner_back, inner_replied, operation_taken};
ghost use Rattle.blocking_world_laws.specs.declared.event.Act.TheVariants.{OwnerClosed, JobCancelled, HolderDropped, Back, Replied, Waits, NoAction};
ghost use Rattle.blocking_world_laws.specs.declared.event.Party.TheVariants.{Owner, Pool};
ghost use Rattle.blocking_world_laws.specs.declared.event.Reply.TheVariants.{Handle};
ghost use Rattle.blocking_world_laws.specs.declared.step.HandleCall.TheVariants.{Read, Flush, Close, Operate, GetMut, IntoInner};
ghost use Rattle.blocking_world_laws.specs.declared.step.Step.TheVariants.{Ask, DropOwner, Strike};

/// The handle is told once it is there: at once where it is idle, else after its session was stopped.
pub fn tables()
    // .. / closed wake 1 / delivered 1 entered / waits / .. / asked / back / replied handle
    ensures accepts_stop { KeepsFirstOwner inner_replied }
    // made 0 / asked / replied handle
    ensures accepts_idle_handle { KeepsFirstOwner (one_made ▸ asks IntoInner 1 ▸ polls (Replied Handle) 1) }
    // .. / answered fault 8 / .. / ended 1 done / asked / closed / back / replied handle: the fault is told to nobody
    ensures accepts_untold_fault { KeepsFirstOwner (failed_done
        ▸ asks IntoInner 2 ▸ polls (OwnerClosed None) 2 ▸ polls Back 2 ▸ polls (Replied Handle) 2) }
    // .. / ended 1 parked / asked / replied handle: a job has it
    ensures refuses_lent_handle { Refuses FirstOwnerLaw inner_asked (polls (Replied Handle) 2) }
    // .. / accepted 1 +1 / waits / .. / took 1 / asked / replied handle: a job runs with it
    ensures refuses_handle_of_running_job { Refuses FirstOwnerLaw (operation_taken ▸ asks IntoInner 2) (polls (Replied Handle) 2) }
    // .. / accepted 1 +1 / waits / .. / took 1 / asked / back: it hasn't finished
    ensures refuses_early_return { Refuses FirstOwnerLaw (operation_taken ▸ asks IntoInner 2) (polls Back 2) }
    // .. / closed wake 1 / delivered 1 entered / waits / replied handle: the poll is over
    ensures refuses_handle_after_wait { Refuses FirstOwnerLaw inner_waits (polls (Replied Handle) 2) }
{}

/// Once the handle was asked for for good, it is asked for so and no more, and once it was told, its owner is gone.
pub fn calls()
    // .. / waits / asked (for the handle, for good)
    ensures accepts_again { KeepsFirstOwner (inner_waits ▸ asks IntoInner 2 ▸ polls Waits 2) }
    // .. / waits / dropped
    ensures accepts_drop { KeepsFirstOwner (inner_waits ▸ drops 2) }
    // .. / waits / asked (to read)
    ensures refuses_read { Refuses FirstOwnerLaw inner_waits (asks (Read 2) 2) }
    ensures refuses_handle { Refuses FirstOwnerLaw inner_waits (asks GetMut 2) }
    ensures refuses_flush { Refuses FirstOwnerLaw inner_waits (asks Flush 2) }
    ensures refuses_close { Refuses FirstOwnerLaw inner_waits (asks Close 2) }
    // .. / back / replied handle / asked
    ensures refuses_again { Refuses FirstOwnerLaw inner_replied (asks IntoInner 2) }
    // .. / back / replied handle / dropped
    ensures refuses_drop { Refuses FirstOwnerLaw inner_replied (drops 2) }
    ensures is_gone { is_owner_gone (own (cut 0 (events inner_replied))) ≡ true }
    // .. / asked (to close) / replied ok / asked (for the handle, for good): it is gone
    ensures refuses_closed { Refuses FirstOwnerLaw writer_closed (asks IntoInner 2) }
{}

/// Once the handle was asked for for good, a step that asks for anything else has no action. An owner that gave its handle back is gone,
/// and lets no job go, while one that was dropped does.
pub fn steps()
    // .. / asked / closed wake 1 / delivered 1 entered / waits / .. / asked / back / replied handle
    ensures accepts_session { EachMayFollow StepLaw inner_replied }
    // .. / waits / nothing
    ensures refuses_nothing { Refuses StepLaw inner_waits (moment (Ask 0 IntoInner) (Owner 0) None NoAction 2) }
    // .. / waits / nothing, of a call to read
    ensures accepts_nothing_for_read { StepLaw inner_waits (moment (Ask 0 (Read 2)) (Owner 0) None NoAction 2) }
    // .. / waits / asked (to read)
    ensures refuses_read_in_step { Refuses StepLaw inner_waits (asks (Read 2) 2) }
    // .. / waits / asked (for an operation)
    ensures refuses_operation { Refuses StepLaw inner_waits (asks Operate 2) }
    // .. / back / replied handle / nothing, of a call for the handle
    ensures accepts_nothing_of_gone { StepLaw inner_replied (moment (Ask 0 IntoInner) (Owner 0) None NoAction 2) }
    // .. / back / replied handle / asked
    ensures refuses_call_of_gone { Refuses StepLaw inner_replied (asks IntoInner 2) }
    // .. / back / replied handle / nothing
    ensures accepts_nothing { StepLaw inner_replied (moment (Strike 1) Pool None NoAction 2) }
    // .. / back / replied handle / cancelled 1 nothing
    ensures refuses_cancel { Refuses StepLaw inner_replied (moment (Strike 1) Pool None (JobCancelled 1 Nothing) 2) }
    // .. / back / replied handle / nothing, of a drop
    ensures accepts_no_drop { StepLaw inner_replied (moment (DropOwner 0) (Owner 0) None NoAction 2) }
    // .. / back / replied handle / dropped
    ensures refuses_drop { Refuses StepLaw inner_replied (drops 2) }
    // .. / waits / dropped / cancelled 1 marked: the job is queued
    ensures accepts_cancel_of_dropped { StepLaw (inner_waits ▸ drops 2) (moment (Strike 1) Pool None (JobCancelled 1 Entered) 2) }
{}
