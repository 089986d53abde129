//! What is seen of one owner alone.
ghost use Rattle.std.specs.Prelude.{◌≡◌, List, cond, [], ◌∷◌, ◌++◌, IfOk};
ghost use Rattle.blocking_world_laws.specs.Seen.{cut, is_in_cut, is_nothing, is_of_pool, is_owner, is_some_worker, is_this};

use blocking_world_laws::{Act, Event, Party};
use std::alloc::{AllocError, Global};

/// The events of this owner, by its number from 0, and of its jobs, in the order in which they are given. Those that the pool alone
/// decides aren't among them: a take, the end of a turn, a job that is handed out to be dropped. Nor are those of steps that did
/// nothing.
///
/// Of what a world saw in which no new job was refused, they keep the owner's own laws, which name no other owner (docs/LAWS.md, "Solo").
/// Err where there is no memory for the list or for the bytes in it.
pub fn cut(alloc: Global, owner: usize, events: &[Event]) -> Result<Vec<Event>, AllocError>
    ensures { IfOk result (λ kept. kept.items ≡ cut owner events.now) }
{
    let mut kept = Vec::new(alloc);
    for event in events {
        keep(&mut kept, owner, event)?;
    }
    Ok(kept)
}

// Adds an event to those that were kept, if it is one of the cut.
fn keep(kept: &mut Vec<Event>, owner: usize, event: &Event) -> Result<(), AllocError>
    ensures { IfOk result (λ _. kept.new.items ≡ kept.old.items ++ cond (is_in_cut owner event.now) (event.now ∷ []) []) }
{
    if is_in_cut(owner, event) {
        kept.push(event.twin()?)?;
    }
    Ok(())
}

// Whether an event is of this owner or of one of its jobs.
fn is_in_cut(owner: usize, event: &Event) -> bool
    ensures { result ≡ is_in_cut owner event.now }
{
    if is_of_pool(&event.act) || matches!(event.act, Act::NoAction) {
        return false;
    }
    match event.party {
        Party::Owner(number) => number == owner,
        Party::Worker(_) => event.owner == Some(owner),
        Party::Task(_) | Party::Pool => false,
    }
}

// Whether the pool alone decides what is seen.
fn is_of_pool(act: &Act) -> bool
    ensures { result ≡ is_of_pool act.now }
{
    matches!(
        act,
        Act::Took(_) | Act::TookDropped(_) | Act::Ended(_, _) | Act::HandedOut(_)
    )
}
