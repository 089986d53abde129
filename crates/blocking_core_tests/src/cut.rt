//! Two owners over one pool, whose steps are taken in turn: the cut of each has what it sees alone.
use crate::row::PlainStep::{
    Arrive, AskFlush, AskRead, AskWrite, End, Flushed, Gives, Io, Job, New, Own, Take,
};
use crate::row::{PlainStep, add_line, texts};
use blocking_world::{World, cut, run};
use blocking_world_laws::event::Event;
use std::alloc::{AllocError, Global};
use std::test::Fail;

// Whose event it is: of the first owner or of its job, of the second, or of the pool alone.
#[derive(Clone, Copy)]
enum Whose {
    First,
    Second,
    Pool,
}

use Whose::{First, Pool, Second};

// The first owner reads six bytes through a pipe of four, two by two; the second writes three through a pipe of two, to a writer that takes
// one at a time. Their jobs run on two workers.
const STEPS: &[(Whose, PlainStep, &str)] = &[
    (First, New(4), "made 0"),
    (Second, New(2), "made 1"),
    (First, AskRead(0, 2), "asked"),
    (Second, AskWrite(1, "xyz"), "asked"),
    (First, Own(0), "accepted 1 +1"),
    (First, Own(0), "waits"),
    (Pool, Arrive, "arrived 1"),
    (Pool, Take(1), "took 1"),
    (Second, Own(1), "accepted 2 +2"),
    (Second, Own(1), "put 2"),
    (First, Job(1), "room 4"),
    (Second, Own(1), "replied ok 2"),
    (Second, AskWrite(1, "z"), "asked"),
    (First, Gives(1, "abcd"), "answered 61626364"),
    (Second, Own(1), "waits"),
    (Pool, Arrive, "arrived 2"),
    (Pool, Take(2), "took 2"),
    (First, Job(1), "put 4 wake owner"),
    (Second, Job(2), "peeked 2"),
    (First, Job(1), "delivered owner"),
    (Second, Io(2, 1), "answered 1"),
    (First, Job(1), "parked"),
    (Second, Job(2), "taken 1 wake owner"),
    (Pool, End(1), "ended 1 parked"),
    (Second, Job(2), "delivered owner"),
    (First, AskRead(0, 2), "asked"),
    (Second, Job(2), "peeked 1"),
    (Second, AskWrite(1, "z"), "asked"),
    (First, Own(0), "got 6162 wake 1"),
    (Second, Own(1), "put 1"),
    (First, Own(0), "delivered 1 entered"),
    (First, Own(0), "replied ok 2"),
    (Second, Own(1), "replied ok 1"),
    (First, AskRead(0, 2), "asked"),
    (Second, Io(2, 1), "answered 1"),
    (First, Own(0), "got 6364"),
    (First, Own(0), "replied ok 2"),
    (Second, Job(2), "taken 1"),
    (Pool, Take(1), "took 1"),
    (Second, Job(2), "peeked 1"),
    (First, Job(1), "room 4"),
    (Second, Io(2, 1), "answered 1"),
    (First, Gives(1, "ef"), "answered 6566"),
    (Second, Job(2), "taken 1"),
    (First, Job(1), "put 2"),
    (Second, Job(2), "parked"),
    (Pool, End(2), "ended 2 parked"),
    (First, Job(1), "room 2"),
    (Second, AskFlush(1), "asked"),
    (First, Gives(1, ""), "answered -"),
    (Second, Own(1), "closed wake 2"),
    (Second, Own(1), "delivered 2 entered"),
    (Second, Own(1), "waits"),
    (First, Job(1), "closed"),
    (First, Job(1), "finished"),
    (Pool, End(1), "ended 1 done"),
    (Pool, Take(1), "took 2"),
    (Second, Job(1), "drained"),
    (First, AskRead(0, 2), "asked"),
    (Second, Flushed(1), "answered ok"),
    (First, Own(0), "got 6566"),
    (First, Own(0), "replied ok 2"),
    (Second, Job(1), "closed"),
    (First, AskRead(0, 2), "asked"),
    (Second, Job(1), "finished wake owner"),
    (First, Own(0), "got end"),
    (Second, Job(1), "delivered owner"),
    (Pool, End(1), "ended 2 done"),
    (First, Own(0), "back"),
    (Second, AskFlush(1), "asked"),
    (First, Own(0), "replied ok 0"),
    (Second, Own(1), "back"),
    (Second, Own(1), "replied ok"),
    (Pool, Own(0), "nothing"),
];

// The events of all steps.
fn seen(alloc: Global) -> Result<Vec<Event>, AllocError> {
    let mut steps = Vec::new(alloc);
    for (_, step, _) in STEPS {
        steps.push(step.step(alloc)?)?;
    }
    let mut world = World::new(alloc, Some("4"), Vec::new(alloc));
    let events = run(alloc, &mut world, &steps);
    world.close();
    events
}

// The texts of the events of this owner and of its job, or of all events, a line each.
fn texts_of(alloc: Global, owner: Option<usize>) -> Result<String, AllocError> {
    let mut texts = String::new(alloc);
    for (whose, _, text) in STEPS {
        let of = match whose {
            First => Some(0),
            Second => Some(1),
            Pool => None,
        };
        if owner.is_none() || of == owner {
            add_line(&mut texts, text)?;
        }
    }
    Ok(texts)
}

// Whether all are seen, and the cut of each owner has its own events and those of its job, and no others. The third isn't there.
fn all_see_their_own(alloc: Global) -> Result<bool, AllocError> {
    let events = seen(alloc)?;
    if texts(alloc, &events)? != texts_of(alloc, None)? {
        return Ok(false);
    }
    for owner in 0..3 {
        let kept = cut(alloc, owner, &events)?;
        if texts(alloc, &kept)? != texts_of(alloc, Some(owner))? {
            return Ok(false);
        }
    }
    Ok(true)
}

// A refused allocation succeeds at the next try.
#[test]
fn each_owner_sees_what_it_sees_alone(rt: HostRuntime) -> Result<(), Fail> {
    let is_right = match all_see_their_own(rt.alloc()) {
        Ok(is_right) => is_right,
        Err(_) => {
            println!(&rt; "refused: a run, a cut or the test's own")?;
            all_see_their_own(rt.alloc())?
        }
    };
    assert!(&rt; is_right);
    Ok(())
}
