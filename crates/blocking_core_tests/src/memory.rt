//! Worlds whose memory is refused. `rt try --test --fail-alloc N` refuses the Nth piece that a test asks for: the tests here
//! end as without, whichever it is, and say what came of it.
use crate::row::PlainStep::{
    Arrive, AskNext, AskRead, AskSeek, AskWrite, End, Flushed, Gives, GivesItem, HasNoItem, Io,
    Job, Late, New, OfTask, Own, Spawn, Take,
};
use crate::row::{PlainStep, agree, texts};
use blocking_core::io::Position;
use blocking_core::pool::Refusal;
use blocking_world::{World, run};
use blocking_world_laws::event::{Act, Event};
use blocking_world_laws::step::Step;
use blocking_world_laws::step::TaskCall::Poll;
use std::alloc::Global;
use std::fmt::Write;
use std::test::Fail;

// Takes this step, whose one event has this text.
fn takes(alloc: Global, world: &mut World, step: PlainStep, text: &str) -> Result<(), Fail> {
    let events = run(alloc, world, &[step.step(alloc)?])?;
    agree("a refused session", texts(alloc, &events)?.as_str(), text)
}

// An owner whose session was refused is told so, rests, and asks again for what it asked.
fn asks_again(
    alloc: Global,
    world: &mut World,
    owner: usize,
    asked: PlainStep,
) -> Result<(), Fail> {
    let told = match asked {
        AskNext(_) => "replied refused memory\n",
        _ => "replied fault refused memory\n",
    };
    takes(alloc, world, Own(owner), told)?;
    if world.poll_under_way(owner) {
        return Err(Fail::new("an owner polls that was told"));
    }
    takes(alloc, world, asked, "asked\n")
}

// How the world stands, as far as it can be asked: its counts and its limit, and whether its first owner polls and its first worker's job has
// a next action of its own.
fn standing(world: &World) -> ((usize, usize, usize, Option<usize>), bool, bool) {
    let counts = (
        world.thread_count(),
        world.idle_count(),
        world.queue_len(),
        world.limit(),
    );
    (counts, world.poll_under_way(0), world.has_job_action(1))
}

// Takes a step once: its event, or none where there was no room for it, which is told with the text that was to be seen.
fn tries(
    rt: &impl Print,
    alloc: Global,
    world: &mut World,
    step: PlainStep,
    text: &str,
) -> Result<Option<Event>, Fail> {
    let Ok(taken) = step.step(alloc) else {
        println!(rt; "refused: {text}: the test's own step")?;
        return Ok(None);
    };
    match run(alloc, world, &[taken]) {
        Ok(mut events) => Ok(events.pop()),
        Err(_) => {
            println!(rt; "refused: {text}: an error")?;
            Ok(None)
        }
    }
}

// Takes a step until there is room for it, twice at most: until then the world is as it was, but for an owner who was told, and who asks
// again then.
fn insists(
    rt: &impl Print,
    alloc: Global,
    world: &mut World,
    (step, text): (PlainStep, &str),
    asked: PlainStep,
) -> Result<Event, Fail> {
    for _ in 0..2 {
        let before = standing(world);
        let event = tries(rt, alloc, world, step, text)?;
        let is_refused = matches!(
            &event,
            Some(Event {
                act: Act::Refused(Refusal::Memory),
                ..
            })
        );
        match (event, step) {
            (Some(event), _) if !is_refused => return Ok(event),
            (Some(_), Own(owner)) => {
                println!(rt; "refused: {text}: refused memory")?;
                asks_again(alloc, world, owner, asked)?;
            }
            (Some(_), _) => println!(rt; "refused: {text}: refused memory")?,
            (None, _) => {}
        }
        if standing(world) != before {
            return Err(Fail::new(format_args!("what was refused changed the world: {text}")));
        }
    }
    Err(Fail::new(format_args!("no room twice: {text}")))
}

// Hands in six calls in one run, and in a second those that the first left out.
fn spawns_six(rt: &impl Print, alloc: Global, world: &mut World) -> Result<(), Fail> {
    let before = world.queue_len();
    for _ in 0..2 {
        let taken = world.queue_len().saturating_sub(before);
        let calls = [
            Step::Spawn(0),
            Step::Spawn(0),
            Step::Spawn(0),
            Step::Spawn(0),
            Step::Spawn(0),
            Step::Spawn(0),
        ];
        let left = calls.get(taken..).unwrap_or(&[]);
        if run(alloc, world, left).is_err() {
            let taken = world.queue_len().saturating_sub(before);
            println!(rt; "refused: six calls: an error after {taken}")?;
        }
    }
    if world.queue_len() == before.saturating_add(6) {
        Ok(())
    } else {
        Err(Fail::new("not six calls"))
    }
}

// One call and its worker.
const CALL: &[(PlainStep, &str)] = &[
    (Spawn, "accepted 1 +1"),
    (OfTask(0, Poll), "waits"),
    (Arrive, "arrived 1"),
    (Take(1), "took 1"),
    (Io(1, 5), "answered 5"),
    (Job(1), "finished wake owner"),
    (Job(1), "delivered owner"),
    (End(1), "ended 1 done"),
    (OfTask(0, Poll), "got 5"),
    (Late(1), "stopped 1"),
];

// Six bytes through a pipe of four, two by two.
const READS: &[(PlainStep, &str)] = &[
    (New(4), "made 0"),
    (AskRead(0, 2), "asked"),
    (Own(0), "accepted 1 +1"),
    (Own(0), "waits"),
    (Arrive, "arrived 1"),
    (Take(1), "took 1"),
    (Job(1), "room 4"),
    (Gives(1, "abcd"), "answered 61626364"),
    (Job(1), "put 4 wake owner"),
    (Job(1), "delivered owner"),
    (Job(1), "parked"),
    (End(1), "ended 1 parked"),
    (AskRead(0, 2), "asked"),
    (Own(0), "got 6162 wake 1"),
    (Own(0), "delivered 1 entered"),
    (Own(0), "replied ok 2"),
    (AskRead(0, 2), "asked"),
    (Own(0), "got 6364"),
    (Own(0), "replied ok 2"),
    (Take(1), "took 1"),
    (Job(1), "room 4"),
    (Gives(1, "ef"), "answered 6566"),
    (Job(1), "put 2"),
    (Job(1), "room 2"),
    (Gives(1, ""), "answered -"),
    (Job(1), "closed"),
    (Job(1), "finished"),
    (End(1), "ended 1 done"),
    (AskRead(0, 2), "asked"),
    (Own(0), "got 6566"),
    (Own(0), "replied ok 2"),
    (AskRead(0, 2), "asked"),
    (Own(0), "got end"),
    (Own(0), "back"),
    (Own(0), "replied ok 0"),
    (AskRead(0, 2), "asked"),
    (Own(0), "accepted 2"),
    (Own(0), "waits"),
    (Take(1), "took 2"),
];

// Four bytes through a pipe of four, to a writer that takes two of the first piece; then the same handle is read.
const WRITES: &[(PlainStep, &str)] = &[
    (New(4), "made 0"),
    (AskWrite(0, "abc"), "asked"),
    (Own(0), "accepted 1 +1"),
    (Own(0), "put 3"),
    (Own(0), "replied ok 3"),
    (Arrive, "arrived 1"),
    (Take(1), "took 1"),
    (Job(1), "peeked 3"),
    (Io(1, 2), "answered 2"),
    (Job(1), "taken 2"),
    (Job(1), "peeked 1"),
    (Io(1, 1), "answered 1"),
    (Job(1), "taken 1"),
    (Job(1), "parked"),
    (End(1), "ended 1 parked"),
    (AskWrite(0, "d"), "asked"),
    (Own(0), "put 1 wake 1"),
    (Own(0), "delivered 1 entered"),
    (Own(0), "replied ok 1"),
    (AskRead(0, 2), "asked"),
    (Own(0), "closed"),
    (Own(0), "waits"),
    (Take(1), "took 1"),
    (Job(1), "peeked 1"),
    (Io(1, 1), "answered 1"),
    (Job(1), "taken 1"),
    (Job(1), "drained"),
    (Flushed(1), "answered ok"),
    (Job(1), "closed"),
    (Job(1), "finished wake owner"),
    (Job(1), "delivered owner"),
    (End(1), "ended 1 done"),
    (AskRead(0, 2), "asked"),
    (Own(0), "back"),
    (Own(0), "accepted 2"),
    (Own(0), "waits"),
    (Take(1), "took 2"),
    (Job(1), "room 4"),
    (Gives(1, "ef"), "answered 6566"),
    (Job(1), "put 2 wake owner"),
    (AskRead(0, 2), "asked"),
    (Own(0), "got 6566"),
];

// Two items through a pipe of one, and the end; then the same handle is moved.
const ITEMS_AND_A_SEEK: &[(PlainStep, &str)] = &[
    (New(1), "made 0"),
    (AskNext(0), "asked"),
    (Own(0), "accepted 1 +1"),
    (Own(0), "waits"),
    (Arrive, "arrived 1"),
    (Take(1), "took 1"),
    (GivesItem(1, 0), "answered item 0"),
    (Job(1), "put 1 wake owner"),
    (Job(1), "delivered owner"),
    (GivesItem(1, 1), "answered item 1"),
    (Job(1), "parked"),
    (End(1), "ended 1 parked"),
    (AskNext(0), "asked"),
    (Own(0), "got item 0 wake 1"),
    (Own(0), "delivered 1 entered"),
    (Own(0), "replied item 0"),
    (Take(1), "took 1"),
    (Job(1), "put 1"),
    (HasNoItem(1), "answered none"),
    (Job(1), "closed"),
    (Job(1), "finished"),
    (End(1), "ended 1 done"),
    (AskNext(0), "asked"),
    (Own(0), "got item 1"),
    (Own(0), "replied item 1"),
    (AskNext(0), "asked"),
    (Own(0), "got end"),
    (Own(0), "back"),
    (Own(0), "replied end"),
    (AskSeek(0, Position::Start(7)), "asked"),
    (Own(0), "accepted 2"),
    (Own(0), "waits"),
    (Take(1), "took 2"),
    (Io(1, 7), "answered 7"),
    (Job(1), "finished wake owner"),
    (Job(1), "delivered owner"),
    (End(1), "ended 2 done"),
    (AskSeek(0, Position::Start(7)), "asked"),
    (Own(0), "back"),
    (Own(0), "replied ok 7"),
    (AskNext(0), "asked"),
    (Own(0), "accepted 3"),
    (Own(0), "waits"),
    (Take(1), "took 3"),
];

// Takes these steps, of which each has an event of its text.
fn takes_all(
    rt: &impl Print,
    alloc: Global,
    world: &mut World,
    steps: &[(PlainStep, &str)],
) -> Result<(), Fail> {
    // (with room for the text of any event here)
    let mut seen = match String::with_capacity(alloc, 64) {
        Ok(text) => text,
        Err(_) => {
            println!(rt; "refused: the test's own text")?;
            String::with_capacity(alloc, 64)?
        }
    };
    let mut asked = AskRead(0, 2);
    for (step, text) in steps {
        if let AskRead(_, _) | AskWrite(_, _) | AskNext(_) | AskSeek(_, _) = step {
            asked = *step;
        }
        let event = insists(rt, alloc, world, (*step, text), asked)?;
        seen.clear();
        write!(seen, "{event}")?;
        agree("each piece refused", seen.as_str(), text)?;
    }
    Ok(())
}

// Takes the steps of a call, hands in six more calls, and then one more.
fn goes_on(rt: &impl Print, alloc: Global, world: &mut World) -> Result<(), Fail> {
    takes_all(rt, alloc, world, CALL)?;
    spawns_six(rt, alloc, world)?;
    takes_all(rt, alloc, world, &[(Spawn, "accepted 8")])?;
    if standing(world) == ((2, 2, 7, Some(2)), false, false) {
        Ok(())
    } else {
        Err(Fail::new("other counts"))
    }
}

#[test]
fn each_piece_refused(rt: HostRuntime) -> Result<(), Fail> {
    let mut world = World::new(rt.alloc(), Some("2"), Vec::new(rt.alloc()));
    let outcome = goes_on(&rt, rt.alloc(), &mut world);
    world.close();
    outcome
}

#[test]
fn each_piece_of_a_reader_refused(rt: HostRuntime) -> Result<(), Fail> {
    let mut world = World::new(rt.alloc(), Some("4"), Vec::new(rt.alloc()));
    let outcome = takes_all(&rt, rt.alloc(), &mut world, READS);
    world.close();
    outcome
}

#[test]
fn each_piece_of_a_writer_refused(rt: HostRuntime) -> Result<(), Fail> {
    let mut world = World::new(rt.alloc(), Some("4"), Vec::new(rt.alloc()));
    let outcome = takes_all(&rt, rt.alloc(), &mut world, WRITES);
    world.close();
    outcome
}

#[test]
fn each_piece_of_a_streamer_refused(rt: HostRuntime) -> Result<(), Fail> {
    let mut world = World::new(rt.alloc(), Some("4"), Vec::new(rt.alloc()));
    let outcome = takes_all(&rt, rt.alloc(), &mut world, ITEMS_AND_A_SEEK);
    world.close();
    outcome
}
