//! `blk steps`: the steps of a script, and what is seen of them.
ghost use Rattle.std.specs.Prelude.{◌≡◌, ◌⊎◌, [], IfOk, OnOk, Some, option_map, string_bytes};
ghost use Rattle.blk_commands.specs.Outcomes.{ReadsText, Shows};
ghost use Rattle.blk_commands.specs.Plays.{PlaysInstruction, PlaysInstructions, ShowsScript, Takes, ending_of, ending_text, has_next, shown_text, step_of};
ghost use Rattle.blk_commands.specs.declared.fault.BlkFault.TheVariants as blk_fault;
ghost use Rattle.blk_commands.specs.declared.instruction.Instruction.TheVariants as instruction;
ghost use Rattle.blocking_pool.specs.declared.pool.answer.Refusal.TheVariants.{Memory};

use crate::fault::{BlkFault, CommandFault};
use crate::instruction::{Actor, Instruction};
use crate::script::{Script, read_script};
use blocking_world::{Event, Step, World, run};
use std::alloc::{AllocError, Global};
use std::io::{ErrorKind, Read};
use std::{fmt, io, slice};

/// How a pool stands when a script is over.
#[derive(Clone, Copy, Debug, PartialEq, Eq)]
pub(crate) struct Ending {
    workers: usize,
    idle: usize,
    queued: usize,
    limit: Option<usize>,
}

impl Ending {
    // How the pool of a world stands.
    fn of(world: &World) -> Ending
        ensures { result ≡ ending_of world.now.history }
    {
        Ending {
            workers: world.thread_count(),
            idle: world.idle_count(),
            queued: world.queue_len(),
            limit: world.limit(),
        }
    }
}

impl fmt::Display for Ending {
    ghost output = { λ ending. Some (ending_text ending) };

    fn fmt<W: fmt::Write>(&self, f: &mut fmt::Formatter<W>) -> fmt::Result {
        let Ending {
            workers,
            idle,
            queued,
            limit,
        } = *self;
        write!(
            f,
            "end workers {workers} idle {idle} queued {queued} limit "
        )?;
        match limit {
            Some(limit) => write!(f, "{limit}"),
            None => f.write_str("none"),
        }
    }
}

/// Reads a script to its end, takes its steps, and answers what is to be shown.
pub(crate) fn steps<R: Read>(alloc: Global, input: &mut R) -> Result<String, CommandFault>
    ensures { Shows (R.remaining input.old) (R.remaining input.new) result }
{
    let text = read_text(alloc, input)?;
    let script = read_script(alloc, text.as_str())?;
    Ok(played(alloc, script)?)
}

// Reads the input to its end.
fn read_text<R: Read>(alloc: Global, input: &mut R) -> Result<String, CommandFault>
    ensures { ReadsText (R.remaining input.old) (R.remaining input.new) result }
{
    let mut bytes = Vec::new(alloc);
    match input.read_to_end(&mut bytes) {
        Ok(_) => {}
        Err(error) => return Err(CommandFault::Failed(reading_fault(error))),
    }
    let Ok(text) = String::from_utf8(bytes) else {
        return Err(CommandFault::NotText);
    };
    Ok(text)
}

// What the failure of a read is told as.
fn reading_fault(error: io::Error) -> BlkFault
    ensures { (result ≡ blk_fault.Reading) ⊎ (result ≡ blk_fault.Refused Memory) }
{
    if error.kind() == ErrorKind::OutOfMemory {
        BlkFault::from(AllocError)
    } else {
        BlkFault::Reading
    }
}

// Takes the steps of a script, and answers what is to be shown.
fn played(alloc: Global, script: Script) -> Result<String, AllocError>
    ensures { IfOk result (λ text. ShowsScript (option_map string_bytes script.setting)
        script.plan.items script.instructions.items (string_bytes text)) }
{
    let Script {
        setting,
        plan,
        instructions,
    } = script;
    let mut world = World::new(alloc, text_of(&setting), plan);
    let events = play(alloc, &mut world, instructions.as_slice());
    let ending = Ending::of(&world);
    world.close();
    shown(alloc, events?.as_slice(), ending)
}

// The text of a setting.
fn text_of(setting: &Option<String>) -> Option<&str>
    ensures { option_map (λ text. text.now) result ≡ option_map string_bytes setting.now }
{
    setting.as_ref().map(|text| text.as_str())
}

// Takes the steps of these instructions, and answers what is seen of each step.
fn play(
    alloc: Global,
    world: &mut World,
    instructions: &[Instruction],
) -> Result<Vec<Event>, AllocError>
    ensures { IfOk result (λ events. Takes (PlaysInstructions instructions.now)
        world.old.history world.new.history [] events.items) }
{
    let mut events = Vec::new(alloc);
    for instruction in instructions {
        play_instruction(alloc, world, instruction, &mut events)?;
    }
    Ok(events)
}

// Takes the steps of an instruction, and adds what is seen of each.
fn play_instruction(
    alloc: Global,
    world: &mut World,
    instruction: &Instruction,
    events: &mut Vec<Event>,
) -> Result<(), AllocError>
    ensures { OnOk result (Takes (PlaysInstruction instruction.now)
        world.old.history world.new.history events.old.items events.new.items) }
{
    match instruction {
        Instruction::One(step) => take(alloc, world, step, events),
        Instruction::AllOf(actor) => take_all(alloc, world, *actor, events),
    }
}

// Takes a step, and adds what is seen of it.
fn take(
    alloc: Global,
    world: &mut World,
    step: &Step,
    events: &mut Vec<Event>,
) -> Result<(), AllocError>
    ensures { OnOk result (Takes (PlaysInstruction (instruction.One step.now))
        world.old.history world.new.history events.old.items events.new.items) }
{
    let mut seen = run(alloc, world, slice::from_ref(step))?;
    events.append(&mut seen)
}

impl Actor {
    // The step by which it takes its next action.
    fn step(self) -> Step
        ensures { result ≡ step_of self }
    {
        match self {
            Actor::JobOf(worker) => Step::Job(worker),
            Actor::PollOf(owner) => Step::Own(owner),
        }
    }

    // Whether it has a next action.
    fn has_next(self, world: &World) -> bool
        ensures { result ≡ has_next self world.now.history.past }
    {
        match self {
            Actor::JobOf(worker) => world.has_job_action(worker),
            Actor::PollOf(owner) => world.poll_under_way(owner),
        }
    }
}

// Takes the next action of this actor, and then again while it has one.
fn take_all(
    alloc: Global,
    world: &mut World,
    actor: Actor,
    events: &mut Vec<Event>,
) -> Result<(), AllocError>
    ensures { OnOk result (Takes (PlaysInstruction (instruction.AllOf actor))
        world.old.history world.new.history events.old.items events.new.items) }
{
    act(alloc, world, actor, events)?;
    // (It ends, since each action is an event more, and no list has room for endless ones.)
    while actor.has_next(world) {
        act(alloc, world, actor, events)?;
    }
    Ok(())
}

// Takes the next action of this actor.
fn act(
    alloc: Global,
    world: &mut World,
    actor: Actor,
    events: &mut Vec<Event>,
) -> Result<(), AllocError>
    ensures { OnOk result (Takes (PlaysInstruction (instruction.One (step_of actor)))
        world.old.history world.new.history events.old.items events.new.items) }
{
    take(alloc, world, &actor.step(), events)
}

// The texts of the events, line by line, and that of the ending.
fn shown(alloc: Global, events: &[Event], ending: Ending) -> Result<String, AllocError>
    ensures { IfOk result (λ text. string_bytes text ≡ shown_text events.now ending) }
{
    let mut text = String::new(alloc);
    for event in events {
        writeln!(text, "{event}")?;
    }
    writeln!(text, "{ending}")?;
    Ok(text)
}
