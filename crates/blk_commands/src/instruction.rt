//! The instructions that words are.
ghost use Rattle.std.specs.Prelude.{◌≡◌, IfOk, map};
ghost use Rattle.blk_commands.specs.Instructions.{actor_named, answer_of, client_limit_of, instruction_of, link_of, longer_call, longer_instruction, longer_step, new_of, numbered_step, owner_of, plain_answer, plain_call, plain_step, spawn_of, task_call, worded_step, words_of};

use crate::bytes::bytes_of;
use crate::number::{count, number, small_number};
use crate::position::position_of;
use blocking_world::{HandleAnswer, Step, TaskCall};
use blocking_world_laws::HandleCall;
use std::alloc::{AllocError, Global};

/// An instruction: what a line has the script do.
#[derive(Debug)]
pub enum Instruction {
    /// One step.
    One(Step),
    /// The next action of this actor, and then again while it has one.
    AllOf(Actor),
}

// By hand, since a crate that drops one would prove a derived drop anew.
impl Drop for Instruction {
    fn drop(self) {
        match self {
            Instruction::One(step) => drop(step),
            Instruction::AllOf(_) => {}
        }
    }
}

/// Who acts by itself, action by action.
#[derive(Clone, Copy, Debug, PartialEq, Eq)]
pub enum Actor {
    /// The job of the worker of this number, from 1. Its answers and the end of its turn are no actions of its own.
    JobOf(usize),
    /// The poll of the owner of this number, from 0.
    PollOf(usize),
}

/// The instruction in a line, by its words; None where they are none. Err where there is no memory for words or bytes.
pub(crate) fn instruction_in(alloc: Global, line: &str) -> Result<Option<Instruction>, AllocError>
    ensures { IfOk result (λ instruction. instruction ≡ instruction_of (words_of line.now)) }
{
    let words: Vec<&str> = line.split(' ').collect(alloc)?;
    instruction_of(alloc, words.as_slice())
}

// The instruction that words are.
#[tactic(auto, using(crate::proofs::WordCounts::no_words, crate::proofs::WordCounts::many_words))]
fn instruction_of(alloc: Global, words: &[&str]) -> Result<Option<Instruction>, AllocError>
    ensures { IfOk result (λ instruction.
        instruction ≡ instruction_of (map (λ word. word.now) words.now)) }
{
    match *words {
        [name] => Ok(plain_step(name).map(Instruction::One)),
        [name, word] => Ok(numbered_step(name, word).map(Instruction::One)),
        [name, word, what] => Ok(longer_instruction(name, word, what)),
        [name, word, what, value] => {
            let step = longer_step(alloc, name, word, what, value)?;
            Ok(step.map(Instruction::One))
        }
        _ => Ok(None),
    }
}

// The step that one word asks for.
fn plain_step(name: &str) -> Option<Step>
    ensures { result ≡ plain_step name.now }
{
    match name {
        "spawn" => Some(Step::Spawn(0)),
        "arrive" => Some(Step::Arrive),
        "sweep" => Some(Step::Sweep),
        _ => None,
    }
}

// The step that a word and a number ask for.
fn numbered_step(name: &str, word: &str) -> Option<Step>
    ensures { result ≡ numbered_step name.now word.now }
{
    match name {
        "new" => Some(new_of(count(word)?)),
        "own" => count(word).map(Step::Own),
        "drop" => count(word).map(Step::DropOwner),
        "take" => count(word).map(Step::Take),
        "job" => count(word).map(Step::Job),
        "end" => count(word).map(Step::End),
        "wait" => count(word).map(Step::Wait),
        "late" => count(word).map(Step::Late),
        "limit" => count(word).map(Step::SetLimit),
        "clients" => client_limit_of(word).map(Step::SetClientLimit),
        "stray" => number(word).map(Step::Stray),
        "strike" => number(word).map(Step::Strike),
        "copy" => count(word).map(Step::Copy),
        _ => None,
    }
}

// The owner whose pipes hold so many bytes, and whose client isn't named.
fn new_of(capacity: usize) -> Step
    ensures { result ≡ new_of capacity }
{
    Step::New(capacity, 0)
}

// The client limit that a word says: a number, or none.
fn client_limit_of(word: &str) -> Option<Option<usize>>
    ensures { result ≡ client_limit_of word.now }
{
    if word == "none" {
        return Some(None);
    }
    count(word).map(Some)
}

// The instruction that three words are: all the actions of an actor, or what the words ask for.
fn longer_instruction(name: &str, word: &str, what: &str) -> Option<Instruction>
    ensures { result ≡ longer_instruction name.now word.now what.now }
{
    if what == "*" {
        return actor_named(name, word).map(Instruction::AllOf);
    }
    worded_step(name, word, what).map(Instruction::One)
}

// The actor that a word and a number name.
fn actor_named(name: &str, word: &str) -> Option<Actor>
    ensures { result ≡ actor_named name.now word.now }
{
    match name {
        "job" => count(word).map(Actor::JobOf),
        "own" => count(word).map(Actor::PollOf),
        _ => None,
    }
}

// The step that three words ask for: a call of the task or the owner of this number, an answer to this worker's job, or a call that is made for a
// client.
fn worded_step(name: &str, word: &str, what: &str) -> Option<Step>
    ensures { result ≡ worded_step name.now word.now what.now }
{
    match name {
        "task" => Some(Step::OfTask(count(word)?, task_call(what)?)),
        "ask" => Some(Step::Ask(count(word)?, plain_call(what)?)),
        "io" => Some(Step::Io(count(word)?, plain_answer(what)?)),
        "spawn" => spawn_of(word, what),
        _ => None,
    }
}

// The call that is made for the client whom the words name.
fn spawn_of(word: &str, client: &str) -> Option<Step>
    ensures { result ≡ spawn_of word.now client.now }
{
    if word != "for" {
        return None;
    }
    small_number(client).map(Step::Spawn)
}

// The call of a task that has this name.
fn task_call(name: &str) -> Option<TaskCall>
    ensures { result ≡ task_call name.now }
{
    match name {
        "poll" => Some(TaskCall::Poll),
        "cancel" => Some(TaskCall::Cancel),
        "detach" => Some(TaskCall::Detach),
        "drop" => Some(TaskCall::Drop),
        _ => None,
    }
}

// The call of an owner that one word asks for.
fn plain_call(name: &str) -> Option<HandleCall>
    ensures { result ≡ plain_call name.now }
{
    match name {
        "mut" => Some(HandleCall::GetMut),
        "flush" => Some(HandleCall::Flush),
        "close" => Some(HandleCall::Close),
        "next" => Some(HandleCall::Next),
        "op" => Some(HandleCall::Operate),
        "op+" => Some(HandleCall::OperateAgain),
        "inner" => Some(HandleCall::IntoInner),
        _ => None,
    }
}

// The answer that one word says.
fn plain_answer(kind: &str) -> Option<HandleAnswer>
    ensures { result ≡ plain_answer kind.now }
{
    match kind {
        "ok" => Some(HandleAnswer::Fine),
        "none" => Some(HandleAnswer::NoItem),
        _ => None,
    }
}

// The step that four words ask for: a call of an owner, an answer to a worker's job, a copier that is made, or an owner for a client.
fn longer_step(
    alloc: Global,
    name: &str,
    word: &str,
    what: &str,
    value: &str,
) -> Result<Option<Step>, AllocError>
    ensures { IfOk result (λ step. step ≡ longer_step name.now word.now what.now value.now) }
{
    let Some(party) = count(word) else {
        return Ok(None);
    };
    match name {
        "ask" => {
            let call = longer_call(alloc, what, value)?;
            Ok(call.map(|call| Step::Ask(party, call)))
        }
        "io" => {
            let answer = answer_of(alloc, what, value)?;
            Ok(answer.map(|answer| Step::Io(party, answer)))
        }
        "link" => Ok(link_of(party, what, value)),
        "new" => Ok(owner_of(party, what, value)),
        _ => Ok(None),
    }
}

// The copier that reads this owner, writes the one that the first word names, and reads at most as many bytes at once as the second says.
fn link_of(reader: usize, writer: &str, piece: &str) -> Option<Step>
    ensures { result ≡ link_of reader writer.now piece.now }
{
    Some(Step::Link(reader, count(writer)?, count(piece)?))
}

// The owner whose pipes hold so many bytes, for the client whom the words name.
fn owner_of(capacity: usize, word: &str, client: &str) -> Option<Step>
    ensures { result ≡ owner_of capacity word.now client.now }
{
    if word != "for" {
        return None;
    }
    Some(Step::New(capacity, small_number(client)?))
}

// The call of an owner that two words ask for.
fn longer_call(alloc: Global, name: &str, word: &str) -> Result<Option<HandleCall>, AllocError>
    ensures { IfOk result (λ call. call ≡ longer_call name.now word.now) }
{
    match name {
        "read" => Ok(number(word).map(HandleCall::Read)),
        "write" => Ok(bytes_of(alloc, word)?.map(HandleCall::Write)),
        "seek" => Ok(position_of(word).map(HandleCall::Seek)),
        _ => Ok(None),
    }
}

// The answer that a word of its kind and its value say.
fn answer_of(alloc: Global, kind: &str, value: &str) -> Result<Option<HandleAnswer>, AllocError>
    ensures { IfOk result (λ answer. answer ≡ answer_of kind.now value.now) }
{
    match kind {
        "n" => Ok(number(value).map(HandleAnswer::Number)),
        "b" => Ok(bytes_of(alloc, value)?.map(HandleAnswer::Gave)),
        "item" => Ok(number(value).map(HandleAnswer::Item)),
        "fault" => Ok(number(value).map(HandleAnswer::Failed)),
        _ => Ok(None),
    }
}
