//! Two kinds of calls on one executor: an enum of the program's own, which is a call.
use crate::host::Host;
use crate::refusal::answer;
use anyhow::{Result, bail};
use blocking::{Call, CallJob, Executor};

// What is asked for.
#[derive(Drop)]
enum Question {
    // The square of a number.
    Square(u32),
    // Whether a number is even.
    IsEven(u32),
}

// What it is answered by.
#[derive(Drop)]
enum Answer {
    Number(u64),
    Truth(bool),
}

impl Call for Question {
    type Out = Answer;

    // (that each question has an answer of its kind could be said here, as a relation of both)
    ghost may_give = { λ _. Unit {0} };

    fn call(self) -> Answer {
        match self {
            Question::Square(number) => Answer::Number(u64::from(number) * u64::from(number)),
            Question::IsEven(number) => Answer::Truth(number % 2 == 0),
        }
    }
}

/// The answers of a call of each kind.
pub(crate) fn answers<H: Host>(rt: H) -> Result<(u64, bool)> {
    // (no setting: the default limit)
    let executor: Executor<CallJob<Question, H>, H> = Executor::new(rt, None)?;
    answers_over(&rt, &executor)
}

// The same, over a pool that is there.
fn answers_over<H: Host>(
    rt: &H,
    executor: &Executor<CallJob<Question, H>, H>,
) -> Result<(u64, bool)> {
    let square = answer(rt, executor, Question::Square(12))?;
    let is_even = answer(rt, executor, Question::IsEven(12))?;
    match (square, is_even) {
        (Answer::Number(square), Answer::Truth(is_even)) => Ok((square, is_even)),
        _ => bail!("a question has an answer of another kind"),
    }
}
