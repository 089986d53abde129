//! What one line of a script says.
ghost use Rattle.std.specs.Prelude.{◌≡◌, IfOk, map};
ghost use Rattle.std.specs.List.{after_first, list_all};
ghost use Rattle.blk_commands.specs.Instructions.{is_space};
ghost use Rattle.blk_commands.specs.Lines.{is_sign, is_plan, is_minus, is_silent, saying_of};

use crate::instruction::{Instruction, instruction_in};
use std::alloc::{AllocError, Global};

/// What a line says by itself.
#[derive(Debug, Drop)]
pub(crate) enum Saying {
    /// Nothing: it is empty, or a comment.
    Nothing,
    /// The text of the setting.
    Setting,
    /// The plan of the starts.
    Plan,
    /// This instruction.
    Does(Instruction),
}

/// What a line says; None where it is no line of a script.
pub(crate) fn saying_of(alloc: Global, line: &str) -> Result<Option<Saying>, AllocError>
    ensures { IfOk result (λ saying. saying ≡ saying_of line.now) }
{
    if is_silent(line) {
        return Ok(Some(Saying::Nothing));
    }
    match line.split_once(' ') {
        Some(("setting", _)) => Ok(Some(Saying::Setting)),
        Some(("starts", plan)) => Ok(is_plan(plan).then_some(Saying::Plan)),
        _ => Ok(instruction_in(alloc, line)?.map(Saying::Does)),
    }
}

/// What stands behind the first space of a line.
pub(crate) fn text_of(line: &str) -> &str
    ensures { result.now ≡ after_first is_space line.now }
{
    line.split_once(' ').map_or("", |(_, text)| text)
}

/// The plan that a text is: of each start, whether it is refused.
pub(crate) fn plan_of(alloc: Global, text: &str) -> Result<Vec<bool>, AllocError>
    ensures { IfOk result (λ plan. plan.items ≡ map is_minus text.now) }
{
    text.bytes().map(|byte| byte == b'-').collect(alloc)
}

// Whether a line says nothing.
fn is_silent(line: &str) -> bool
    ensures { result ≡ is_silent line.now }
{
    line.is_empty() || line.starts_with('#')
}

// Whether a text is a plan: signs alone, and at least one.
fn is_plan(text: &str) -> bool
    ensures { result ≡ is_plan text.now }
{
    !text.is_empty() && are_signs(text)
}

// Whether each byte of a text is a sign.
fn are_signs(text: &str) -> bool
    ensures { result ≡ list_all is_sign text.now }
{
    text.bytes().all(is_sign)
}

// Whether a byte is a sign: of a start that succeeds, or of one that is refused.
fn is_sign(byte: u8) -> bool
    ensures { result ≡ is_sign byte }
{
    byte == b'+' || byte == b'-'
}
