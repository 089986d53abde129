//! Scripts: a setting, the plan of the starts, and the instructions, line by line.
ghost use Rattle.std.specs.Prelude.{◌≡◌, List, ℕ};
ghost use Rattle.blk_commands.specs.declared.script.ScriptFault.TheVariants as variants;
ghost use Rattle.blk_commands.specs.Scripts.{AddsLine, IsScriptOf, Reads, lines_of};

use crate::instruction::Instruction;
use crate::line::{Saying, plan_of, saying_of, text_of};
use std::alloc::{AllocError, AllocFailed, Global};

/// A script, as its lines say it.
#[derive(Debug, Drop)]
pub struct Script {
    /// The text of the setting, if there is one.
    pub setting: Option<String>,
    /// The plan of the starts: whether each is refused; beyond its end none is.
    pub plan: Vec<bool>,
    /// The instructions, in order.
    pub instructions: Vec<Instruction>,
}

/// Why a text wasn't read.
#[derive(Clone, Copy, Debug, PartialEq, Eq)]
pub enum ScriptFault {
    /// This line, counted from 1, is the first that is none of a script, or that may not stand where it stands.
    NotAStep(usize),
    /// There was no memory.
    Memory,
}

impl From<AllocError> for ScriptFault {
    ghost from_gives = { λ _ fault. fault ≡ variants.Memory };

    fn from(_error: AllocError) -> ScriptFault {
        ScriptFault::Memory
    }
}

impl From<AllocFailed<Instruction>> for ScriptFault {
    ghost from_gives = { λ _ fault. fault ≡ variants.Memory };

    fn from(_error: AllocFailed<Instruction>) -> ScriptFault {
        ScriptFault::Memory
    }
}

/// Reads a script.
pub fn read_script(alloc: Global, text: &str) -> Result<Script, ScriptFault>
    ensures { Reads (lines_of text.now) result }
{
    let lines: Vec<&str> = text.split('\n').collect(alloc)?;
    let mut script = Script {
        setting: None,
        plan: Vec::new(alloc),
        instructions: Vec::new(alloc),
    };
    for (place, line) in lines.iter().enumerate() {
        script.add(alloc, line, place + 1)?;
    }
    Ok(script)
}

impl Script {
    // Adds what the next line says, or says that the line with this number may not stand there.
    fn add(&mut self, alloc: Global, line: &str, number: usize) -> Result<(), ScriptFault>
        ensures { (before : List (List ℕ)) → IsScriptOf before self.old →
            AddsLine before line.now number self.new result }
    {
        match saying_of(alloc, line)? {
            Some(Saying::Nothing) => Ok(()),
            Some(Saying::Setting) if self.instructions.is_empty() && self.setting.is_none() => {
                self.setting = Some(String::from_str(alloc, text_of(line))?);
                Ok(())
            }
            Some(Saying::Plan) if self.instructions.is_empty() && self.plan.is_empty() => {
                self.plan = plan_of(alloc, text_of(line))?;
                Ok(())
            }
            Some(Saying::Does(instruction)) => {
                self.instructions.push(instruction)?;
                Ok(())
            }
            _ => Err(ScriptFault::NotAStep(number)),
        }
    }
}
