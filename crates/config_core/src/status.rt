//! The list of the sessions that are in configuration mode.

ghost use Rattle.std.specs.Prelude.{◌≡◌, ◌++◌, OnOk, IfOk, decimal};
ghost use Rattle.commands.specs.declared.command.Command.{Command};
ghost use Rattle.config_core.specs.Machine.{later};
ghost use Rattle.config_core.specs.Prepared.{Prepares};
ghost use Rattle.config_core.specs.Serving.{Does};
ghost use Rattle.config_core.specs.Status.{mode_text, session_line, session_lines};

use crate::caller::Caller;
use crate::core_state::Core;
use crate::effect::Effect;
use crate::prepared::{Prepared, step};
use crate::reply::Reply;
use cfg_base::{Bytes, Moment, NoMemory};
use commands::Mode;
use itoa::Buffer;
use std::alloc::Global;

fn push_bytes(text: &mut Vec<u8>, bytes: &[u8]) -> Result<(), NoMemory>
    ensures { OnOk result (text.new.items ≡ text.old.items ++ bytes.now) }
{
    text.extend_from_slice(bytes)?;
    Ok(())
}

fn push_number(text: &mut Vec<u8>, number: usize) -> Result<(), NoMemory>
    ensures { OnOk result (text.new.items ≡ text.old.items ++ decimal number) }
{
    let mut digits = Buffer::new();
    push_bytes(text, digits.format(number).as_bytes())
}

fn push_mode(text: &mut Vec<u8>, mode: Mode) -> Result<(), NoMemory>
    ensures { OnOk result (text.new.items ≡ text.old.items ++ mode_text mode) }
{
    match mode {
        Mode::Shared => push_bytes(text, b"shared\n"),
        Mode::Private => push_bytes(text, b"private\n"),
        Mode::Exclusive => push_bytes(text, b"exclusive\n"),
    }
}

// The line of a session, where it is in configuration mode.
fn push_session(text: &mut Vec<u8>, number: usize, caller: &Caller) -> Result<(), NoMemory>
    ensures { OnOk result (text.new.items ≡ text.old.items ++ session_line number caller.now.user caller.now.mode) }
{
    let Some(mode) = caller.mode else {
        return Ok(());
    };
    push_number(text, number)?;
    push_bytes(text, b" ")?;
    push_bytes(text, caller.user.as_word().as_bytes())?;
    push_bytes(text, b" ")?;
    push_mode(text, mode)
}

fn session_lines(alloc: Global, callers: &[Caller]) -> Result<Bytes, NoMemory>
    ensures { IfOk result (λ text. text ≡ session_lines 1 callers.now) }
{
    let mut text = Vec::new(alloc);
    for place in 0..callers.len() {
        push_session(&mut text, place + 1, &callers[place])?;
    }
    Ok(Bytes::from(text))
}

impl Core {
    pub(crate) fn prepare_status(&self, caller: u32, moment: Moment) -> Result<Prepared, NoMemory>
        ensures { IfOk result (Prepares self.now moment (Does (later self.now moment) caller Command.Status)) }
    {
        let lines = session_lines(self.alloc, self.callers.as_slice())?;
        Ok(step(caller, moment, Effect::Stay, Reply::Text(lines)))
    }
}
