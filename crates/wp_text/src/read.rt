ghost use Rattle.std.specs.Prelude.{◌≡◌, ℕ, ◌≤◌, List, [], length, IfOk, IfErr};
ghost use Rattle.wp_fields.specs.Reading.{Gives};
ghost use Rattle.wp_text.specs.Faults.{IsFault, IsErrorOf, HasOneReading};
ghost use Rattle.wp_text.specs.Grammar.{lines_of, IsScript, commands_of};
ghost use Rattle.wp_text.specs.Reading.{line_fault, script_fault, has_client, with_client, with_command, with_statement, with_meaning, with_line, with_lines, script_of};

use crate::fault::{Fault, LineError, ScriptError, Why};
use crate::line::{Statement, read_line};
use crate::script::{Command, Commands, Part, Script};
use std::alloc::Global;
use wp_model::Name;

/// How many bytes a script may have.
pub const MOST_BYTES: usize = 1 << 20;

/// How many clients a script may have.
pub const MOST_CLIENTS: usize = 16;

fn has_client(parts: &[Part], client: &Name) -> bool
    ensures { result ≡ has_client parts.now client.now }
{
    parts.iter().any(|part| *client == part.client)
}

#[tactic(auto, unfolding(crate::specs::Reading::with_client))]
fn add_client(alloc: Global, parts: &mut Vec<Part>, client: Name) -> Result<(), LineError>
    ensures { Gives line_fault (λ _. parts.new.items) result (with_client parts.old.items client) }
{
    if has_client(parts, &client) {
        return Err(LineError::Wrong(Why::ClientTwice));
    }
    if parts.len() >= MOST_CLIENTS {
        return Err(LineError::Wrong(Why::ManyClients));
    }
    parts.push(Part {
        client,
        commands: Commands::new(Vec::new(alloc)),
    })?;
    Ok(())
}

#[tactic(auto, unfolding(crate::specs::Reading::with_command))]
fn add_command(parts: &mut Vec<Part>, command: Command) -> Result<(), LineError>
    ensures { Gives line_fault (λ _. parts.new.items) result (with_command parts.old.items command) }
{
    match parts.last_mut() {
        Some(part) => Ok(part.commands.push(command)?),
        None => Err(LineError::Wrong(Why::NoClient)),
    }
}

#[tactic(auto, unfolding(crate::specs::Reading::with_line, crate::specs::Reading::with_meaning, crate::specs::Reading::with_statement))]
fn add_line(alloc: Global, parts: &mut Vec<Part>, line: &[u8]) -> Result<(), LineError>
    ensures { Gives line_fault (λ _. parts.new.items) result (with_line parts.old.items line.now) }
{
    match read_line(alloc, line)? {
        None => Ok(()),
        Some(Statement::Client(name)) => add_client(alloc, parts, name),
        Some(Statement::Command(command)) => add_command(parts, command),
    }
}

fn read_lines(alloc: Global, bytes: &[u8]) -> Result<Script, ScriptError>
    requires { length bytes.now ≤ MOST_BYTES }
    ensures { Gives script_fault (λ parts. parts) result (with_lines 0 [] (lines_of bytes.now)) }
{
    let mut parts = Vec::new(alloc);
    for (i, line) in bytes.split(|b| *b == b'\n').enumerate() {
        if let Err(e) = add_line(alloc, &mut parts, line) {
            return Err(e.in_line(i + 1));
        }
    }
    Ok(Script::new(parts))
}

#[tactic(auto, unfolding(crate::specs::Reading::script_of))]
fn read_all(alloc: Global, bytes: &[u8]) -> Result<Script, ScriptError>
    ensures { Gives script_fault (λ parts. parts) result (script_of bytes.now) }
{
    if bytes.len() > MOST_BYTES {
        return Err(ScriptError::Fault(Fault {
            line: 0,
            why: Why::TooLong,
        }));
    }
    read_lines(alloc, bytes)
}

/// The script that the bytes spell, or its first fault: the first line that is wrong, and of the reasons that fit
/// there the first in the order of `Why`.
pub fn read_script(alloc: Global, bytes: &[u8]) -> Result<Script, ScriptError>
    ensures script { IfOk result (λ parts. IsScript bytes.now parts) }
    ensures error { IfErr result (λ e. IsErrorOf bytes.now e) }
    // What spells a script is read, and what has a fault is refused for it, unless memory runs out.
    ensures each_script { (parts : List Part) → IsScript bytes.now parts → Gives script_fault (λ parts. parts) result (Ok parts) }
    ensures each_fault { (fault : Fault) → IsFault bytes.now fault.line fault.why → Gives script_fault (λ parts. parts) result (Err fault) }
    ensures few_commands { IfOk result (λ parts. length (commands_of parts) ≤ length bytes.now) }
{
    read_all(alloc, bytes)
}

/// Bytes are a script with one list of parts, or have one fault, and not both.
pub fn one_reading()
    ensures { (bytes : List ℕ) → HasOneReading bytes }
{}
