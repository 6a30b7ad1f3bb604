use crate::names::Names;
use std::alloc::AllocError;
use std::marker::Model;
use wp_model::{Key, Name, Value};

/// One command of a client.
#[derive(Drop)]
pub enum Command {
    /// Write the value under the key.
    Put(Key, Value),
    /// Delete the key.
    Del(Key),
    /// Read the key: what the client's own transaction says of it, else what a fresh snapshot does.
    Get(Key),
    /// Read the key at the client's snapshot of this label.
    GetAt(Key, Name),
    /// Read each key that has a value, from the first to the second, which both belong to the range, at a fresh snapshot.
    Scan(Key, Key),
    /// The same at the client's snapshot of this label.
    ScanAt(Key, Key, Name),
    /// Take a snapshot under this label.
    Snap(Name),
    /// Release the snapshot of this label.
    Free(Name),
    /// Begin a transaction of this name.
    Begin(Name),
    /// Pin the number published: the open transaction commits only if nobody else changed any of its keys since.
    Pin,
    /// Lock the key for the open transaction, and read it as it is then.
    Lock(Key),
    /// Prepare the transaction.
    Prepare,
    /// Commit the transaction, prepared or not.
    Commit,
    /// Undo the transaction, prepared or not.
    Rollback,
    /// Leave the prepared transaction to whoever takes it.
    Leave,
    /// Take the prepared transaction of this name.
    Take(Name),
    /// Take the prepared transactions of these names, and commit them all.
    Settle(Names),
    /// Write every version that stands in memory alone into a table.
    Flush,
    /// Merge all tables into one, without the versions that no reader needs.
    Compact,
    /// Write the log anew from the number published on, with what stands in memory in a table first.
    Renew,
    /// Tell the number published, under this label.
    Tell(Name),
    /// See no less than was told last under this label.
    Hear(Name),
}

/// The commands of one client, in order.
pub struct Commands {
    items: Vec<Command>,
}

impl Model for Commands {
    ghost use Rattle.std.specs.Prelude.{List};
    ghost use Rattle.wp_text.specs.declared.script.Command.{Command};

    ghost Value = { List Command };

    ghost view = { λ c. c.items.items };
}

impl Commands {
    ghost use Rattle.std.specs.Prelude.{◌≡◌, [], ◌∷◌, ◌++◌, OnOk, OnErr};

    /// The commands of a list.
    pub fn new(items: Vec<Command>) -> Commands
        ensures { result ≡ items.items }
    {
        Commands { items }
    }

    /// Adds a command after the others.
    pub fn push(&mut self, command: Command) -> Result<(), AllocError>
        ensures ok { OnOk result (self.new ≡ self.old ++ command ∷ []) }
        ensures err { OnErr result (self.new ≡ self.old) }
    {
        self.items.push(command)?;
        Ok(())
    }

    /// The commands, in order.
    pub fn as_slice(&self) -> &[Command]
        ensures { result.now ≡ self.now }
    {
        &self.items
    }
}

// Written out, so that no crate above proves anew how all that it holds is let go.
impl Drop for Commands {
    fn drop(self) {
        let Self { items: _items } = self;
    }
}

/// What one client does.
#[derive(Drop)]
pub struct Part {
    pub client: Name,
    pub commands: Commands,
}

/// The parts of all clients, in the order of the text.
pub struct Script {
    parts: Vec<Part>,
}

impl Model for Script {
    ghost use Rattle.std.specs.Prelude.{List};
    ghost use Rattle.wp_text.specs.declared.script.Part.{Part};

    ghost Value = { List Part };

    ghost view = { λ s. s.parts.items };
}

impl Script {
    ghost use Rattle.std.specs.Prelude.{◌≡◌};

    /// The script of these parts.
    pub fn new(parts: Vec<Part>) -> Script
        ensures { result ≡ parts.items }
    {
        Script { parts }
    }

    /// The parts, in order.
    pub fn as_slice(&self) -> &[Part]
        ensures { result.now ≡ self.now }
    {
        &self.parts
    }
}

// Written out, so that no crate above proves anew how all that it holds is let go.
impl Drop for Script {
    fn drop(self) {
        let Self { parts: _parts } = self;
    }
}
