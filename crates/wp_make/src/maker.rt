//! One client's commands, turn by turn.
ghost use Rattle.std.specs.Prelude.{◌≡◌, ◌+◌, ◌<◌, ◌≤◌, ◌^◌, [], ◌∷◌, ◌++◌, false, IfOk, OnOk};
ghost use Rattle.wp_text.specs.declared.script.Command.TheVariants as command;
ghost use Rattle.wp_make.specs.Generator.{next_state, drawn, key_word, value_word, made_by, made_next, new_maker};
ghost use Rattle.wp_make.specs.declared.turn.Turn.TheVariants as turn;

use crate::turn::{Turn, turn_of};
use crate::words::{client_key, numbered_value, txn_name};
use std::alloc::{AllocError, Global};
use wp_model::{Key, Value};
use wp_text::{Command, Commands};

/// What a client's generator has come to.
#[derive(Drop)]
pub(crate) struct Maker {
    client: u32,
    state: u64,
    /// Whether a transaction is begun.
    begun: bool,
    /// How many transactions were begun.
    begins: u32,
}

/// The state that a draw leaves.
#[tactic(auto, unfolding(crate::specs::Generator::next_state))]
fn next_state(state: u64) -> u64
    ensures { result ≡ next_state state }
{
    state
        .wrapping_mul(6364136223846793005)
        .wrapping_add(1442695040888963407)
}

impl Maker {
    pub fn new(seed: u32, client: u32) -> Maker
        ensures { result ≡ new_maker seed client }
    {
        Maker {
            client,
            state: seed as u64 + client as u64,
            begun: false,
            begins: 0,
        }
    }

    /// Draws a number below `most`.
    #[tactic(auto, unfolding(crate::specs::Generator::drawn))]
    fn draw(&mut self, most: u64) -> u64
        requires { 1 ≤ most }
        ensures maker { self.new ≡ record self.old { state = next_state self.old.state } }
        ensures drawn { result ≡ drawn most (next_state self.old.state) }
    {
        self.state = next_state(self.state);
        self.state / (1 << 33) % most
    }

    fn draw_key(&mut self, alloc: Global) -> Result<Key, AllocError>
        ensures maker { self.new ≡ record self.old { state = next_state self.old.state } }
        ensures key { IfOk result (λ key. key ≡ key_word self.old.client (drawn 8 (next_state self.old.state))) }
    {
        let key = self.draw(8);
        client_key(alloc, self.client, key)
    }

    fn draw_value(&mut self, alloc: Global) -> Result<Value, AllocError>
        ensures maker { self.new ≡ record self.old { state = next_state self.old.state } }
        ensures value { IfOk result (λ value. value ≡ value_word (drawn 1000 (next_state self.old.state))) }
    {
        let value = self.draw(1000);
        numbered_value(alloc, value)
    }

    /// Adds a put to the client's commands.
    fn put(&mut self, alloc: Global, commands: &mut Commands) -> Result<(), AllocError>
        ensures commands { OnOk result (commands.new ≡ commands.old ++ (made_by turn.Put self.old).commands) }
        ensures left { OnOk result (self.new ≡ (made_by turn.Put self.old).left) }
    {
        let key = self.draw_key(alloc)?;
        let value = self.draw_value(alloc)?;
        commands.push(Command::Put(key, value))
    }

    /// Adds the begin of a transaction.
    fn begin(&mut self, alloc: Global, commands: &mut Commands) -> Result<(), AllocError>
        requires { self.old.begins + 1 < 2 ^ 32 }
        ensures commands { OnOk result (commands.new ≡ commands.old ++ (made_by turn.Begin self.old).commands) }
        ensures left { OnOk result (self.new ≡ (made_by turn.Begin self.old).left) }
    {
        self.begun = true;
        self.begins += 1;
        commands.push(Command::Begin(txn_name(alloc, self.client, self.begins)?))
    }

    /// Adds a flush or a compaction.
    fn maintain(&mut self, commands: &mut Commands) -> Result<(), AllocError>
        ensures commands { OnOk result (commands.new ≡ commands.old ++ (made_by turn.Maintain self.old).commands) }
        ensures left { OnOk result (self.new ≡ (made_by turn.Maintain self.old).left) }
    {
        let flushes = self.draw(4) < 3;
        commands.push(if flushes {
            Command::Flush
        } else {
            Command::Compact
        })
    }

    /// Adds the prepare of the transaction, which ends.
    fn prepare(&mut self, commands: &mut Commands) -> Result<(), AllocError>
        ensures commands { OnOk result (commands.new ≡ commands.old ++ command.Prepare ∷ []) }
        ensures left { self.new ≡ record self.old { begun = false } }
    {
        self.begun = false;
        commands.push(Command::Prepare)
    }

    /// Adds the turn's commands to the client's.
    fn make(&mut self, alloc: Global, turn: Turn, commands: &mut Commands) -> Result<(), AllocError>
        requires { self.old.begins + 1 < 2 ^ 32 }
        ensures commands { OnOk result (commands.new ≡ commands.old ++ (made_by turn self.old).commands) }
        ensures left { OnOk result (self.new ≡ (made_by turn self.old).left) }
    {
        match turn {
            Turn::Put => self.put(alloc, commands),
            Turn::Del => commands.push(Command::Del(self.draw_key(alloc)?)),
            Turn::Get => commands.push(Command::Get(self.draw_key(alloc)?)),
            Turn::Begin => self.begin(alloc, commands),
            Turn::Maintain => self.maintain(commands),
            Turn::Commit => {
                self.prepare(commands)?;
                commands.push(Command::Commit)
            }
            Turn::RollBack => {
                self.prepare(commands)?;
                commands.push(Command::Rollback)
            }
        }
    }

    /// Adds the commands of the next turn to the client's.
    pub fn make_next(&mut self, alloc: Global, commands: &mut Commands) -> Result<(), AllocError>
        requires { self.old.begins + 1 < 2 ^ 32 }
        ensures commands { OnOk result (commands.new ≡ commands.old ++ (made_next self.old).commands) }
        ensures left { OnOk result (self.new ≡ (made_next self.old).left) }
    {
        let drawn = self.draw(8);
        self.make(alloc, turn_of(self.begun, drawn), commands)
    }
}
