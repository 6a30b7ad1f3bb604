//! The commands and options of the program, as `clap` knows them.

ghost use Rattle.std.specs.Prelude.{◌≡◌, IfOk, false};
ghost use Rattle.clap.specs.Words.{app_of, rule_of, with_rule, with_subcommand};
ghost use Rattle.clap.specs.declared.builder.command.Command.TheViews.{out-Command as fields_of};
ghost use Rattle.wp_args.specs.CommandSet.{command_set, copy_set, make_command, number_option, number_word, plain_commands, program, store_command};

use crate::limits::{BITS, ID, LIMIT};
use clap::{Arg, Command};
use std::alloc::{AllocError, Global};

/// The program with the commands that `run` of `wp_run` does.
pub(crate) fn command_set<'a>(alloc: Global) -> Result<Command<'a>, AllocError>
    ensures set { IfOk result (λ set. app_of set ≡ command_set) }
{
    plain_commands(alloc)?.subcommand(make_command(alloc)?)
}

/// The program with the command that a copy of a store is made by.
pub(crate) fn copy_set<'a>(alloc: Global) -> Result<Command<'a>, AllocError>
    ensures set { IfOk result (λ set. app_of set ≡ copy_set) }
{
    with_command(alloc, program(alloc), "copy")
}

/// The program with the commands that have options alone.
fn plain_commands<'a>(alloc: Global) -> Result<Command<'a>, AllocError>
    ensures set { IfOk result (λ made. app_of made ≡ plain_commands) }
{
    let program = with_command(alloc, program(alloc), "run")?;
    with_command(alloc, program, "show")
}

/// The program without its commands: it has no help, so the words that ask for it are unknown words.
fn program<'a>(alloc: Global) -> Command<'a>
    ensures { app_of result ≡ program }
{
    Command::new(alloc, "wp")
        .disable_help_flag(true)
        .disable_help_subcommand(true)
}

/// The program with one more command on a store, which has the options alone.
fn with_command<'a>(
    alloc: Global,
    program: Command<'a>,
    name: &'a str,
) -> Result<Command<'a>, AllocError>
    ensures set { IfOk result (λ made. app_of made ≡ with_subcommand (app_of program.entry) (store_command name.entry.now).top) }
{
    program.subcommand(store_command(alloc, name)?)
}

/// A command on a store, with the options that each of these takes.
fn store_command<'a>(alloc: Global, name: &'a str) -> Result<Command<'a>, AllocError>
    ensures rules { IfOk result (λ made. app_of made ≡ store_command name.entry.now) }
    ensures local { IfOk result (λ made. (fields_of made).has_globals ≡ false) }
{
    let command = with_option(alloc, Command::new(alloc, name), "bits", BITS)?;
    let command = with_option(alloc, command, "limit", LIMIT)?;
    with_option(alloc, command, "id", ID)
}

/// The command that makes its script, with its numbers.
fn make_command<'a>(alloc: Global) -> Result<Command<'a>, AllocError>
    ensures rules { IfOk result (λ made. app_of made ≡ make_command) }
    ensures local { IfOk result (λ made. (fields_of made).has_globals ≡ false) }
{
    let command = with_word(alloc, store_command(alloc, "make")?, "SEED")?;
    let command = with_word(alloc, command, "CLIENTS")?;
    with_word(alloc, command, "LINES")
}

/// The command with one more number that has to be given, in its place.
fn with_word<'a>(
    alloc: Global,
    command: Command<'a>,
    name: &'a str,
) -> Result<Command<'a>, AllocError>
    ensures rules { IfOk result (λ made. app_of made ≡ with_rule (app_of command.entry) (number_word name.entry.now)) }
    ensures local { IfOk result (λ made. (fields_of made).has_globals ≡ (fields_of command.entry).has_globals) }
{
    command.arg(number_word(alloc, name))
}

/// The command with one more option that has one value, and the value that it has where it is not given.
fn with_option<'a>(
    alloc: Global,
    command: Command<'a>,
    name: &'a str,
    default: &'a str,
) -> Result<Command<'a>, AllocError>
    ensures rules { IfOk result (λ made. app_of made ≡ with_rule (app_of command.entry) (number_option name.entry.now default.entry.now)) }
    ensures local { IfOk result (λ made. (fields_of made).has_globals ≡ (fields_of command.entry).has_globals) }
{
    command.arg(number_option(alloc, name, default))
}

/// A number that has to be given, in its place.
fn number_word<'a>(alloc: Global, name: &'a str) -> Arg<'a>
    ensures rule { rule_of result ≡ number_word name.entry.now }
    ensures local { result.global ≡ false }
{
    Arg::new(alloc, name).required(true)
}

/// An option with one value, and the value that it has where it is not given.
fn number_option<'a>(alloc: Global, name: &'a str, default: &'a str) -> Arg<'a>
    ensures rule { rule_of result ≡ number_option name.entry.now default.entry.now }
    ensures local { result.global ≡ false }
{
    Arg::new(alloc, name).long(name).default_value(default)
}
