//! What a command line chooses.

ghost use Rattle.std.specs.Prelude.{◌≡◌, ℕ, IfNone, IfOk, IfSome, codes, map, string_bytes};
ghost use Rattle.clap.specs.Words.{found_of, rows_of, subcommand_rows_of};
ghost use Rattle.wp_args.specs.Choice.{HasMaking, HasNumber, HasNumbers, HasOptions, IsChoice, IsEntered, IsTaken, command_name};

use crate::command_set::command_set;
use crate::limits::{MOST_BITS, MOST_CLIENTS, MOST_ID, MOST_LIMIT, MOST_LINES, MOST_SEED};
use crate::number::number_of;
use clap::ArgMatches;
use clap::error::ErrorKind;
use std::alloc::{AllocError, Global};

/// What the program is asked to do.
#[derive(Clone, Copy, Drop)]
pub enum Action {
    /// Run the script on standard input.
    Run,
    /// Show the store, as a run of the empty script does.
    Show,
    /// Run the script that is made of these numbers, and print its summary.
    Make {
        /// 0 to 4294967295.
        seed: u32,
        /// How many clients the script has; 1 to 16.
        clients: u32,
        /// How many turns each client makes; 1 to 1000.
        lines: u32,
    },
}

/// The numbers of a command on a store, given or default.
#[derive(Clone, Copy, Drop)]
pub struct StoreOptions {
    /// The commit cache has two to this power places; 0 to 16.
    pub bits: u32,
    /// The greatest number that an entry may have, where the log's version has it; 1 to 70368744177663.
    pub limit: u64,
    /// The number of the store, which its log and its manifest bear; 1 to 4294967295.
    pub id: u32,
}

/// A command, and the options of the store that it is about.
#[derive(Clone, Copy, Drop)]
pub struct Choice {
    pub action: Action,
    pub store: StoreOptions,
}

/// What the words choose, or `None` where they are refused. The first word is the program's name and is not
/// looked at. The error is want of memory, which may also come before a refusal.
pub fn choice_of(alloc: Global, words: &[String]) -> Result<Option<Choice>, AllocError>
    ensures taken { IfOk result (λ answer. IfSome answer (IsChoice (map string_bytes words.now))) }
    ensures refused { IfOk result (λ answer. IfNone answer (¬ IsTaken (map string_bytes words.now))) }
{
    match command_set(alloc)?.try_get_matches_from(words) {
        Ok(matches) => Ok(choice_in(&matches)),
        Err(error) if error.kind() == ErrorKind::OutOfMemory => Err(AllocError),
        Err(_) => Ok(None),
    }
}

/// What matches choose, if their command and its numbers are the program's.
fn choice_in(matches: &ArgMatches<'_>) -> Option<Choice>
    ensures entered { IfSome result (IsEntered (subcommand_rows_of matches.now)) }
    ensures none { IfNone result ((choice : _) → ¬ IsEntered (subcommand_rows_of matches.now) choice) }
{
    let (name, entries) = matches.subcommand()?;
    Some(Choice {
        action: action_of(name, entries)?,
        store: options_in(entries)?,
    })
}

/// The numbers of the options of a command on a store.
pub(crate) fn options_in(entries: &ArgMatches<'_>) -> Option<StoreOptions>
    ensures numbers { IfSome result (HasOptions (rows_of (found_of entries.now))) }
    ensures none { IfNone result ((options : _) → ¬ HasOptions (rows_of (found_of entries.now)) options) }
{
    Some(StoreOptions {
        bits: number_in(entries, "bits", 0, MOST_BITS)? as u32,
        limit: number_in(entries, "limit", 1, MOST_LIMIT)?,
        id: number_in(entries, "id", 1, MOST_ID)? as u32,
    })
}

/// The command of that name, with its numbers.
fn action_of(name: &str, entries: &ArgMatches<'_>) -> Option<Action>
    ensures named { IfSome result (λ action. name.now ≡ command_name action) }
    ensures numbers { IfSome result (HasNumbers (rows_of (found_of entries.now))) }
    ensures none { IfNone result ((action : _) → name.now ≡ command_name action → ¬ HasNumbers (rows_of (found_of entries.now)) action) }
{
    match name {
        "run" => Some(Action::Run),
        "show" => Some(Action::Show),
        "make" => making_in(entries),
        _ => None,
    }
}

/// The numbers of the script that is to be made.
fn making_in(entries: &ArgMatches<'_>) -> Option<Action>
    ensures named { IfSome result (λ action. codes "make" ≡ command_name action) }
    ensures numbers { IfSome result (HasNumbers (rows_of (found_of entries.now))) }
    ensures none { IfNone result ((seed clients lines : ℕ) → ¬ HasMaking (rows_of (found_of entries.now)) seed clients lines) }
{
    Some(Action::Make {
        seed: number_in(entries, "SEED", 0, MOST_SEED)? as u32,
        clients: number_in(entries, "CLIENTS", 1, MOST_CLIENTS)? as u32,
        lines: number_in(entries, "LINES", 1, MOST_LINES)? as u32,
    })
}

/// The number of an argument's entry, if it is one and lies in its range.
fn number_in(entries: &ArgMatches<'_>, name: &str, least: u64, most: u64) -> Option<u64>
    ensures number { IfSome result (HasNumber (rows_of (found_of entries.now)) name.now least most) }
    ensures none { IfNone result ((number : ℕ)
        → ¬ HasNumber (rows_of (found_of entries.now)) name.now least most number) }
{
    let number = number_of(entries.get_str(name)?)?;
    if least <= number && number <= most {
        Some(number)
    } else {
        None
    }
}
