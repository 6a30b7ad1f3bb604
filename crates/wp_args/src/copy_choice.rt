//! What a command line chooses where a store is copied.

ghost use Rattle.std.specs.Prelude.{IfNone, IfOk, IfSome, map, string_bytes};
ghost use Rattle.clap.specs.Words.{subcommand_rows_of};
ghost use Rattle.wp_args.specs.CopyChoice.{IsCopyChoice, IsCopyEntered, IsCopyTaken};

use crate::choice::{StoreOptions, options_in};
use crate::command_set::copy_set;
use clap::ArgMatches;
use clap::error::ErrorKind;
use std::alloc::{AllocError, Global};

/// The options of the store that is copied, or `None` where the words are refused. The first word is the program's name and is not
/// looked at. The error is want of memory, which may also come before a refusal.
pub fn copy_choice_of(alloc: Global, words: &[String]) -> Result<Option<StoreOptions>, AllocError>
    ensures taken { IfOk result (λ answer. IfSome answer (IsCopyChoice (map string_bytes words.now))) }
    ensures refused { IfOk result (λ answer. IfNone answer (¬ IsCopyTaken (map string_bytes words.now))) }
{
    match copy_set(alloc)?.try_get_matches_from(words) {
        Ok(matches) => Ok(copied_in(&matches)),
        Err(error) if error.kind() == ErrorKind::OutOfMemory => Err(AllocError),
        Err(_) => Ok(None),
    }
}

/// The options of the command that matches name, if its numbers are the program's.
fn copied_in(matches: &ArgMatches<'_>) -> Option<StoreOptions>
    ensures entered { IfSome result (IsCopyEntered (subcommand_rows_of matches.now)) }
    ensures none { IfNone result ((options : _) → ¬ IsCopyEntered (subcommand_rows_of matches.now) options) }
{
    let (_, entries) = matches.subcommand()?;
    options_in(entries)
}
