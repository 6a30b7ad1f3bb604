//! What single command lines choose, and that words choose one thing at most.

ghost use Rattle.std.specs.Prelude.{◌≡◌, List, [], ◌∷◌, codes};
ghost use Rattle.clap.specs.Words.{Text};
ghost use Rattle.wp_args.specs.Choice.{IsChoice, IsTaken};
ghost use Rattle.wp_args.specs.CopyChoice.{IsCopyChoice, IsCopyTaken};

use crate::{Action, MOST_LIMIT};

/// A command alone is taken, and each option has its default.
pub fn commands_alone_are_taken()
    ensures run { IsChoice (codes "wp" ∷ codes "run" ∷ [])
        (record { action = Action.Run; store = record { bits = 10; limit = MOST_LIMIT; id = 1 } }) }
    ensures show { IsChoice (codes "wp" ∷ codes "show" ∷ [])
        (record { action = Action.Show; store = record { bits = 10; limit = MOST_LIMIT; id = 1 } }) }
{}

/// A script is made of the numbers that are given, which may stand beside options.
pub fn numbers_make_a_script()
    ensures alone { IsChoice (codes "wp" ∷ codes "make" ∷ codes "7" ∷ codes "8" ∷ codes "1000" ∷ [])
        (record { action = Action.Make 7 8 1000; store = record { bits = 10; limit = MOST_LIMIT; id = 1 } }) }
    ensures beside { IsChoice (codes "wp" ∷ codes "make" ∷ codes "7" ∷ codes "--bits" ∷ codes "0" ∷ codes "8" ∷ codes "1000" ∷ [])
        (record { action = Action.Make 7 8 1000; store = record { bits = 0; limit = MOST_LIMIT; id = 1 } }) }
{}

/// Words without a command, a request for help and a number out of its range or missing are refused.
pub fn other_words_are_refused()
    ensures no_words { ¬ IsTaken [] }
    ensures no_command { ¬ IsTaken (codes "wp" ∷ []) }
    ensures help { ¬ IsTaken (codes "wp" ∷ codes "--help" ∷ []) }
    ensures many_bits { ¬ IsTaken (codes "wp" ∷ codes "run" ∷ codes "--bits" ∷ codes "17" ∷ []) }
    ensures no_limit { ¬ IsTaken (codes "wp" ∷ codes "run" ∷ codes "--limit" ∷ codes "0" ∷ []) }
    ensures past_limit { ¬ IsTaken (codes "wp" ∷ codes "run" ∷ codes "--limit" ∷ codes "70368744177664" ∷ []) }
    ensures many_clients { ¬ IsTaken (codes "wp" ∷ codes "make" ∷ codes "7" ∷ codes "17" ∷ codes "1" ∷ []) }
    ensures no_lines { ¬ IsTaken (codes "wp" ∷ codes "make" ∷ codes "7" ∷ codes "8" ∷ []) }
{}

/// Words choose one thing at most.
pub fn words_choose_once()
    ensures { (words : List Text) (one other : _)
        → IsChoice words one → IsChoice words other → one ≡ other }
{}

/// A copy is chosen by its own command, and by no other; and that command chooses nothing else.
pub fn copies_are_chosen_apart()
    ensures alone { IsCopyChoice (codes "wp" ∷ codes "copy" ∷ []) (record { bits = 10; limit = MOST_LIMIT; id = 1 }) }
    ensures no_run { ¬ IsTaken (codes "wp" ∷ codes "copy" ∷ []) }
    ensures no_other { ¬ IsCopyTaken (codes "wp" ∷ codes "run" ∷ []) }
    ensures no_words { ¬ IsCopyTaken [] }
    ensures no_more { ¬ IsCopyTaken (codes "wp" ∷ codes "copy" ∷ codes "x" ∷ []) }
    ensures many_bits { ¬ IsCopyTaken (codes "wp" ∷ codes "copy" ∷ codes "--bits" ∷ codes "17" ∷ []) }
{}

/// Words choose one copy at most.
pub fn copy_words_choose_once()
    ensures { (words : List Text) (one other : _)
        → IsCopyChoice words one → IsCopyChoice words other → one ≡ other }
{}
