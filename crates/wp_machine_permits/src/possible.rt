//! Runs of the machine, which show that what its steps need can be met.
//!
//! What is proved of the machine holds of each world that steps reach from an opening. It would say little if no step could
//! be made. So here are runs of one actor, from an opening on no entries, each step with all that it needs: a transaction is
//! prepared and committed; a pair that the cache lost is kept under a live snapshot; a transaction is rolled back; memory is
//! flushed into a table, whose edit is installed; and a reader is decided in each of five ways.
//!
//! The runs are lists of steps, in `specs/Runs.antt`. Those are short, and of few numbers: the cache has two words, and of
//! each entry there is one key. That each batch can be written is a law of `wp_core`.
ghost use Rattle.std.specs.Prelude.{◌++◌, true, false};
ghost use Rattle.wp_judge.specs.declared.observed.Load.TheVariants.{FirstWord, FirstMax, InPrepared, SecondMax, IsOldCommit};
ghost use Rattle.wp_machine_permits.specs.Leads.{CanLead};
ghost use Rattle.wp_machine_permits.specs.Runs.{prepare, commit, free, undo, register, delay, write, keep, overwrite, flush, look, look_at_bound, look_into_prepared, look_again, look_into_old_commits};
ghost use Rattle.wp_machine_permits.specs.Ends.{HasCommitted, HasRolledBack, HasKept, HasFlushed, IsDecidedBy};

/// A transaction can be prepared, committed and freed.
pub fn transactions_can_be_committed()
    ensures { CanLead (prepare ++ commit ++ free) HasCommitted }
{}

/// A prepared transaction can be rolled back, by an Undo with its Close.
pub fn transactions_can_be_rolled_back()
    ensures { CanLead (prepare ++ undo ++ free) HasRolledBack }
{}

/// A pair can be evicted whose commit is above a live snapshot: it is kept under that.
pub fn pairs_can_be_kept()
    ensures { CanLead (prepare ++ register ++ commit ++ write ++ keep ++ overwrite) HasKept }
{}

/// What is in memory can be flushed into a table, whose edit is installed.
pub fn memory_can_be_flushed()
    ensures { CanLead (prepare ++ commit ++ flush) HasFlushed }
{}

/// A reader of the prepared version can be decided by a word of the cache; by the bound, where that is below the version; by the
/// prepared sets; by the bound, where that is below the snapshot; and by the old commit map.
pub fn readers_can_be_decided()
    ensures by_word { CanLead (prepare ++ commit ++ register ++ look 2) (IsDecidedBy FirstWord true) }
    ensures above_bound { CanLead (prepare ++ register ++ look 1 ++ look_at_bound) (IsDecidedBy FirstMax false) }
    ensures by_prepared { CanLead (prepare ++ register ++ delay ++ look 1 ++ look_at_bound ++ look_into_prepared) (IsDecidedBy InPrepared false) }
    ensures below_bound { CanLead (prepare ++ commit ++ write ++ overwrite ++ register ++ look 3 ++ look_at_bound ++ look_again) (IsDecidedBy SecondMax true) }
    ensures by_old_commits { CanLead (prepare ++ register ++ commit ++ write ++ keep ++ overwrite ++ look 1 ++ look_at_bound ++ look_again ++ look_into_old_commits) (IsDecidedBy IsOldCommit false) }
{}
