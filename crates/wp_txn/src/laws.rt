//! What may be refused behind an append, and what the keys of a transaction keep.
ghost use Rattle.std.specs.Prelude.{◌≡◌, ◌⊎◌, ℕ, List, Err};
ghost use Rattle.wp_model.specs.Legal.{IsLegal};
ghost use Rattle.wp_model.specs.declared.entry.Entry.{Entry};
ghost use Rattle.wp_core.specs.World.{Participant};
ghost use Rattle.wp_parts.specs.Log.{LogState};
ghost use Rattle.wp_records.specs.declared.error.WriteError.{WriteError};
ghost use Rattle.wp_records.specs.declared.error.WriteError.TheVariants as write_error;
ghost use Rattle.wp_records.specs.Records.{Puts, IsUncalled, FailsAppend};
ghost use Rattle.wp_shared.specs.Devices.{CalledNoDevice};
ghost use Rattle.wp_shared.specs.Seats.{SharedState, SeatState};
ghost use Rattle.wp_open_txns.specs.declared.error.TxnError.{TxnError};
ghost use Rattle.wp_open_txns.specs.declared.error.TxnError.TheVariants.{LogFault};
ghost use Rattle.wp_txn.specs.Writes.{FailedOnce, LeavesDevice, RefusesBeforeLog, IsUnchangedThrough, KeepsValue};

/// From the append of a record to the reply nothing is refused but by the log's device.
///
/// A call that makes entries and is refused called no device; or the log's device refused, in the one append that the call made, and it
/// called no other. So it is of the record itself, of whose log the device is seen: it was not called, and its count and its moments
/// are as they were; or its count rose. And a call whose append answered Ok, so that the entries are the seat's own, answers
/// Ok, whatever it answers else.
pub fn behind_an_append_only_the_device_refuses<D>()
    ensures refused { (z : SharedState D) (found : Participant) (old new : SeatState) (why : TxnError) → RefusesBeforeLog z found old why new
        → (CalledNoDevice old.knows.participant new.knows.participant × LeavesDevice z found old new) ⊎ ((why ≡ LogFault) × FailedOnce old.knows.participant new.knows.participant) }
    ensures record { (z : SharedState D) (old new : SeatState) (log left : LogState) (entries : List Entry) (why : WriteError) → Puts z old log entries (Err why) new left
        → IsUncalled log left ⊎ ((why ≡ write_error.LogFault) × FailsAppend log entries left) }
    ensures appended { (z : SharedState D) (found : Participant) (old new : SeatState) (why : TxnError) → (new.knows.participant.own ≡ old.knows.participant.own → ⊥)
        → RefusesBeforeLog z found old why new → ⊥ }
{}

/// From the pin of a transaction to its own end none of its keys is changed, and each keeps the value that it had at the pin.
pub fn validated_keys_keep_their_values()
    ensures { (history : List Entry) (key : List ℕ) (n : ℕ) → IsLegal history → IsUnchangedThrough history key n → KeepsValue history key n }
{}
