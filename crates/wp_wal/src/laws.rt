//! What bytes are as a log, and what they have acknowledged.

ghost use Rattle.std.specs.Prelude.{◌≡◌, ◌++◌, ℕ, List};
ghost use Rattle.wp_model.specs.declared.entry.Entry.{Entry};
ghost use Rattle.wp_cuts.specs.Cut.{Cut};
ghost use Rattle.wp_outside.specs.Disk.{IfKnown};
ghost use Rattle.wp_entry.specs.declared.error.RecordError.{RecordError};
ghost use Rattle.wp_gatelog.specs.Damage.{IsBadHeadAt};
ghost use Rattle.wp_gatelog.specs.Moments.{Leaves};
ghost use Rattle.wp_wal.specs.Opening.{IsBadLog, IsIllegalLog};
ghost use Rattle.wp_wal.specs.Reading.{IsJudged};
ghost use Rattle.wp_wal.specs.Spelling.{MAGIC, NEWEST, IsLogAt, HasAcknowledgedCut, longer};
ghost use Rattle.wp_wal.specs.Wal.{WalState, StoresCut};

use wp_entry::{bases_are_read, records_are_read, spellings_differ};
use wp_gatelog::{
    acknowledged_records_come_first, bytes_are_read_in_one_way, logs_at_a_place_are_read_in_one_way,
};
use wp_history::laws::orderly_cuts;
use wp_history_laws::laws::{legal_at_each_entry, legal_front};

/// From a place on bytes spell a cut whose entries may come so, or have a bad head, or a bad record, or an illegal entry: at most one of these, in
/// one way.
pub fn a_log_is_read_in_one_way()
    ensures one_cut { (place : ℕ) (bytes : List ℕ) (id other : ℕ) (c d : Cut)
        → IsLogAt id place c bytes → IsLogAt other place d bytes → c ≡ d }
    ensures one_bad_record { (place : ℕ) (bytes : List ℕ) (index other : ℕ) (why also : RecordError)
        → IsBadLog place bytes index why → IsBadLog place bytes other also → (index ≡ other) × (why ≡ also) }
    ensures one_illegal { (place : ℕ) (bytes : List ℕ) (number other : ℕ)
        → IsIllegalLog place bytes number → IsIllegalLog place bytes other → number ≡ other }
    ensures spelled_or_bad_head { (place : ℕ) (bytes : List ℕ) (id : ℕ) (c : Cut)
        → IsLogAt id place c bytes → IsBadHeadAt place MAGIC NEWEST bytes → ⊥ }
    ensures spelled_or_bad_record { (place : ℕ) (bytes : List ℕ) (id index : ℕ) (c : Cut) (why : RecordError)
        → IsLogAt id place c bytes → IsBadLog place bytes index why → ⊥ }
    ensures judged_or_illegal { (place : ℕ) (bytes : List ℕ) (id number : ℕ) (c : Cut)
        → IsLogAt id place c bytes → IsJudged c → IsIllegalLog place bytes number → ⊥ }
    ensures bad_head_or_bad_record { (place : ℕ) (bytes : List ℕ) (index : ℕ) (why : RecordError)
        → IsBadHeadAt place MAGIC NEWEST bytes → IsBadLog place bytes index why → ⊥ }
    ensures bad_head_or_illegal { (place : ℕ) (bytes : List ℕ) (number : ℕ)
        → IsBadHeadAt place MAGIC NEWEST bytes → IsIllegalLog place bytes number → ⊥ }
    ensures bad_record_or_illegal { (place : ℕ) (bytes : List ℕ) (index number : ℕ) (why : RecordError)
        → IsBadLog place bytes index why → IsIllegalLog place bytes number → ⊥ }
{
    logs_at_a_place_are_read_in_one_way();
    bytes_are_read_in_one_way();
    records_are_read();
    bases_are_read();
    orderly_cuts();
    legal_at_each_entry();
    legal_front();
}

/// What a crash leaves of a log that stores a cut has it acknowledged, also where an append has failed.
pub fn stored_cut_is_acknowledged()
    ensures { (wal : WalState) (c : Cut) (next : List Entry) → StoresCut wal c next
        → IfKnown wal.moments (Leaves (HasAcknowledgedCut wal.id wal.segment.place c)) }
{}

/// Bytes that have a cut acknowledged at a place spell none there but those that begin with it.
pub fn acknowledged_cut_comes_first()
    ensures { (place id other : ℕ) (c d : Cut) (bytes : List ℕ)
        → HasAcknowledgedCut id place c bytes → IsLogAt other place d bytes
        → (more : List Entry) × (d ≡ longer c more) }
{
    spellings_differ();
    bases_are_read();
    acknowledged_records_come_first();
}
