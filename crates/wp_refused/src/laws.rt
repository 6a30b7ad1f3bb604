//! What three devices open to, and what a crash leaves of them.
ghost use Rattle.std.specs.Prelude.{◌≡◌, ℕ, List};
ghost use Rattle.wp_model.specs.declared.entry.Entry.{Entry};
ghost use Rattle.wp_model.specs.Flushed.{InstalledEdit};
ghost use Rattle.wp_outside.specs.Disk.{Moment, images};
ghost use Rattle.wp_gatelog.specs.Spelling.{IsUnmade};
ghost use Rattle.wp_wal.specs.Wal.{WalState};
ghost use Rattle.wp_manifest.specs.Manifest.{ManifestState};
ghost use Rattle.wp_store.specs.Store.{StoreParts};
ghost use Rattle.wp_refused.specs.declared.bad.Bad.{Bad};
ghost use Rattle.wp_refused.specs.Damage.{IsDamaged};
ghost use Rattle.wp_contents.specs.Opens.{HasAsked, Opens, OpensTo, installed_of};
ghost use Rattle.wp_refused.specs.Parts.{PartsOpened};

use wp_gatelog::{bytes_are_read_in_one_way, logs_at_a_place_are_read_in_one_way};
use wp_manifest::a_manifest_is_read_in_one_way;
use wp_table::bytes_are_read_in_one_way as a_table_is_read_in_one_way;
use wp_wal::a_log_is_read_in_one_way;

/// The bytes of three devices open to one history and one edit, under one id where a log or a manifest was made, or are damaged, with one
/// first fault: never both.
pub fn a_store_is_opened_in_one_way()
    ensures one_history { (log manifest tables : List ℕ) (id other : ℕ) (history another : List Entry)
        → Opens id history log manifest tables → Opens other another log manifest tables → history ≡ another }
    ensures one_edit { (log manifest tables : List ℕ) (id other : ℕ) (history another : List Entry) (edit also : InstalledEdit)
        → OpensTo id history edit log manifest tables → OpensTo other another also log manifest tables → edit ≡ also }
    ensures one_id { (log manifest tables : List ℕ) (id other : ℕ) (history another : List Entry)
        → (IsUnmade log → IsUnmade manifest → ⊥)
        → Opens id history log manifest tables → Opens other another log manifest tables → id ≡ other }
    ensures opened_or_damaged { (log manifest tables : List ℕ) (asked id : ℕ) (history : List Entry) (bad : Bad)
        → (opens : Opens id history log manifest tables) → HasAsked asked id opens.edits log → IsDamaged asked log manifest tables bad → ⊥ }
    ensures one_fault { (log manifest tables : List ℕ) (asked : ℕ) (bad other : Bad) → IsDamaged asked log manifest tables bad
        → IsDamaged asked log manifest tables other → bad ≡ other }
{
    bytes_are_read_in_one_way();
    logs_at_a_place_are_read_in_one_way();
    a_log_is_read_in_one_way();
    a_manifest_is_read_in_one_way();
    a_table_is_read_in_one_way();
}

/// Whatever a crash leaves of the three devices of a store that was opened, they open to its history and its edit again.
pub fn opened_parts_open_again()
    ensures { (asked : ℕ) (log manifest tables : List Moment) (wal : WalState) (history : List Entry) (edits : ManifestState)
        (tables_now : List Moment) (parts : StoreParts) (log_image manifest_image tables_image : List ℕ)
        → PartsOpened asked log manifest tables wal history edits tables_now parts
        → images wal.moments log_image → images edits.log.moments manifest_image → images tables_now tables_image
        → OpensTo wal.id history (installed_of wal.segment.base edits.edit parts.tables) log_image manifest_image tables_image }
{}
