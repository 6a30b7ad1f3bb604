ghost use Rattle.std.specs.Prelude.{◌≡◌, ◌↔◌, ℕ, ◌<◌, List, Ok, Err, slice_index};
ghost use Rattle.wp_model.specs.declared.entry.Entry.{Entry};
ghost use Rattle.wp_fields.specs.declared.format.Format.{Format};
ghost use Rattle.wp_entry.specs.declared.error.RecordError.{RecordError};
ghost use Rattle.wp_entry.specs.Record.{IsRecord, record_bytes};
ghost use Rattle.wp_entry.specs.Faults.{IsRecordFault};
ghost use Rattle.wp_entry.specs.Reading.{record_at};
ghost use Rattle.wp_entry.specs.Base.{Base, IsBase, base_bytes};
ghost use Rattle.wp_entry.specs.BaseFaults.{IsBaseFault};
ghost use Rattle.wp_entry.specs.BaseReading.{base_at};

/// Records of different entries have different spellings.
pub fn spellings_differ()
    ensures { (format : Format) (first : ℕ) (one other : List Entry) → IsRecord format first one → IsRecord format first other
        → record_bytes format first one ≡ record_bytes format first other → one ≡ other }
{}

/// Entries that are a record are read from its spelling, and from no other bytes. Other bytes are refused for their
/// first fault.
pub fn records_are_read()
    ensures spelled { (format : Format) (first : ℕ) (entries : List Entry) → IsRecord format first entries
        → record_at format first (record_bytes format first entries) ≡ Ok entries }
    ensures only { (format : Format) (first : ℕ) (bytes : List ℕ) (entries : List Entry) → ((i : ℕ) → slice_index bytes i < 256)
        → record_at format first bytes ≡ Ok entries → IsRecord format first entries × (bytes ≡ record_bytes format first entries) }
    ensures refused { (format : Format) (first : ℕ) (bytes : List ℕ) (fault : RecordError) → ((i : ℕ) → slice_index bytes i < 256)
        → (record_at format first bytes ≡ Err fault) ↔ IsRecordFault format first bytes fault }
{}

/// A base is read from its spelling, and from no other bytes, so no two have one. Other bytes are refused for their
/// first fault.
pub fn bases_are_read()
    ensures spelled { (base : Base) → IsBase base → base_at (base_bytes base) ≡ Ok base }
    ensures only { (bytes : List ℕ) (base : Base) → ((i : ℕ) → slice_index bytes i < 256)
        → base_at bytes ≡ Ok base → IsBase base × (bytes ≡ base_bytes base) }
    ensures refused { (bytes : List ℕ) (fault : RecordError) → ((i : ℕ) → slice_index bytes i < 256)
        → (base_at bytes ≡ Err fault) ↔ IsBaseFault bytes fault }
{}
