//! What is spelled is read, what is read is spelled so, and what is refused has the fault.

ghost use Rattle.std.specs.Prelude.{◌≡◌, ◌≢◌, ◌↔◌, ◌<◌, ◌⊎◌, ℕ, List, Ok, Err, slice_index};
ghost use Rattle.wp_model.specs.declared.version.Version.{Version};
ghost use Rattle.wp_table.specs.declared.error.TableError.{TableError};
ghost use Rattle.wp_table.specs.declared.error.TableError.TheVariants.{Stranger};
ghost use Rattle.wp_table.specs.declared.layout.TheConstants.{BLOCK};
ghost use Rattle.wp_table.specs.Table.{SpellsTable};
ghost use Rattle.wp_table.specs.Faults.{IsTableFault};
ghost use Rattle.wp_table.specs.Reading.{table_at};

/// Versions that are a table are read from its spelling in each version of the format, and from no other bytes. Other bytes
/// are refused for their first fault.
pub fn tables_are_read()
    ensures spelled { (id flushed : ℕ) (versions : List Version) (bytes : List ℕ) → SpellsTable id flushed versions bytes
        → table_at id flushed bytes ≡ Ok versions }
    ensures only { (id flushed : ℕ) (bytes : List ℕ) (versions : List Version) → ((i : ℕ) → slice_index bytes i < 256)
        → table_at id flushed bytes ≡ Ok versions → SpellsTable id flushed versions bytes }
    ensures refused { (id flushed : ℕ) (bytes : List ℕ) (fault : TableError) → ((i : ℕ) → slice_index bytes i < 256)
        → (table_at id flushed bytes ≡ Err fault) ↔ IsTableFault id flushed bytes fault }
{}

/// Bytes are a table or have a first fault, and never two of these.
pub fn bytes_are_read_in_one_way()
    ensures either { (id flushed : ℕ) (bytes : List ℕ) → ((i : ℕ) → slice_index bytes i < 256)
        → ((versions : List Version) × SpellsTable id flushed versions bytes)
        ⊎ ((fault : TableError) × IsTableFault id flushed bytes fault) }
    ensures one_table { (id flushed : ℕ) (bytes : List ℕ) (one other : List Version) → SpellsTable id flushed one bytes
        → SpellsTable id flushed other bytes → one ≡ other }
    ensures one_fault { (id flushed : ℕ) (bytes : List ℕ) (one other : TableError) → IsTableFault id flushed bytes one
        → IsTableFault id flushed bytes other → one ≡ other }
    ensures not_both { (id flushed : ℕ) (bytes : List ℕ) (versions : List Version) (fault : TableError)
        → SpellsTable id flushed versions bytes → IsTableFault id flushed bytes fault → ⊥ }
{}

/// The table of a store is a stranger to each other one.
pub fn tables_have_one_store()
    ensures { (id other flushed : ℕ) (versions : List Version) (bytes : List ℕ) → SpellsTable other flushed versions bytes
        → other ≢ id → table_at id flushed bytes ≡ Err (Stranger other) }
{}

/// A block has at most 16 versions.
pub fn limits_are()
    ensures { BLOCK ≡ 16 }
{}
