//! Reading the tables of an edit.
ghost use Rattle.std.specs.Prelude.{◌≡◌, ◌⊎◌, ◌+◌, ◌<◌, ◌≤◌, ◌^◌, length, map, IfOk, IfErr, OnOk};
ghost use Rattle.std.specs.Arc.{arc_value};
ghost use Rattle.std.specs.List.{AllByRecursion};
ghost use Rattle.wp_outside.specs.Disk.{IfKnown, Looks};
ghost use Rattle.wp_outside.specs.Faults.{Rose};
ghost use Rattle.wp_gatelog.specs.Patched.{Shows, EndsAt};
ghost use Rattle.wp_table.specs.File.{HasTable, HasTables};
ghost use Rattle.wp_table.specs.Table.{IsTable};
ghost use Rattle.wp_refused.specs.Shown.{WereShown};
ghost use Rattle.wp_refused.specs.Tables.{IsReadCause, IsTableCause, IsTablesCause, WasFirstWrong, AreTablesCause};

use std::alloc::Global;
use std::sync::Arc;
use wp_manifest::Edit;
use wp_model::Seq;
use wp_outside::{Device, Disk, Failed, Peek};
use wp_refused::{Bad, OpenError, table_reason};
use wp_table::{Table, TableError};

/// The bytes at a table's place on a device that had so many: as many as the table has, or as there are.
fn bytes_at<P: Peek>(
    alloc: Global,
    tables: &mut P,
    len: u64,
    placed: (u64, u64),
) -> Result<Vec<u8>, OpenError>
    requires { len ≤ 2 ^ 62 }
    ensures shown { IfOk result (λ bytes. IfKnown (P.moments tables.new) (Shows placed.0 bytes.items)) }
    ensures size { IfOk result (λ bytes. length bytes.items ≤ placed.1) }
    ensures ended { IfOk result (λ bytes. length bytes.items < placed.1
        → (len ≤ placed.0 + length bytes.items) ⊎ IfKnown (P.moments tables.new) (EndsAt placed.0 bytes.items)) }
    ensures looks { Looks (P.moments tables.old) (P.moments tables.new) (P.is_alone tables.old) (P.is_alone tables.new) }
    ensures cause { IfErr result (IsReadCause (Rose (P.faults tables.old) (P.faults tables.new))) }
    ensures later { P.faults tables.old ≤ P.faults tables.new }
    ensures unfailed { OnOk result (P.faults tables.new ≡ P.faults tables.old) }
{
    let place = placed.0.min(len);
    let size = placed.1.min(len - place);
    let mut bytes = vec![in alloc; 0u8; size as usize]?;
    match tables.read_at(place, &mut bytes) {
        Ok(read) => {
            bytes.truncate(read);
            Ok(bytes)
        }
        Err(Failed) => Err(OpenError::OpenFault(Device::Tables)),
    }
}

/// The table at a place of a device that had so many bytes, in the store with that id, where the entries up to `flushed`
/// were flushed.
fn read_table<P: Peek>(
    alloc: Global,
    tables: &mut P,
    len: u64,
    placed: (u64, u64),
    id: u32,
    flushed: Seq,
) -> Result<Table, OpenError>
    requires { len ≤ 2 ^ 62 }
    ensures found { IfOk result (λ table. IfKnown (P.moments tables.new) (λ m. HasTable id flushed m.reads placed table)) }
    ensures is { IfOk result (λ table. IsTable id flushed table) }
    ensures looks { Looks (P.moments tables.old) (P.moments tables.new) (P.is_alone tables.old) (P.is_alone tables.new) }
    ensures cause { IfErr result (IsTableCause id flushed placed len (Rose (P.faults tables.old) (P.faults tables.new)) (P.moments tables.new)) }
    ensures later { P.faults tables.old ≤ P.faults tables.new }
    ensures unfailed { OnOk result (P.faults tables.new ≡ P.faults tables.old) }
{
    let bytes = bytes_at(alloc, tables, len, placed)?;
    let is_short = (bytes.len() as u64) < placed.1;
    match Table::of(alloc, bytes, id, flushed) {
        Ok(_) if is_short => Err(OpenError::Contents(Bad::BadTable {
            place: placed.0,
            why: TableError::Short,
        })),
        Ok(table) => Ok(table),
        Err(why) => Err(table_reason(id, placed.0, why)),
    }
}

/// The edit's tables, in its order, in the store with that id. The device's length is asked for once, and no table is
/// looked for behind it.
pub(crate) fn read_tables<P: Peek>(
    alloc: Global,
    tables: &mut P,
    id: u32,
    edit: &Edit,
) -> Result<Vec<Arc<Table>>, OpenError>
    ensures found { IfOk result (λ parts. WereShown id edit.now.flushed (P.moments tables.old) (P.moments tables.new) edit.now.tables (map arc_value parts.items)) }
    ensures are { IfOk result (λ parts. AllByRecursion (IsTable id edit.now.flushed) (map arc_value parts.items)) }
    ensures as_many { IfOk result (λ parts. length (map arc_value parts.items) ≡ length edit.now.tables) }
    ensures looks { Looks (P.moments tables.old) (P.moments tables.new) (P.is_alone tables.old) (P.is_alone tables.new) }
    ensures cause { IfErr result (IsTablesCause id (Rose (P.faults tables.old) (P.faults tables.new))
        (WasFirstWrong id edit.now (P.moments tables.old) (P.moments tables.new))) }
    ensures later { P.faults tables.old ≤ P.faults tables.new }
    ensures unfailed { OnOk result (P.faults tables.new ≡ P.faults tables.old) }
{
    let Ok(len) = tables.len() else {
        return Err(OpenError::OpenFault(Device::Tables));
    };
    let mut parts = Vec::new(alloc);
    for placed in &edit.tables {
        let table = read_table(alloc, tables, len, *placed, id, edit.flushed)?;
        parts.push(Arc::new(alloc, table)?)?;
    }
    Ok(parts)
}

/// The edit's tables on a disk.
pub(crate) fn own_tables<D: Disk>(
    alloc: Global,
    tables: &mut D,
    id: u32,
    edit: &Edit,
) -> Result<Vec<Arc<Table>>, OpenError>
    ensures found { IfOk result (λ parts. IfKnown (D.moments tables.old) (λ m. HasTables id edit.now.flushed m.reads edit.now.tables (map arc_value parts.items))) }
    ensures are { IfOk result (λ parts. AllByRecursion (IsTable id edit.now.flushed) (map arc_value parts.items)) }
    ensures as_many { IfOk result (λ parts. length (map arc_value parts.items) ≡ length edit.now.tables) }
    ensures unchanged { D.moments tables.new ≡ D.moments tables.old }
    ensures cause { IfErr result (AreTablesCause id edit.now (Rose (D.faults tables.old) (D.faults tables.new)) (D.moments tables.old)) }
    ensures later { D.faults tables.old ≤ D.faults tables.new }
    ensures unfailed { OnOk result (D.faults tables.new ≡ D.faults tables.old) }
{
    read_tables(alloc, tables, id, edit)
}
