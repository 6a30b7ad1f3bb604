//! One item more in a list. An item that finds no room is let go of.
ghost use Rattle.std.specs.Prelude.{◌≡◌, ◌∷◌, ◌++◌, [], OnOk};

use std::alloc::AllocError;

/// The item comes last.
pub(crate) fn add<T: Drop>(list: &mut Vec<T>, item: T) -> Result<(), AllocError>
    ensures { OnOk result (list.new.items ≡ list.old.items ++ item ∷ []) }
{
    list.push(item)?;
    Ok(())
}

/// The item comes first.
pub(crate) fn add_first<T: Drop>(list: &mut Vec<T>, item: T) -> Result<(), AllocError>
    ensures { OnOk result (list.new.items ≡ item ∷ list.old.items) }
{
    list.insert(0, item)?;
    Ok(())
}
