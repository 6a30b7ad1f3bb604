//! How much the last state of a history holds.
ghost use Rattle.std.specs.Prelude.{◌≡◌, IfOk};
ghost use Rattle.std.specs.List.{sum_by};
ghost use Rattle.wp_make.specs.Totals.{size_of, store_of};

use std::alloc::{AllocError, Global};
use std::collections::BTreeMap;
use wp_history::History;
use wp_model::{Key, Value};

/// How many keys have a value, and how many bytes they and their values have together.
#[derive(Clone, Copy)]
pub(crate) struct Sizes {
    pub keys: u64,
    pub bytes: u64,
}

fn size_of(key: &Key, value: &Value) -> u64
    ensures { result ≡ size_of (key.now, value.now) }
{
    key.bytes().len() as u64 + value.bytes().len() as u64
}

fn bytes_of(store: &BTreeMap<Key, Value>) -> Result<u64, AllocError>
    ensures { IfOk result (λ bytes. bytes ≡ sum_by size_of store.now.entries) }
{
    let mut bytes = 0u64;
    for (key, value) in store {
        bytes = bytes.checked_add(size_of(key, value)).ok_or(AllocError)?;
    }
    Ok(bytes)
}

/// How much the history leaves.
pub(crate) fn store_of(alloc: Global, history: &History) -> Result<Sizes, AllocError>
    ensures { IfOk result (λ sizes. sizes ≡ store_of history.now.entries) }
{
    let store = history.stored(alloc)?;
    Ok(Sizes {
        keys: store.len() as u64,
        bytes: bytes_of(&store)?,
    })
}
