//! The base of a segment that begins where the history ends.
ghost use Rattle.std.specs.Prelude.{◌≡◌, ◌≤◌, true, IfOk};
ghost use Rattle.wp_model.specs.History.{is_undecided};
ghost use Rattle.wp_cuts.specs.Cut.{carried_from};
ghost use Rattle.wp_fields.specs.declared.format.Format.TheVariants.{Two};
ghost use Rattle.wp_entry.specs.Record.{last_number};
ghost use Rattle.wp_wal.specs.Segment.{base_of};

use std::alloc::{AllocError, Global};
use wp_entry::Base;
use wp_history::History;
use wp_model::{Carried, Seq};

/// The prepare with this number, which is undecided, as a base carries it.
fn carried(alloc: Global, history: &History, p: Seq) -> Result<Carried, AllocError>
    requires { is_undecided history.now.entries p ≡ true }
    ensures { IfOk result (λ carried. carried ≡ carried_from history.now.entries p) }
{
    Ok(Carried {
        number: p,
        name: history.name_at(p).copy(alloc)?,
        batch: history.batch_at(p).copy(alloc)?,
    })
}

/// The number of the history's last entry, and the prepares that are undecided there.
pub(crate) fn end_of(alloc: Global, history: &History) -> Result<Base, AllocError>
    ensures base { IfOk result (λ base. base ≡ base_of history.now.entries) }
    ensures small { IfOk result (λ base. base.number ≤ last_number Two) }
{
    let number = history.published();
    let mut undecided = Vec::with_capacity(alloc, history.undecided().len())?;
    for p in history.undecided() {
        undecided.push(carried(alloc, history, *p)?)?;
    }
    Ok(Base {
        number,
        carried: undecided,
    })
}
