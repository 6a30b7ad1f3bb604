//! Whether the tables cover the history.
ghost use Rattle.std.specs.Prelude.{◌≡◌, ◌↔◌, ◌≤◌, true, length, map, IfOk};
ghost use Rattle.std.specs.Arc.{arc_value};
ghost use Rattle.wp_model.specs.Legal.{IsLegal};
ghost use Rattle.wp_cuts.specs.Cut.{IsCut};
ghost use Rattle.wp_cuts.specs.LegalCut.{AreBelow};
ghost use Rattle.wp_manifest.specs.Edit.{Edit};
ghost use Rattle.wp_history.specs.Outline.{cut_in};
ghost use Rattle.wp_contents.specs.Opens.{AreCovering, all_in, history_over};

use std::alloc::{AllocError, Global};
use std::sync::Arc;
use wp_cover::tables_cover;
use wp_history::History;
use wp_model::Seq;
use wp_table::Table;

/// What is so of each history: it is legal, and has the cut that it says.
fn shows_cut(history: &History)
    ensures legal { IsLegal history.now.entries }
    ensures cut { IsCut history.now.entries (cut_in history.now) }
{
    let _ = history.later();
}

/// Whether the tables show every reader what the history holds that stands for them, with the versions of its later entries. Those are of the
/// history's own entries, and are taken from there. Where nothing was flushed and there is no table, so that all versions are in memory, they
/// do, and nothing is read.
pub(crate) fn are_covering(
    alloc: Global,
    history: &History,
    flushed: Seq,
    tables: &[Arc<Table>],
) -> Result<bool, AllocError>
    requires base { history.now.base ≤ flushed }
    requires within { flushed ≤ length history.now.entries }
    requires full { history.now.entries ≡ history_over (cut_in history.now) (map arc_value tables.now) }
    requires below { AreBelow (cut_in history.now) (all_in (map arc_value tables.now)) }
    ensures covering { (edit : Edit) → flushed ≡ edit.flushed → IfOk result (λ yes. (yes ≡ true) ↔ AreCovering (cut_in history.now) edit (map arc_value tables.now)) }
    ensures legal { IsLegal history.now.entries }
{
    shows_cut(history);
    if flushed == 0 && tables.is_empty() {
        return Ok(true);
    }
    tables_cover(alloc, history, flushed, tables)
}
