//! What a log tells, judged by tables.
ghost use Rattle.std.specs.Prelude.{◌≡◌, map, IfOk, IfErr};
ghost use Rattle.std.specs.Arc.{arc_value};
ghost use Rattle.wp_cuts.specs.LegalCut.{prepares_of};
ghost use Rattle.wp_history.specs.Outline.{cut_in};
ghost use Rattle.wp_contents.specs.Opens.{AreCovering, history_over};
ghost use Rattle.wp_refused.specs.Damage.{IsWithin};
ghost use Rattle.wp_refused.specs.Tables.{IsJudgedCause};

use crate::covering::are_covering;
use crate::standing::history_of;
use std::alloc::Global;
use std::sync::Arc;
use wp_history::{History, Outline};
use wp_manifest::Edit;
use wp_refused::{Bad, OpenError};
use wp_table::Table;

/// The history that stands for what a log tells and for the tables of this edit, the newest first. Each of its undos is judged by what the
/// tables had at the base; then they are asked whether they cover it, with the versions of the later entries. No device is called.
pub fn judged(
    alloc: Global,
    outline: Outline,
    edit: &Edit,
    tables: &[Arc<Table>],
) -> Result<History, OpenError>
    requires told { outline.entries ≡ prepares_of (cut_in outline) }
    requires within { IsWithin (cut_in outline) edit.now }
    ensures base { IfOk result (λ history. history.base ≡ outline.base) }
    ensures cut { IfOk result (λ history. cut_in history ≡ cut_in outline) }
    ensures full { IfOk result (λ history. history.entries ≡ history_over (cut_in outline) (map arc_value tables.now)) }
    ensures covering { IfOk result (λ _. AreCovering (cut_in outline) edit.now (map arc_value tables.now)) }
    ensures cause { IfErr result (IsJudgedCause (cut_in outline) edit.now (map arc_value tables.now)) }
{
    let history = history_of(alloc, outline, tables)?;
    if !are_covering(alloc, &history, edit.flushed, tables)? {
        return Err(OpenError::Contents(Bad::Uncovered));
    }
    Ok(history)
}
