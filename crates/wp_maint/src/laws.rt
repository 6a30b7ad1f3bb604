//! What a crash leaves in the midst of an install, of all three devices.
ghost use Rattle.std.specs.Prelude.{◌≡◌, ℕ, ◌<◌, ◌^◌, false, List, Option, None, Some, IfSome};
ghost use Rattle.wp_model.specs.declared.entry.Entry.{Entry};
ghost use Rattle.wp_model.specs.Flushed.{InstalledEdit, IsEditCovered};
ghost use Rattle.wp_outside.specs.Disk.{images};
ghost use Rattle.wp_replies.specs.Tables.{after_renewal};
ghost use Rattle.wp_core.specs.Images.{MayName, MaySpell};
ghost use Rattle.wp_core.specs.Runs.{Reaches};
ghost use Rattle.wp_core.specs.States.{Installed};
ghost use Rattle.wp_core.specs.World.{World};
ghost use Rattle.wp_shared.specs.Calls.{Continues};
ghost use Rattle.wp_parts.specs.VersionSet.{VersionSetState, IsEdits};
ghost use Rattle.wp_parts.specs.Installs.{SurvivesInstall};
ghost use Rattle.wp_shared.specs.Opening.{IsOneStore};
ghost use Rattle.wp_parts.specs.Parts.{EditsStand, LogStands, log_first, set_first};
ghost use Rattle.wp_shared.specs.Seats.{SharedState, SeatState};
ghost use Rattle.wp_maint.specs.declared.renewed.Renewed.{Renewed};
ghost use Rattle.wp_maint.specs.Calls.{IsUncalled, KeepsOnce};
ghost use Rattle.wp_maint.specs.Moments.{MaySpellAmid, OpensFrom, OpensToSuch, SpellsNamed};
ghost use Rattle.wp_maint.specs.Renewal.{HasBrokenOff, HasLogFault, HasNoMemory, HasRenewed, IsAtEnd, IsClosed, IsRenewed, NamesItsSegment, OpensInRenewal, OpensUnmoved, SurvivesBeside, segment_of};
ghost use Rattle.wp_parts.specs.Log.{LogState, IsLog};

/// Whatever a crash leaves of the three devices at a moment of an install, they open to just what the log spells then, from its base on,
/// and to the last edit or the next one. The install is any whose edit is covered by what was seen before it and names the segment in
/// use: a flush's, or a compaction's.
pub fn installs_open_throughout()
    ensures { (seen : List Entry) (old new : VersionSetState) (next : InstalledEdit) → IsEdits old → old.state.halted ≡ false → SurvivesInstall old new next → IsEditCovered seen next
        → next.segment ≡ old.state.last.segment → OpensFrom seen old new next }
{}

/// Whatever a crash leaves of the three devices at a moment of a renewal: the manifest spells the old edits, or those and the new one; and
/// at the place that the last of them names the log spells the history, cut at that edit's base. The renewal is any whose edit was
/// installed, or failed in its install, behind the write of its segment; or that broke off before, with the manifest uncalled.
pub fn a_renewal_leaves_each_edit_its_segment()
    ensures { (old new : VersionSetState) (log moved : LogState) (next : InstalledEdit) → IsEdits old → old.state.halted ≡ false → SurvivesInstall old new next
        → IsLog log → log.state.closed ≡ false → log.state.log ≡ log.state.history → log.state.segment ≡ old.state.last.segment
        → (asked : Option InstalledEdit) → IfSome asked (λ edit. edit ≡ next) → (asked ≡ None → IsUncalled old new) → SurvivesBeside log moved (segment_of asked) → NamesItsSegment old new log moved asked }
{}

/// Whatever a crash leaves of the three devices at a moment of a renewal, they open to a list that is the history from the edit's base
/// on, and to the last edit, or the one that was asked for, if one was.
///
/// The renewal is any at whose moments each edit has its segment, and whose edit, if one was asked for, is covered by the history and has
/// as its base the history's end, which is no undo; where the devices have one id, and a world of the store has the tables and the log as
/// they were before. So it is of each call that is answered with its number; in which a device of the tables failed, before the edit was
/// asked for or in its install; in which the log's device failed; or that wants memory. What the call tells is enough then, and that the
/// devices are one store's, as `Shared::shows_one_store` tells.
pub fn renewals_open_throughout<D>()
    ensures amid { (old new : VersionSetState) (log moved : LogState) (asked : Option InstalledEdit) → IsLog log → IfSome asked (IsAtEnd log.state.history)
        → NamesItsSegment old new log moved asked → old.set.manifest.log.id < 2 ^ 32 → log.wal.id ≡ old.set.manifest.log.id
        → (w : World) → Reaches w → w.installed ≡ old.state → w.writes ≡ log.state → OpensInRenewal old new log moved asked }
    ensures renewed { (z : SharedState D) (old new : SeatState) (e : Installed) → IsOneStore z.opened z.first → (done : Renewed) (k : HasRenewed (Continues z old new) z old new e done)
        → OpensInRenewal k.tables.before k.tables.after k.log.before k.log.after (Some (after_renewal new.knows.participant.seen k.place e.last)) }
    ensures broken_off { (z : SharedState D) (old new : SeatState) (e : Installed) → IsOneStore z.opened z.first → (k : HasBrokenOff (Continues z old new) z old new e)
        → OpensInRenewal k.fault.before k.fault.after k.log.before k.log.after k.asked }
    ensures log_fault { (z : SharedState D) (old new : SeatState) (e : Installed) → IsOneStore z.opened z.first → (k : HasLogFault (Continues z old new) z old new e)
        → OpensInRenewal k.tables.before k.tables.after k.log.before k.log.after None }
    ensures memory { (z : SharedState D) (old new : SeatState) (e : Installed) → IsOneStore z.opened z.first → (k : HasNoMemory (Continues z old new) z old new e)
        → OpensInRenewal k.tables.before k.tables.after k.log.before k.log.after None }
{}

/// Whatever a crash leaves of the three devices while none of them is called, they open to a list that is, from the edit's base on, what the
/// log may spell, and to the last edit, or the one whose install failed.
///
/// So it is of any two values that may stand behind the tables turn and the write turn in one world; and where others append meanwhile, of
/// one behind the tables turn and of each log of that world, also in the midst of an append.
///
/// A renewal calls no device that finds the log closed, nothing to renew, or the tables halted. Where the log was closed the list is what it
/// spells, or that and the record whose append failed; where there was nothing to renew it is the history; and the edit is the last one.
/// Where the tables were halted others go on appending.
pub fn refused_renewals_open_throughout<D>()
    ensures each { (z : SharedState D) → IsOneStore z.opened z.first → (edits : VersionSetState) → IsEdits edits → EditsStand edits → set_first z.first ≡ Some edits.first
        → (log : LogState) → IsLog log → LogStands log → log_first z.first ≡ Some log.first
        → (w : World) → Reaches w → w.installed ≡ edits.state → w.writes ≡ log.state → OpensUnmoved (MaySpell log.state) (MayName edits.state) edits log }
    ensures amid { (z : SharedState D) → IsOneStore z.opened z.first → (edits : VersionSetState) → IsEdits edits → EditsStand edits → set_first z.first ≡ Some edits.first
        → (w : World) → Reaches w → w.installed ≡ edits.state
        → (l m t : List ℕ) → SpellsNamed edits.set.manifest.log.id w l → images edits.set.manifest.log.moments m → images edits.set.moments t
        → OpensToSuch (MaySpellAmid w.writes) (MayName edits.state) edits.set.manifest.log.id l m t }
    ensures closed { (z : SharedState D) (old new : SeatState) (e : Installed) → IsOneStore z.opened z.first → (n : ℕ) (k : IsClosed (Continues z old new) z old new e n)
        → OpensUnmoved (MaySpell k.closed.0) (λ edit. edit ≡ e.last) k.tables.before k.log.before }
    ensures nothing { (z : SharedState D) (old new : SeatState) (e : Installed) → IsOneStore z.opened z.first → (k : IsRenewed (Continues z old new) z old new e)
        → OpensUnmoved (λ entries. entries ≡ new.knows.participant.seen) (λ edit. edit ≡ e.last) k.tables.before k.log.before }
    ensures halted { (z : SharedState D) (old new : SeatState) → IsOneStore z.opened z.first → (k : KeepsOnce z old new)
        → (l m t : List ℕ) → SpellsNamed k.2.before.set.manifest.log.id k.1.world l → images k.2.before.set.manifest.log.moments m → images k.2.before.set.moments t
        → OpensToSuch (MaySpellAmid k.1.world.writes) (MayName k.0) k.2.before.set.manifest.log.id l m t }
{}
