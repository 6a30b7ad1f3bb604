//! What is proved of the machine, over all worlds that steps of any actors reach, in any order.
ghost use mathlib.Core.Option.{some};
ghost use lib.ListN.{get_elem?};
ghost use Rattle.std.specs.Prelude.{◌≡◌, ◌⊎◌, ℕ, Bool, true, List, [], ◌∷◌, length, Some, None};
ghost use Rattle.wp_model.specs.declared.change.Change.{Change};
ghost use Rattle.wp_model.specs.declared.entry.Entry.{Entry};
ghost use Rattle.wp_model.specs.declared.entry.Entry.TheVariants.{Write};
ghost use Rattle.wp_model.specs.Batch.{is_batch};
ghost use Rattle.wp_model.specs.Legal.{IsLegal, undone_last};
ghost use Rattle.wp_judge.specs.declared.observed.Observed.{Observed};
ghost use Rattle.wp_judge.specs.Order.{judgement};
ghost use Rattle.wp_core.specs.Alone.{IsAlone, IsOnlyOf};
ghost use Rattle.wp_core.specs.World.{World, Actor, history};
ghost use Rattle.wp_core.specs.Steps.{Step};
ghost use Rattle.wp_core.specs.Runs.{IsStep, IsOpening, ReachesFrom, Reaches};
ghost use Rattle.wp_core.specs.Images.{MaySpell, MayName};
ghost use Rattle.wp_core.specs.IsSound.{IsSound};
ghost use Rattle.wp_core.specs.Sound.Actors.{StartsWith};
ghost use Rattle.wp_core.specs.Sound.Reader.{IsRight};
ghost use Rattle.wp_model.specs.Flushed.{IsEditCovered, InstalledEdit};

/// What an opening is does not contradict itself.
pub fn there_is_an_opening()
    ensures { (w : World) × IsOpening w }
{}

/// Each legal history that ends in no undo can be opened.
pub fn every_history_opens()
    ensures { (opened : List Entry) → IsLegal opened → undone_last opened ≡ None
        → (w : World) × IsOpening w × (history w ≡ opened) }
{}

/// Each opening is sound, so the parts of a sound world do not contradict each other.
pub fn openings_are_sound()
    ensures { (w : World) → IsOpening w → IsSound w }
{}

/// Each step of any actor keeps a world sound.
pub fn steps_keep_sound()
    ensures { (w : World) (by : ℕ) (step : Step) (next : World) → IsStep w by step next → IsSound w → IsSound next }
{}

/// Each world that steps of any actors reach from an opening, in any order, is sound.
pub fn reached_worlds_are_sound()
    ensures { (w : World) → Reaches w → IsSound w }
{}

/// The history stays legal, and nothing in it is changed or lost.
pub fn histories_grow()
    ensures { (w : World) → Reaches w → (later : World) → ReachesFrom w later
        → StartsWith (history later) (history w) × IsLegal (history later) }
{}

/// What a crash between steps of a reached world may leave in the log is a legal history that begins with all that is published.
pub fn crashes_leave_the_history()
    ensures { (w : World) → Reaches w → (entries : List Entry) → MaySpell w.writes entries
        → StartsWith entries (history w) × IsLegal entries }
{}

/// Whichever entries and whichever edit such a crash leaves, the edit's tables with the later entries answer as these do.
pub fn crashes_leave_an_edit_that_covers()
    ensures { (w : World) → Reaches w → (entries : List Entry) (edit : InstalledEdit)
        → MaySpell w.writes entries → MayName w.installed edit → IsEditCovered entries edit }
{}

/// Whichever edit such a crash leaves, it names a segment that the log has: the one in use, or one that was written beside it, of
/// the history up to its end.
pub fn crashes_leave_the_segment_of_an_edit()
    ensures { (w : World) → Reaches w → (edit : InstalledEdit) → MayName w.installed edit
        → (edit.segment ≡ w.writes.segment)
        ⊎ ((w.writes.next ≡ Some edit.segment) × (edit.segment.base ≡ length (history w)) × MaySpell w.writes (history w)) }
{}

/// Where a reader has loaded what it needs, however the steps of others fell between its loads, its judgement is whether the
/// version is committed at its snapshot, there and in each world that is reached later.
pub fn readers_judge_right()
    ensures { (w : World) → Reaches w → (j : ℕ) (a : Actor) (r : Observed) (visible : Bool)
        → get_elem? w.actors j ≡ some a → a.reading ≡ Some r → judgement r ≡ Some visible
        → (later : World) → ReachesFrom w later → IsRight (history later) r.version r.snapshot visible }
{}

/// Steps can be made: from an opening on the empty history they publish each batch.
pub fn writes_can_be_published()
    ensures { (batch : List Change) → is_batch batch ≡ true → (w : World) × Reaches w × (history w ≡ Write batch ∷ []) × (w.opened ≡ []) }
{}

/// A reader can come to a judgement: in a reached world one has found a version committed at its snapshot.
pub fn readers_can_judge()
    ensures { (w : World) × Reaches w × (a : Actor) × (r : Observed)
        × (get_elem? w.actors 0 ≡ some a) × (a.reading ≡ Some r) × (judgement r ≡ Some true) }
{}

/// An actor that is alone knows of the world by what it did itself.
pub fn what_one_did_is_all()
    ensures { (w : World) → Reaches w → (a : Actor) → IsAlone w a → IsOnlyOf w a.participant }
{}
