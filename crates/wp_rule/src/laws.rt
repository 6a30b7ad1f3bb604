//! What a seat knows of the world behind the table, by its view.
ghost use Rattle.std.specs.FinMap as finite;
ghost use Rattle.std.specs.Prelude.{◌≡◌, ℕ, suc, true, List, [], ◌∷◌, length, unwrap_or, Option, Some, None, MatchOption};
ghost use Rattle.wp_model.specs.declared.entry.Entry.{Entry};
ghost use Rattle.wp_model.specs.declared.holder.Holder.{Holder};
ghost use Rattle.wp_model.specs.Flushed.{InstalledEdit};
ghost use Rattle.wp_model.specs.PreparedSets.{IsSmallest, NonePrepared};
ghost use Rattle.wp_core.specs.Lists.{IsIn};
ghost use Rattle.wp_core.specs.Turns.{Holds};
ghost use Rattle.wp_core.specs.States.{Content, writes, prepared, snapshots, locks, turn_of};
ghost use Rattle.wp_core.specs.Views.{Fact, words_stay, versions_nowhere, number_not_in_heap, pair_not_delayed, unprepared, delayed_flag_stays, old_flag_stays};
ghost use Rattle.wp_core.specs.World.{Actor, World, content_of};
ghost use Rattle.wp_core.specs.Steps.{Step, register, make_pending, claim_name, find_holder, note};
ghost use Rattle.wp_core.specs.Sound.Actors.{StartsWith};
ghost use Rattle.wp_core.specs.Sound.Views.{IsSo};
ghost use Rattle.wp_core.specs.IsSound.{IsSound};
ghost use Rattle.wp_rule.specs.Words.{Place, IsAt};
ghost use Rattle.wp_rule.specs.Moves.{IsQuiet, MayMake, MayStep, Outlasts, world_after_step, actor_after_step, actor_after, taking_name};
ghost use Rattle.wp_rule.specs.Accounts.{IsHolderIn, account_of};
ghost use Rattle.wp_rule.specs.Shows.{WasLast};
ghost use Rattle.wp_rule.specs.Knows.{Holding, Noted, Knows};

/// The world behind a table is sound.
pub fn worlds_are_sound()
    ensures { (p : Place) (a : Actor) (w : World) → IsAt p a w → IsSound w }
{}

/// As words were made there was one last edit of the tables, and so each world of theirs began with the same.
pub fn one_edit_was_first<S>()
    ensures { (content : S → Option Content) (first : List S) (one other : InstalledEdit) → WasLast content first one → WasLast content first other → one ≡ other }
{}

/// A state that the view has is the world's, and its turn is the seat's.
pub fn held_tables_are_the_worlds()
    ensures { (p : Place) (a : Actor) (w : World) (c : Content) → IsAt p a w → IsIn c a.held → Holds w.holders (turn_of c) p.by × (content_of w (turn_of c) ≡ c) }
{}

/// The history begins with what the seat has seen.
pub fn what_was_seen_begins_the_history()
    ensures { (p : Place) (a : Actor) (w : World) → IsAt p a w → StartsWith w.writes.history a.participant.seen }
{}

/// What the seat noted is so.
pub fn noted_facts_are_so()
    ensures { (p : Place) (a : Actor) (w : World) (fact : Fact) → IsAt p a w → Noted a fact
        → IsSo w.delayed_flag w.old_flag w.max_evicted w.cache w.writes w.prepared w.snapshots w.store w.locks w.installed a.participant fact }
{}

/// What a seat knows by its view is what the step needs.
pub fn what_is_known_is_needed()
    ensures { (p : Place) (a : Actor) (step : Step) → Knows p a step → MayStep p a step }
{}

/// A step that changes no word, and whose needs the seat knows, may be made beside a load.
pub fn what_is_known_may_be_made()
    ensures { (p : Place) (a : Actor) (step : Step) → IsQuiet step → Knows p a step → MayMake p a (λ w. step ∷ []) }
{}

/// A step that may be made beside a load may be followed there by steps that its actor may then make. Which they are may depend
/// on the world before the step and on the one after it.
pub fn steps_may_be_followed()
    ensures { (p : Place) (a : Actor) (first : World → Step) (others : World → World → List Step) → MayMake p a (λ w. first w ∷ [])
        → ((w : World) → IsAt p a w → MayMake p (actor_after_step w a (first w)) (others w))
        → MayMake p a (λ w. first w ∷ others w (world_after_step w p.by a (first w))) }
{}

/// What an actor noted it has noted still, once it made steps that do not end it.
pub fn notes_outlast_steps()
    ensures { (fact : Fact) (steps : List Step) (w : World) (by : ℕ) (a : Actor) → Noted a fact → Outlasts fact steps w by a → Noted (actor_after steps w by a) fact }
{}

/// While the seat holds the turn that guards them, it may note the bound with the words of the cache, or a flag, as they are.
pub fn words_may_be_noted()
    ensures words { (p : Place) (a : Actor) → a.live ≡ true → Holding a writes (λ d. Unit {0}) → MayMake p a (λ w. note (words_stay w.max_evicted w.cache) ∷ []) }
    ensures delayed_flag { (p : Place) (a : Actor) → a.live ≡ true → Holding a prepared (λ t. Unit {0}) → MayMake p a (λ w. note (delayed_flag_stays w.delayed_flag) ∷ []) }
    ensures old_flag { (p : Place) (a : Actor) → a.live ≡ true → Holding a snapshots (λ m. Unit {0}) → MayMake p a (λ w. note (old_flag_stays w.old_flag) ∷ []) }
{}

/// Under the snapshots turn and the prepared turn the seat may register the number that it loads, with the least prepared number
/// or the next number as its smallest.
pub fn snapshots_may_be_registered()
    ensures { (p : Place) (a : Actor) (smallest : Option ℕ) → Holding a snapshots (λ m. Unit {0}) → Holding a prepared (λ t. MatchOption smallest (NonePrepared t) (IsSmallest t))
        → MayMake p a (λ w. register (unwrap_or smallest (suc (length w.writes.history))) ∷ []) }
{}

/// Under the locks turn alone a name that is not live may be claimed, and noted as that of no prepare.
pub fn names_may_be_claimed()
    ensures { (p : Place) (a : Actor) (name : List ℕ) → Holding a locks (λ t. finite.get t.names name ≡ None) → MayMake p a (λ w. claim_name name ∷ note (unprepared name) ∷ []) }
{}

/// Under the locks turn alone a live name that nobody has may be taken, with the prepare that has it, which is noted.
pub fn names_may_be_taken()
    ensures { (p : Place) (a : Actor) (name : List ℕ) → Holding a locks (λ t. finite.get t.names name ≡ Some None) → MayMake p a (taking_name name) }
{}

/// The holder of a key or else of a live name, by the state of the locks turn, may be remembered: it is accounted for.
pub fn holders_are_accounted_for()
    ensures { (p : Place) (a : Actor) (key : Option (List ℕ)) (holder : Holder) → Holding a locks (λ t. IsHolderIn t key holder)
        → MayMake p a (λ w. find_holder key holder (account_of a.participant w.locks (length w.writes.history) key holder) ∷ []) }
{}

/// Entries that may be made pending may also be dropped again, as long as no more is done: nothing of them is anywhere.
pub fn entries_begin_nowhere()
    ensures { (p : Place) (a : Actor) (entries : List Entry) → Knows p a (make_pending entries)
        → MayMake p a (λ w. make_pending entries ∷ note versions_nowhere ∷ note number_not_in_heap ∷ note pair_not_delayed ∷ []) }
{}
