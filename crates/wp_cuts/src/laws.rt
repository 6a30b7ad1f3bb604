//! Which lists have a cut, which agree from its base on, and which cuts are legal, over plain lists.
ghost use Rattle.std.specs.Prelude.{◌≡◌, ◌↔◌, ℕ, Bool, ◌+◌, ◌-◌, ◌<◌, ◌≤◌, Option, Some, None, List, [], ◌∷◌, ◌++◌, true, length, map, take, drop, slice_get};
ghost use Rattle.wp_model.specs.declared.carried.Carried.{Carried};
ghost use Rattle.wp_model.specs.declared.entry.Entry.{Entry};
ghost use Rattle.wp_model.specs.declared.entry.Entry.TheVariants as entry;
ghost use Rattle.wp_model.specs.declared.version.Version.{Version};
ghost use Rattle.wp_model.specs.Covered.{GivesStore, IsCovered};
ghost use Rattle.wp_model.specs.Flushed.{later_versions};
ghost use Rattle.wp_model.specs.History.{entry_at, undecided, value_at};
ghost use Rattle.wp_model.specs.Legal.{IsLegal, undone_last, IsOrderlyNext};
ghost use Rattle.wp_model.specs.Versions.{AreInOrder};
ghost use Rattle.wp_keep.specs.Keep.{retained_of};
ghost use Rattle.wp_keep.specs.MayGo.{MayGo};
ghost use Rattle.wp_cuts.specs.Agree.{HaveSameValues, AgreeFrom, TellAlike};
ghost use Rattle.wp_cuts.specs.Copied.{AreCopied};
ghost use Rattle.wp_cuts.specs.Cut.{Cut, carried_of, cut_at, IsCut, carried_at, is_fixed, base_value, changes_at, full_of};
ghost use Rattle.wp_cuts.specs.Kept.{carried_versions, HasKeysAt, AreKept, StayFrom};
ghost use Rattle.wp_cuts.specs.LegalCut.{AreNumbered, cut_front, prepares_of, value_behind, IsLegalCut, AreBelow, AreOrderlyBehind};
ghost use Rattle.wp_cuts.specs.Reopened.{AreFromBase, IsReopened};
ghost use Rattle.wp_cuts.specs.UpTo.{HaveSameUpTo};

/// Lists with one cut and the same values at its base agree from there on, whatever stands below it.
pub fn cuts_agree()
    ensures { (one other : List Entry) (c : Cut) → IsLegal one → IsLegal other → IsCut one c → IsCut other c
        → HaveSameValues one other c.base → AgreeFrom one other c.base }
{}

/// So they tell alike of all that a reply is judged by, at each number from the base on: no row of replies depends on what stands
/// below it, and so not on which versions a full list was made of.
pub fn lists_tell_alike()
    ensures any { (one other : List Entry) (c : Cut) → IsLegal one → IsLegal other → IsCut one c → IsCut other c
        → HaveSameValues one other c.base → TellAlike one other c.base }
    ensures full { (c : Cut) (one other : List Version) → AreNumbered c → AreInOrder one → AreInOrder other
        → IsLegal (full_of c one) → IsLegal (full_of c other) → ((key : List ℕ) → base_value c one key ≡ base_value c other key)
        → TellAlike (full_of c one) (full_of c other) c.base }
{}

/// A list that grows has the cut with what follows, and what it begins with has it with less. It may be cut at each number that no undo
/// ends, at its end too.
pub fn cuts_grow()
    ensures more { (history more : List Entry) (c : Cut) → IsCut history c
        → IsCut (history ++ more) (record c { entries = c.entries ++ more }) }
    ensures again { (history : List Entry) (m : ℕ) → m ≤ length history → undone_last (take m history) ≡ None
        → IsCut history (cut_at history m) }
    ensures front { (history : List Entry) (c : Cut) (n : ℕ) → IsCut history c → c.base ≤ n → n ≤ length history
        → IsCut (take n history) (cut_front c (n - c.base)) }
    ensures end { (history : List Entry) → undone_last history ≡ None
        → IsCut history (record { base = length history; carried = carried_of history; entries = [] }) }
{}

/// The full list of a cut and a store's versions has that cut, and at its base the values of the versions. It has what is carried at
/// its numbers, Writes at the others up to the base, and the entries behind; it grows and is cut short as they are.
pub fn full_list_has_the_cut()
    ensures cut { (c : Cut) (versions : List Version) → AreNumbered c → IsCut (full_of c versions) c }
    ensures values { (c : Cut) (versions : List Version) (key : List ℕ) → AreNumbered c → AreInOrder versions
        → value_at (full_of c versions) key c.base ≡ base_value c versions key }
    ensures long { (c : Cut) (versions : List Version) → length (full_of c versions) ≡ c.base + length c.entries }
    ensures carried { (c : Cut) (versions : List Version) (p : ℕ) (x : Carried) → AreNumbered c → carried_at c p ≡ Some x
        → entry_at (full_of c versions) p ≡ Some (entry.Prepare x.name x.batch) }
    ensures undecided { (c : Cut) (versions : List Version) → AreNumbered c
        → undecided (take c.base (full_of c versions)) ≡ map (λ x. x.number) c.carried }
    ensures behind { (c : Cut) (versions : List Version) (p : ℕ) → c.base < p
        → entry_at (full_of c versions) p ≡ slice_get c.entries (p - 1 - c.base) }
    ensures fixed { (c : Cut) (versions : List Version) (p : ℕ) → is_fixed c p ≡ true
        → entry_at (full_of c versions) p ≡ Some (entry.Write (changes_at versions p)) }
    ensures undone { (c : Cut) (versions : List Version) → undone_last (full_of c versions) ≡ undone_last c.entries }
    ensures front { (c : Cut) (versions : List Version) (n : ℕ) → c.base ≤ n → n ≤ c.base + length c.entries
        → take n (full_of c versions) ≡ full_of (cut_front c (n - c.base)) versions }
    ensures rest { (c : Cut) (versions : List Version) (n : ℕ) → c.base ≤ n
        → drop n (full_of c versions) ≡ drop (n - c.base) c.entries }
    ensures grows { (c : Cut) (versions : List Version) (more : List Entry)
        → full_of (record c { entries = c.entries ++ more }) versions ≡ full_of c versions ++ more }
{}

/// What the first entries of a list leave under a key is what those behind the base do, from the values at the base on.
pub fn values_go_on_from_the_base()
    ensures { (history : List Entry) (c : Cut) (values : List ℕ → Option (List ℕ)) (key : List ℕ) (n : ℕ) → IsLegal history → IsCut history c
        → ((k : List ℕ) → value_at history k c.base ≡ values k) → c.base ≤ n → n ≤ length history
        → value_at history key n ≡ value_behind (cut_front c (n - c.base)) values key }
{}

/// What versions have at a base hangs on those that are numbered up to it: with later ones they have the same values there, stand for
/// the same list, and show readers at the base the same.
pub fn later_versions_are_apart()
    ensures same { (history : List Entry) (versions : List Version) (base flushed : ℕ) → base ≤ flushed
        → HaveSameUpTo base (versions ++ later_versions history flushed) versions }
    ensures full { (history : List Entry) (c : Cut) (versions : List Version) (flushed : ℕ) → c.base ≤ flushed
        → full_of c (versions ++ later_versions history flushed) ≡ full_of c versions }
    ensures value { (history : List Entry) (c : Cut) (versions : List Version) (key : List ℕ) (flushed : ℕ) → c.base ≤ flushed
        → base_value c (versions ++ later_versions history flushed) key ≡ base_value c versions key }
    ensures values { (c : Cut) (one other : List Version) (key : List ℕ) → AreInOrder one → AreInOrder other → HaveSameUpTo c.base one other
        → base_value c one key ≡ base_value c other key }
    ensures gives { (history : List Entry) (one other : List Version) (base : ℕ) (key : List ℕ) → IsLegal history → base ≤ length history
        → HaveSameUpTo base one other → GivesStore one history key base → GivesStore other history key base }
{}

/// What is orderly behind a cut, by the prepares alone, is that behind each list with this cut: one entry, or several one after another.
pub fn what_may_follow_a_cut()
    ensures one { (history : List Entry) (c : Cut) (entry : Entry) → IsLegal history → IsCut history c
        → (IsOrderlyNext (prepares_of c) entry ↔ IsOrderlyNext history entry) }
    ensures several { (history : List Entry) (c : Cut) (entries : List Entry) → IsLegal history → IsCut history c
        → (AreOrderlyBehind (prepares_of c) entries ↔ AreOrderlyBehind history entries) }
{}

/// A cut is legal, with a store's versions below what it carries, exactly where its full list is legal.
pub fn legal_cuts()
    ensures full { (c : Cut) (versions : List Version) → AreInOrder versions → AreBelow c versions
        → IsLegalCut c (base_value c versions) → IsLegal (full_of c versions) }
    ensures legal { (c : Cut) (versions : List Version) → AreInOrder versions → AreNumbered c
        → IsLegal (full_of c versions) → IsLegalCut c (base_value c versions) }
    ensures below { (c : Cut) (versions : List Version) → AreNumbered c → IsLegal (full_of c versions)
        → AreBelow c versions }
    ensures any { (history : List Entry) (c : Cut) → IsLegal history → IsCut history c
        → IsLegalCut c (λ key. value_at history key c.base) }
{}

/// The versions that a copy of a legal history has at its end, with those of its undecided prepares, cover it there, and open its
/// cut at its end.
pub fn copied_versions_reopen()
    ensures covered { (history : List Entry) (versions : List Version) → IsLegal history → undone_last history ≡ None
        → AreCopied history versions → IsCovered versions history (length history ∷ []) (length history) }
    ensures opens { (history : List Entry) (versions : List Version) → IsLegal history → undone_last history ≡ None
        → AreCopied history versions
        → IsReopened history (cut_at history (length history)) versions (length history ∷ []) (length history) }
{}

/// What covers a legal history at the base of a cut, and later, opens that cut: it is legal with the values that the
/// versions have there, and they cover its full list, which agrees with the history from the base on.
pub fn covered_cut_reopens()
    ensures { (history : List Entry) (c : Cut) (versions : List Version) (numbers : List ℕ) (from : ℕ) → IsLegal history
        → IsCut history c → AreInOrder versions → AreFromBase history c.base numbers from
        → IsCovered versions history numbers from → IsReopened history c versions numbers from }
{}

/// What is kept of a store's versions from a base on is no more than the keys that have a value there, what is carried, and what the
/// entries from there to the floor have.
pub fn kept_versions_are_few()
    ensures { (history : List Entry) (c : Cut) (kept : List Version) (keys : List (List ℕ)) (floor : ℕ) → IsLegal history → IsCut history c
        → c.base ≤ floor → AreKept history c.base floor kept → HasKeysAt history c.base keys
        → length kept ≤ length keys + (length (carried_versions c.carried) + length (later_versions (take floor history) c.base)) }
{}

/// What stays of versions for readers at the floor and at numbers from a base on, the base among them, is kept from there on.
/// So it is as few, in a history with a cut at the base.
pub fn what_stays_is_few()
    ensures kept { (committed : ℕ → ℕ → Bool) (history : List Entry) (newer versions : List Version) (numbers : List ℕ) (base floor : ℕ)
        → MayGo committed history newer versions numbers floor → StayFrom history versions numbers base floor
        → AreKept history base floor (retained_of committed versions numbers floor) }
    ensures few { (committed : ℕ → ℕ → Bool) (history : List Entry) (c : Cut) (newer versions : List Version) (numbers : List ℕ)
        (keys : List (List ℕ)) (floor : ℕ) → IsLegal history → IsCut history c
        → MayGo committed history newer versions numbers floor → StayFrom history versions numbers c.base floor → HasKeysAt history c.base keys
        → length (retained_of committed versions numbers floor) ≤ length keys + (length (carried_versions c.carried) + length (later_versions (take floor history) c.base)) }
{}
