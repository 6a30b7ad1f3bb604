//! What is proved of a store that one seat alone uses. What each call then answers is told by the lemmas of `proofs/Alone`, in the
//! clauses of the calls.
ghost use Rattle.std.specs.Prelude.{◌≡◌, List, ℕ};
ghost use Rattle.wp_core.specs.World.{World, new_participant};
ghost use Rattle.wp_parts.specs.Parts.{content};
ghost use Rattle.wp_model.specs.Flushed.{InstalledEdit};
ghost use Rattle.wp_rule.specs.Shows.{WasLast};
ghost use Rattle.wp_replies.specs.Current.{opened_store};
ghost use Rattle.wp_replies.specs.Due.{Store};
ghost use Rattle.wp_replies.specs.Known.{StoredState};
ghost use Rattle.wp_shared.specs.Limits.{WasOpenedAt};
ghost use Rattle.wp_shared.specs.Seats.{SharedState, SeatState, Stands};
ghost use Rattle.wp_client.specs.Alone.{limits_of, IsOnly, IsStoreOf, IsAsStored};

/// As it was opened, the store is what a seat tells of it at which nothing was done.
pub fn an_opened_store_is_told<D>()
    ensures { (z : SharedState D) (found : StoredState) (client : List ℕ) → found.history ≡ z.opened → WasLast content z.first found.edit
        → WasOpenedAt z found.edit.segment.base → IsStoreOf z found.edit (new_participant client z.opened) (opened_store (limits_of z) found) }
{}

/// In each world in which the only seat stands, the store is as the seat's doings tell.
pub fn the_only_seat_tells_the_store<D>()
    ensures { (z : SharedState D) (first : InstalledEdit) (s : SeatState) (store : Store) → IsOnly s → IsStoreOf z first s.knows.participant store → WasLast content z.first first
        → (w : World) → Stands z s w → IsAsStored store w }
{}
