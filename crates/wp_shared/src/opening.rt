//! A store over what lies behind its turns.
ghost use Rattle.std.specs.Prelude.{◌≡◌, ◌≤◌, ◌^◌, [], ℕ, true, length, IfOk, IfErr};
ghost use Rattle.wp_fields.specs.declared.format.Format.TheVariants.{Two};
ghost use Rattle.wp_entry.specs.Record.{last_number};
ghost use Rattle.wp_core.specs.World.{new_actor};
ghost use Rattle.wp_rule.specs.Shows.{Founds};
ghost use Rattle.wp_rule.specs.Words.{SawAll};
ghost use Rattle.wp_parts.specs.Parts.{content, tells};
ghost use Rattle.wp_shared.specs.Opening.{IsOneStore};
ghost use Rattle.wp_shared.specs.Seats.{place_at};

use crate::seat::Seat;
use crate::shared::Shared;
use crate::sleepers::Sleepers;
use std::alloc::Global;
use std::snapshot::Snapshot;
use wp_history::History;
use wp_judge::count_words;
use wp_model::{Name, Seq};
use wp_outside::Disk;
use wp_parts::TurnValue;
use wp_rule::Words;

impl<D: Disk + Drop> Shared<D> {
    /// Shares what lies behind the turns of an opening world with this history, in their order, with a commit cache of as many words
    /// as the bits number. No entry gets a number above the limit. The first seat is this client's, and has seen the history. Where
    /// memory is wanting the values come back.
    pub fn new(
        alloc: Global,
        client: Name,
        history: Snapshot<History>,
        published: Seq,
        delayed_flag: u64,
        slots: Vec<TurnValue<D>>,
        bits: u32,
        limit: Seq,
    ) -> Result<(Shared<D>, Seat<D>), Vec<TurnValue<D>>>
        requires published { published ≡ length history.value.entries }
        requires founds { (cells : ℕ) → 1 ≤ cells → Founds content (tells slots.items) client history.value.entries cells delayed_flag slots.items }
        requires store { IsOneStore history.value.entries slots.items }
        requires bits { bits ≤ 16 }
        requires limit { (1 ≤ limit) × (limit ≤ last_number Two) }
        ensures store { IfOk result (λ r. (r.0.opened ≡ history.value.entries) × (r.0.cells ≡ 2 ^ bits) × (r.0.limit ≡ limit)) }
        ensures first { IfOk result (λ r. r.0.first ≡ slots.items) }
        ensures seat { IfOk result (λ r. r.1 ≡ record { table = r.0.table; by = 0; knows = new_actor true client history.value.entries; turns = [] }) }
        ensures stands { IfOk result (λ r. SawAll (place_at r.0 0) r.1.knows (length history.value.entries)) }
        ensures refused { IfErr result (λ back. back.items ≡ slots.items) }
    {
        let cells = count_words(bits) as usize;
        match Words::new(
            alloc,
            &client,
            history,
            published,
            cells,
            delayed_flag,
            slots,
        ) {
            Ok((words, seat)) => Ok((
                Shared {
                    words,
                    bits,
                    limit,
                    sleepers: Sleepers::new(),
                },
                Seat { seat, client },
            )),
            Err(slots) => Err(slots),
        }
    }
}
