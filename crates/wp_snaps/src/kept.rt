//! How a prepare number comes under each live number of a range: first the memory, then the number.
ghost use Rattle.std.specs.Prelude.{◌≡◌, ◌+◌, ◌<◌, OnOk, MatchOption};
ghost use Rattle.wp_model.specs.Snapshots.{ChangesWhere, overlaps, after_keep};
ghost use Rattle.std.specs.FinSet as set;
ghost use Rattle.wp_snaps.specs.KeptNumbers.{kept_numbers};
ghost use Rattle.wp_snaps.specs.Room.{snapshots_of, HasRoom, NoneLive, IsNextLive};

use crate::snapshot::LiveSnapshot;
use std::alloc::AllocError;
use std::collections::BTreeMap;
use wp_model::Seq;

/// The least live number from `from` on, where it is below `end`.
fn next_live(live: &BTreeMap<Seq, LiveSnapshot>, from: Seq, end: Seq) -> Option<Seq>
    ensures { MatchOption result (NoneLive live.now from end) (IsNextLive live.now from end) }
{
    let (s, _) = live.range(from..).next()?;
    (*s < end).then_some(*s)
}

/// Takes the memory for one number more under each live number from `start` on and below `end`.
pub(crate) fn reserve_each(
    live: &mut BTreeMap<Seq, LiveSnapshot>,
    start: Seq,
    end: Seq,
) -> Result<(), AllocError>
    ensures ok { OnOk result (HasRoom live.new start end) }
    ensures same_snapshots { snapshots_of live.new ≡ snapshots_of live.old }
{
    let mut from = start;
    while let Some(s) = next_live(live, from, end) {
        from = s + 1;
        live.get_mut(&s).unwrap().reserve()?;
    }
    Ok(())
}

/// Puts `p` under each live number from `p` on and below `c`, in memory that was taken before. Returns how many of
/// them had nothing under them.
pub(crate) fn keep_each(live: &mut BTreeMap<Seq, LiveSnapshot>, p: Seq, c: Seq) -> usize
    requires { HasRoom live.old p c }
    ensures kept { ChangesWhere (overlaps p c) (after_keep p) (snapshots_of live.old) (snapshots_of live.new) }
    ensures more { set.len (kept_numbers (snapshots_of live.new)) ≡ set.len (kept_numbers (snapshots_of live.old)) + result }
{
    let mut more = 0;
    let mut from = p;
    while let Some(s) = next_live(live, from, c) {
        from = s + 1;
        more += usize::from(live.get_mut(&s).unwrap().keep(p));
    }
    more
}
