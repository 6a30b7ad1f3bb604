//! What lies in the slot of a turn.
use crate::edits::VersionSet;
use crate::log::Log;
use crate::stock::Stock;
use wp_locks::Locks;
use wp_outside::Disk;
use wp_prepared::Prepared;
use wp_rule::HoldsPart;
use wp_snaps::Snaps;

/// What a turn guards, or what lies in its slot while that is out. The value stays where it is in memory as it goes out and home.
#[derive(Drop)]
pub enum TurnValue<D: Disk> {
    Away,
    Write(Box<Log<D>>),
    Prepared(Box<Prepared>),
    Snapshots(Box<Snaps>),
    Store(Box<Stock>),
    Locks(Box<Locks>),
    Tables(Box<VersionSet<D>>),
}

impl<D: Disk> HoldsPart for TurnValue<D> {
    ghost use Rattle.wp_parts.specs.Parts.{content, tells};

    ghost content = { content };

    ghost tells = { tells };
}
