//! What a client has between two of its commands.
ghost use Rattle.std.specs.Prelude.{◌≡◌, None, map, MatchOption};
ghost use Rattle.wp_replies.specs.Client.{number_of};
ghost use Rattle.wp_client.specs.Holdings.{no_holdings, labelled};
ghost use Rattle.wp_client.specs.Replies.{IsPlace};

use std::alloc::Global;
use std::marker::Model;
use wp_model::Name;
use wp_open_txns::{OpenTxn, PreparedTxn};
use wp_read::Snapshot;

/// A client's transaction. It has to be spent.
pub enum HeldTxn {
    /// None is begun.
    Idle,
    Open(OpenTxn),
    Prepared(PreparedTxn),
}

/// A snapshot that is registered under a label of the client. It has to be released.
pub struct HeldSnapshot {
    pub label: Name,
    pub snapshot: Snapshot,
}

/// What a client has. It has to be let go of.
pub struct Holdings {
    pub txn: HeldTxn,
    pub(crate) snapshots: Vec<HeldSnapshot>,
}

impl Model for Holdings {
    ghost use Rattle.wp_client.specs.Holdings.{HoldingsState};

    ghost Value = { HoldingsState };

    ghost view = { λ h. record { txn = h.txn; snapshots = h.snapshots.items } };
}

impl Holdings {
    /// As each session begins.
    pub fn new(alloc: Global) -> Holdings
        ensures { result ≡ no_holdings }
    {
        Holdings {
            txn: HeldTxn::Idle,
            snapshots: Vec::new(alloc),
        }
    }

    /// Which of its snapshots has the label.
    pub(crate) fn place_of(&self, label: &Name) -> Option<usize>
        ensures { MatchOption result (number_of (map labelled self.now.snapshots) label.now ≡ None) (IsPlace self.now.snapshots label.now) }
    {
        for i in 0..self.snapshots.len() {
            if self.snapshots[i].label == *label {
                return Some(i);
            }
        }
        None
    }
}
