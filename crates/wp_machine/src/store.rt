ghost use Rattle.std.specs.Prelude.{◌≡◌, ◌++◌, None, false, IfOk, OnOk};
ghost use Rattle.wp_core.specs.Effects.{with_failed};
ghost use Rattle.wp_core.proofs.Openings.{all_in_memory, no_table};
ghost use Rattle.wp_machine.specs.Machine.{without_number};

use crate::versions::{all_versions, take_number};
use std::alloc::{AllocError, Global};
use std::marker::Model;
use wp_model::{Entry, Segment, Seq, Version};

/// The versions in memory and in tables, and the floor: at each number from it on a reader finds all that it needs.
pub struct StoreState {
    pub memory: Vec<Version>,
    pub tables: Vec<Version>,
    pub floor: Seq,
}

impl Model for StoreState {
    ghost use Rattle.wp_core.specs.States.{StoreState};

    ghost Value = { StoreState };

    ghost view = { λ t. record { memory = t.memory.items; tables = t.tables.items; floor = t.floor } };
}

/// What an installed edit says: the log's segment, the flushed number, the versions of its tables, and how many tables these are.
pub struct InstalledEdit {
    pub segment: Segment,
    pub flushed: Seq,
    pub versions: Vec<Version>,
    pub tables: u64,
}

impl Model for InstalledEdit {
    ghost use Rattle.wp_model.specs.Flushed.{InstalledEdit};

    ghost Value = { InstalledEdit };

    ghost view = { λ e. record { segment = e.segment; flushed = e.flushed; versions = e.versions.items; tables = e.tables } };
}

/// The last edit, the one whose install failed, if one did, and whether the devices of the tables failed.
pub struct Installed {
    pub last: InstalledEdit,
    pub failed: Option<InstalledEdit>,
    pub halted: bool,
}

impl Model for Installed {
    ghost use Rattle.wp_core.specs.States.{Installed};

    ghost Value = { Installed };

    ghost view = { λ t. record { last = t.last; failed = t.failed; halted = t.halted } };
}

impl Installed {
    pub fn halt(&mut self, edit: Option<InstalledEdit>)
        ensures { self.new ≡ with_failed self.old edit }
    {
        if edit.is_some() {
            self.failed = edit;
        }
        self.halted = true;
    }
}

impl StoreState {
    /// Memory has no versions with that number any more.
    pub fn take_number(&mut self, n: Seq)
        ensures { self.new ≡ record self.old { memory = without_number n self.old.memory } }
    {
        take_number(&mut self.memory, n);
    }

    /// Memory has just these versions under that number.
    pub fn add_next(&mut self, versions: Vec<Version>, n: Seq) -> Result<(), AllocError>
        ensures { OnOk result (self.new ≡ record self.old { memory = versions.items ++ without_number n self.old.memory }) }
    {
        let mut memory = versions;
        take_number(&mut self.memory, n);
        memory.append(&mut self.memory)?;
        self.memory = memory;
        Ok(())
    }
}

impl StoreState {
    /// All versions of the entries, in memory.
    pub fn of(entries: &[Entry], alloc: Global) -> Result<StoreState, AllocError>
        ensures { IfOk result (λ t. t ≡ all_in_memory entries.now) }
    {
        Ok(StoreState {
            memory: all_versions(entries, alloc)?,
            tables: Vec::new(alloc),
            floor: 0,
        })
    }
}

impl InstalledEdit {
    pub fn new(alloc: Global) -> InstalledEdit
        ensures { result ≡ no_table }
    {
        InstalledEdit {
            segment: Segment { place: 0, base: 0 },
            flushed: 0,
            versions: Vec::new(alloc),
            tables: 0,
        }
    }
}

impl Installed {
    pub fn new(alloc: Global) -> Installed
        ensures { result ≡ record { last = no_table; failed = None; halted = false } }
    {
        Installed {
            last: InstalledEdit::new(alloc),
            failed: None,
            halted: false,
        }
    }
}

// Written out, so that no crate above proves anew how all that it holds is let go.
impl Drop for StoreState {
    fn drop(self) {
        let Self {
            memory: _memory,
            tables: _tables,
            floor: _floor,
        } = self;
    }
}

impl Drop for InstalledEdit {
    fn drop(self) {
        let Self {
            segment: _segment,
            flushed: _flushed,
            versions: _versions,
            tables: _tables,
        } = self;
    }
}

impl Drop for Installed {
    fn drop(self) {
        let Self {
            last: _last,
            failed: _failed,
            halted: _halted,
        } = self;
    }
}
