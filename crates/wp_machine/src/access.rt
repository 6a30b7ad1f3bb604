//! What states show to those who test a step.
ghost use Rattle.std.specs.Prelude.{◌≡◌};
ghost use Rattle.std.specs.Option.{option_copied};

use crate::store::{Installed, InstalledEdit, StoreState};
use crate::writes::WriteState;
use wp_model::{Entry, Segment, Seq, Version};

impl StoreState {
    pub fn tables(&self) -> &[Version]
        ensures { result.now ≡ self.now.tables }
    {
        &self.tables
    }

    pub fn memory(&self) -> &[Version]
        ensures { result.now ≡ self.now.memory }
    {
        &self.memory
    }

    pub fn floor(&self) -> Seq
        ensures { result ≡ self.now.floor }
    {
        self.floor
    }
}

impl Installed {
    pub fn last(&self) -> &InstalledEdit
        ensures { result.now ≡ self.now.last }
    {
        &self.last
    }

    pub fn failed(&self) -> Option<&InstalledEdit>
        ensures { option_copied result ≡ self.now.failed }
    {
        self.failed.as_ref()
    }

    pub fn is_halted(&self) -> bool
        ensures { result ≡ self.now.halted }
    {
        self.halted
    }
}

impl WriteState {
    pub fn entries(&self) -> &[Entry]
        ensures { result.now ≡ self.now.history }
    {
        &self.history
    }

    pub fn next_segment(&self) -> Option<Segment>
        ensures { result ≡ self.now.next }
    {
        self.next
    }

    pub fn is_closed(&self) -> bool
        ensures { result ≡ self.now.closed }
    {
        self.closed
    }

    pub fn next_entries(&self) -> &[Entry]
        ensures { result.now ≡ self.now.pending }
    {
        &self.pending
    }
}
