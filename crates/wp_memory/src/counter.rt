ghost use Rattle.std.specs.Prelude.{◌≡◌, ◌||◌, not, is_err, IsTrue, OnOk};
ghost use Rattle.wp_memory.specs.Counter.{no_calls, is_listed, counted};
ghost use Rattle.wp_outside.specs.Faults.{HasCause};

use std::marker::Model;
use wp_outside::Failed;

/// Counts a memory form's calls and refuses those that its list names.
#[derive(Drop)]
pub(crate) struct Counter {
    fails: Vec<u64>,
    made: u64,
    faults: u64,
}

impl Model for Counter {
    ghost use Rattle.wp_memory.specs.Counter.{Calls};

    ghost Value = { Calls };

    ghost view = { λ c. record { fails = c.fails.items; made = c.made; faults = c.faults } };
}

impl Counter {
    pub(crate) fn new(fails: Vec<u64>) -> Self
        ensures { result ≡ no_calls fails.items }
    {
        Counter {
            fails,
            made: 0,
            faults: 0,
        }
    }

    /// Counts one more call, which is refused where it doesn't fit or is listed.
    pub(crate) fn admit(&mut self, fits: bool) -> Result<(), Failed>
        ensures refused { is_err result ≡ (is_listed self.old || not fits) }
        ensures fits { OnOk result (IsTrue fits) }
        ensures counted { self.new ≡ counted result self.old }
        ensures cause { HasCause self.old.faults self.new.faults result }
    {
        self.made = self.made.saturating_add(1);
        if self.fails.contains(&self.made) || !fits {
            self.faults = self.faults.saturating_add(1);
            return Err(Failed);
        }
        Ok(())
    }

    /// How many calls there were, up to the greatest `u64`.
    pub(crate) fn made(&self) -> u64
        ensures { result ≡ self.now.made }
    {
        self.made
    }
}
