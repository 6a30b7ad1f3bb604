ghost use Rattle.std.specs.Prelude.{◌≡◌, ◌<◌, Some, length, is_err};
ghost use Rattle.wp_memory.specs.Counter.{no_calls, is_listed, counted};
ghost use Rattle.wp_outside.specs.Faults.{HasCause};
ghost use Rattle.wp_outside.specs.Source.{Reads};

use crate::copy::copy_from;
use crate::counter::Counter;
use std::marker::Model;
use wp_outside::{Failed, Got, Source};

/// Bytes in memory, read from the first on. It fails at exactly the listed calls.
#[derive(Drop)]
pub struct MemSource {
    bytes: Vec<u8>,
    at: usize,
    counter: Counter,
}

impl Model for MemSource {
    ghost use Rattle.std.specs.Prelude.{◌≤◌, length, drop};
    ghost use Rattle.wp_memory.specs.MemSource.{SourceState};

    ghost Value = { SourceState };

    ghost view = { λ s. record { left = drop s.at s.bytes.items; calls = s.counter } };

    ghost invariant = { λ s. s.at ≤ length s.bytes.items };
}

impl MemSource {
    /// A source of these bytes. `fails` lists the calls that are to fail, counted from 1.
    pub fn new(bytes: Vec<u8>, fails: Vec<u64>) -> Self
        ensures left { result.left ≡ bytes.items }
        ensures calls { result.calls ≡ no_calls fails.items }
    {
        MemSource {
            bytes,
            at: 0,
            counter: Counter::new(fails),
        }
    }
}

impl Source for MemSource {
    ghost left = { λ s. Some s.left };

    ghost faults = { λ s. s.calls.faults };

    fn read(&mut self, buf: &mut [u8]) -> Result<Got, Failed>
        requires { 0 < length buf.old }
        ensures gives { Reads (Some self.old.left) (Some self.new.left) buf.new result }
        ensures cause { HasCause self.old.calls.faults self.new.calls.faults result }
        ensures exact { is_err result ≡ is_listed self.old.calls }
        ensures calls { self.new.calls ≡ counted result self.old.calls }
    {
        self.counter.admit(true)?;
        let count = copy_from(&self.bytes, self.at, buf);
        if count == 0 {
            return Ok(Got::End);
        }
        self.at += count;
        Ok(Got::Some(count))
    }
}
