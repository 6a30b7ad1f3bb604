//! The numbers of undecided prepares, of which any may be taken out.
ghost use Rattle.std.specs.Prelude.{◌≡◌, ◌+◌, ◌<◌, ◌≤◌, [], ◌∷◌, ◌++◌, length, OnOk};
ghost use Rattle.std.specs.List.{remove};
ghost use Rattle.wp_history_laws.specs.Growth.{AreAscending, without_decided};

use std::alloc::{AllocError, Global};
use std::marker::Model;
use wp_model::Seq;

/// Ascending numbers, behind places that are free again. So the first is taken out as quickly as the last.
pub struct Numbers {
    kept: Vec<Seq>,
    /// How many places in front are free.
    free: usize,
}

impl Model for Numbers {
    ghost use Rattle.std.specs.Prelude.{◌-◌, ◌≤◌, drop, vec_len};
    ghost use Rattle.std.specs.Vec.{vec_capacity};
    ghost use Rattle.wp_history.specs.Numbers.{RoomyNumbers};

    ghost Value = { RoomyNumbers };

    ghost view = { λ n. record { items = drop n.free n.kept.items; room = vec_capacity n.kept - vec_len n.kept } };

    ghost invariant = { λ n. n.free ≤ vec_len n.kept };
}

impl Numbers {
    /// The numbers of a list.
    pub(crate) fn of(kept: Vec<Seq>) -> Numbers
        ensures { result.items ≡ kept.items }
    {
        Numbers { kept, free: 0 }
    }

    /// All of them.
    pub(crate) fn list(&self) -> &[Seq]
        ensures { result.now ≡ self.now.items }
    {
        &self.kept[self.free..]
    }

    /// Moves the numbers to the front, so that no place is free there.
    fn close_up(&mut self)
        ensures items { self.new.items ≡ self.old.items }
        ensures room { self.old.room ≤ self.new.room }
    {
        let n = self.list().len();
        self.kept.rotate_left(self.free);
        self.kept.truncate(n);
        self.free = 0;
    }

    /// Takes the memory for `n` pushes.
    pub(crate) fn reserve(&mut self, n: usize) -> Result<(), AllocError>
        ensures ok { OnOk result (n ≤ self.new.room) }
        ensures items { self.new.items ≡ self.old.items }
        ensures room { self.old.room ≤ self.new.room }
    {
        if self.free > self.list().len() {
            self.close_up();
        }
        self.kept.reserve(n)
    }

    /// Adds a number, in memory that was taken before.
    pub(crate) fn push(&mut self, number: Seq)
        requires { 1 ≤ self.old.room }
        ensures items { self.new.items ≡ self.old.items ++ number ∷ [] }
        ensures room { self.old.room ≤ self.new.room + 1 }
    {
        self.kept.push(number).unwrap();
    }

    /// Takes out what stands at a place, and moves those before it or those behind it, whichever are fewer.
    fn remove(&mut self, place: usize)
        requires { place < length self.old.items }
        ensures items { self.new.items ≡ remove self.old.items place }
        ensures room { self.old.room ≤ self.new.room }
    {
        let at = self.free + place;
        if place < self.list().len() / 2 {
            self.kept[self.free..at + 1].rotate_right(1);
            self.free += 1;
        } else {
            self.kept.remove(at);
        }
    }

    /// Takes the number out, which is found by binary search.
    pub(crate) fn take_out(&mut self, p: Seq)
        requires { AreAscending self.old.items }
        ensures items { self.new.items ≡ without_decided self.old.items p }
        ensures room { self.old.room ≤ self.new.room }
    {
        if let Ok(place) = self.list().binary_search(&p) {
            self.remove(place);
        }
    }
}

// Written out, so that no crate above proves anew how all that it holds is let go.
impl Drop for Numbers {
    fn drop(self) {
        let Self {
            kept: _kept,
            free: _free,
        } = self;
    }
}
