ghost use Rattle.std.specs.Prelude.{◌≡◌, ◌≤◌, ◌<◌, ◌^◌, replicate, length, OnOk, IfOk};
ghost use Rattle.wp_judge.specs.Words.{commit_pair};
ghost use Rattle.wp_core.specs.Cache.{cache_place, cached_word, with_pair};

use std::alloc::{AllocError, Global};
use std::marker::Model;
use wp_judge::{LAST_SEQ, count_words, fits, pack};
use wp_model::Seq;

/// The words of the commit cache: two to the power of its bits, of which there are at most 16.
pub struct Cache {
    bits: u32,
    words: Vec<u64>,
}

impl Model for Cache {
    ghost use Rattle.std.specs.Prelude.{◌≡◌, ℕ, ◌≤◌, ◌^◌, List, length};

    ghost Value = { List ℕ };

    ghost view = { λ c. c.words.items };

    ghost invariant = { λ c. (c.bits ≤ 16) × (length c.words.items ≡ 2 ^ c.bits) × (1 ≤ length c.words.items) };
}

impl Cache {
    pub fn words(&self) -> &[u64]
        ensures words { result.now ≡ self.now }
        ensures some { 1 ≤ length self.now }
    {
        &self.words
    }

    /// How many bits the place of a word has.
    pub fn bits(&self) -> u32
        ensures { (result ≤ 16) × (length self.now ≡ 2 ^ result) }
    {
        self.bits
    }

    pub fn place_of(&self, p: Seq) -> usize
        ensures place { result ≡ cache_place (length self.now) p }
        ensures within { result < length self.now }
    {
        (p % self.words.len() as u64) as usize
    }

    /// The word at the place of a version.
    pub fn word(&self, p: Seq) -> u64
        ensures { result ≡ cached_word self.now p }
    {
        self.words[self.place_of(p)]
    }

    /// Puts the pair at its place. It fits a word wherever the machine stores one; others find no word.
    pub fn store(&mut self, p: Seq, c: Seq) -> Result<(), AllocError>
        ensures { OnOk result (self.new ≡ with_pair self.old (commit_pair p c)) }
    {
        if p < 1 || c < p || LAST_SEQ < c || !fits(self.bits, p, c) {
            return Err(AllocError);
        }
        let word = pack(self.bits, p, c);
        let place = self.place_of(p);
        self.words[place] = word;
        Ok(())
    }
}

impl Cache {
    /// So many empty words as so few bits tell.
    pub fn empty(bits: u32, alloc: Global) -> Result<Cache, AllocError>
        requires { bits ≤ 16 }
        ensures { IfOk result (λ cache. cache ≡ replicate (2 ^ bits) 0) }
    {
        Ok(Cache {
            bits,
            words: vec![in alloc; 0u64; count_words(bits) as usize]?,
        })
    }
}

// Written out, so that no crate above proves anew how all that it holds is let go.
impl Drop for Cache {
    fn drop(self) {
        let Self {
            bits: _bits,
            words: _words,
        } = self;
    }
}
