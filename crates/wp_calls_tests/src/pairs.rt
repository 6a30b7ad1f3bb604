//! Which pairs fit a word of a store's commit cache.
use crate::stores::{end, new_disks, opened};
use std::test::*;
use wp_judge::fits;

#[test]
fn the_greatest_cache_has_words_for_pairs_just_so_wide(rt: HostRuntime) {
    let alloc = rt.alloc();
    let seats = opened(&rt, alloc, new_disks(&rt, alloc), 16);
    let bits = seats.store.bits();
    end(&rt, alloc, seats);
    assert_eq!(rt; bits, 16);
    assert!(rt; fits(bits, 1, 16_777_215), "apart by 2^24 - 2");
    assert!(rt; !fits(bits, 1, 16_777_216), "apart by 2^24 - 1");
}
