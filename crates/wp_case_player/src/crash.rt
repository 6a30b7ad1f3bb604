//! What a crash may leave of a device.

use crate::report::Report;

/// What stands in the places that a crash tore: what was there before, other bytes, or no bytes behind the shorter end.
#[derive(Clone, Copy)]
enum Rest {
    Old,
    Other,
    Nothing,
}

/// How many bytes the two have in common at their beginning.
fn same(old: &[u8], new: &[u8]) -> usize {
    let mut same = 0usize;
    for (a, b) in old.iter().zip(new) {
        if a != b {
            break;
        }
        same = same.saturating_add(1);
    }
    same
}

/// The byte that stands in a torn place, where it was one and was written as the other; what was not written stays.
fn torn_byte(was: Option<u8>, is: Option<u8>, rest: Rest) -> Option<u8> {
    match rest {
        Rest::Old => was,
        Rest::Nothing => is.and(was),
        Rest::Other if was == is => was,
        Rest::Other => Some(0xA5),
    }
}

/// Adds what a crash may leave of a device that was synced with the bytes `old` and reads `new`: these, up to the place where the
/// crash tore them.
fn push_image(
    report: &mut Report,
    images: &mut Vec<Vec<u8>>,
    (old, new): (&[u8], &[u8]),
    torn: usize,
    rest: Rest,
) {
    let mut image = Vec::new(report.alloc);
    for place in 0..old.len().max(new.len()) {
        let (was, is) = (old.get(place).copied(), new.get(place).copied());
        let byte = if place < torn {
            is.or(was)
        } else {
            torn_byte(was, is, rest)
        };
        if let Some(byte) = byte {
            report.keep(&mut image, byte);
        }
    }
    if !images.contains(&image) {
        report.keep(images, image);
    }
}

/// What a crash may leave of a device that was synced with the bytes `old` and reads `new`: these, and torn at each place, or at
/// each that is so many bytes behind another, from the first one on where they differ.
pub(crate) fn push_images(
    report: &mut Report,
    images: &mut Vec<Vec<u8>>,
    (old, new): (&[u8], &[u8]),
    apart: usize,
) {
    let mut next = same(old, new);
    push_image(report, images, (new, new), 0, Rest::Old);
    for torn in next..old.len().max(new.len()) {
        if torn == next {
            push_image(report, images, (old, new), torn, Rest::Old);
            push_image(report, images, (old, new), torn, Rest::Other);
            push_image(report, images, (old, new), torn, Rest::Nothing);
            next = next.saturating_add(apart);
        }
    }
}
