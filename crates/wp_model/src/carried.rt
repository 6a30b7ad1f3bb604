use crate::Seq;
use crate::batch::Batch;
use crate::word::Name;

/// A prepare from before a base, which was undecided there.
#[derive(Drop)]
pub struct Carried {
    pub number: Seq,
    pub name: Name,
    pub batch: Batch,
}
