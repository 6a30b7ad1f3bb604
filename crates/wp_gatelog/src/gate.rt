//! Gates: one byte before each record, and one before the head.

/// Every other byte is open.
pub(crate) const CLOSED: u8 = 0;

/// The open gate that is written.
pub(crate) const OPEN: u8 = 1;

/// An open gate at its place in the log.
#[derive(Clone, Copy)]
pub(crate) struct GateByte {
    pub at: u64,
    pub byte: u8,
}
