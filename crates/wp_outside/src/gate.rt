/// Hears where each client is, so that a test can hold one back. Clients and lines are counted from 1; a line
/// is one command of that client.
pub trait Gate {
    /// The client comes to this line; returns when it may go on.
    fn pass(&self, client: usize, line: usize);

    /// The client's line is answered.
    fn done(&self, client: usize, line: usize);
}

/// Holds nobody back.
#[derive(Clone, Copy, PartialEq, Eq)]
pub struct OpenGate;

impl Gate for OpenGate {
    fn pass(&self, _client: usize, _line: usize) {}

    fn done(&self, _client: usize, _line: usize) {}
}
