/// The one refusal of everything outside: a call that gives it has raised the object's count of faults.
#[derive(Clone, Copy, Debug, PartialEq, Eq)]
pub struct Failed;
