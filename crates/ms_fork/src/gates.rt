//! What each piece of work passes before it begins, so that a test decides which thread comes first.

/// A gate that a piece of work passes before it does anything else: a test's gate can hold one piece until another has come.
/// A call returns; what else it does changes no answer.
pub trait Gate {
    /// The piece whose first item has this number, counted from 0, is about to begin.
    fn enter(&self, job: u64);
}

/// The gate that is always open.
#[derive(Debug, Drop)]
pub struct OpenGate;

impl Gate for OpenGate {
    fn enter(&self, _job: u64) {}
}
