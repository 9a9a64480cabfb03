//! The types of a call that a run asks for: what is called, with which words and at which site, and what an answer to it is.
ghost use Rattle.std.specs.Prelude.{◌≡◌};

use ms_bits::{List, Trap};
use ms_ir::{External, RuntimeFn};
use ms_runs::End;

/// A function that the module doesn't define.
#[derive(Clone, Copy, Debug, PartialEq, Eq)]
pub enum Asked {
    /// An external, which the host answers.
    External(External),
    /// A runtime function, which inserted instructions call.
    Runtime(RuntimeFn),
}

/// A call of a function that the module doesn't define.
#[derive(Debug, Drop)]
pub struct HostCall {
    pub asked: Asked,
    /// The words of the arguments, in written order.
    pub args: List<u64>,
    /// The site of the call.
    pub site: u32,
}

/// The effect of a call on the run: it goes on, with a value or without, or has ended.
#[derive(Clone, Copy, Debug, PartialEq, Eq)]
pub enum Answer {
    /// The run goes on, with the call's result if it has one.
    Resumed(Option<u64>),
    /// The run has ended.
    Ended(End),
}

/// The answer that ends the run by a trap.
pub(crate) fn trap(kind: Trap, site: u32) -> Answer
    ensures { result ≡ Answer.Ended (End.Trap kind site) }
{
    Answer::Ended(End::Trap { kind, site })
}
