//! The host of a run: the world that it changes beside its frames, and what calls of externals do to it.
//!
//! The world has memory with shadow and origins, the slots, the input, the output and the count of uninitialised bytes that were
//! made. Each call says: where the world before stands for a world of the definitions, the world afterwards stands for what the
//! definitions make of it: `Shows world beside meant`, where `meant` is the world of the definitions, and `beside` its chained
//! origins, reports, blind uses and fibers. `Keeps` and `KeepsGiven` say what stays; `made` counts uninitialised bytes so far.
//! Chained origins and reports are kept elsewhere, and no call here touches them.
#![tactic(auto)]

mod accesses;
mod answering;
mod calls;
mod externals;
mod globals;
mod initialisers;
mod marked;
mod numbers;
mod shadows;
mod slots;
mod streams;
mod strings;
mod threads;
mod undefined;
mod worlds;
mod writes;

pub use answering::answer;
pub use calls::{Answer, Asked, HostCall};
pub use shadows::PoisonedByte;
pub use slots::Slots;
pub use worlds::World;
