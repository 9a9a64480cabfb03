//! Laws about texts: every text is answered; what is read is formed, and keeps the limits; what is written of a module is read as
//! that module, and is written of no other.
#![tactic(auto)]

pub mod answered;
pub mod formed;
pub mod laws;
pub mod limits;
