//! What a step of a traced run reads, for `ms_trail`: operands, checked uses, masks beside the frames, and what is known of each
//! instruction.
#![tactic(auto)]

pub mod checked;
pub mod clean_uses;
pub mod edges;
pub mod frame_masks;
pub mod loads;
pub mod places;
pub mod steps;
pub mod tables;
pub mod used;
