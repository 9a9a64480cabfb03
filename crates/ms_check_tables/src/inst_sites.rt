//! Where an instruction stands: its function, its block, its place there, and its site, by which faults are told.

use ms_ir::Func;

/// Where an instruction stands: its function, the numbers from 0 of its block and of itself in there, and its site.
#[derive(Drop)]
pub struct InstSite<'m> {
    pub func: &'m Func,
    pub block: usize,
    pub place: usize,
    pub site: u32,
}
