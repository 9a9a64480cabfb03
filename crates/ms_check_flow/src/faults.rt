//! The first phi or branch at fault, for `ms_check`: phis are held against the edges into their blocks.
ghost use Rattle.std.specs.Prelude.{◌≡◌, ◌<◌, ◌^◌, ℕ, [], ◌∷◌, length, map, IsTrue, IfOk, slice_get, if◌then◌else◌};
ghost use Rattle.ms_ir.specs.{Places.{HasSmallNumbers}, Equal.{has_name}, Locals.{entry_name}, Spots.{spot}};
ghost use Rattle.ms_ir.specs.Written.{targets};
ghost use Rattle.ms_check_valid.specs.PhisFit.{edges_fit, bad_edges};
ghost use Rattle.ms_check_flow.specs.{Arriving.{AreEdgesOf}, Fitting.{IsClear}, PhiTables.{ArePhiTablesOf}};

use crate::edges::{Edges, find_edges};
use crate::phis::{Notes, fits_row, phi_edges};
use ms_bits::NoMemory;
use ms_check_tables::{Clause, InstSite, first_fault, name_place};
use ms_ir::{Func, Inst, Module, Name, Op};
use std::alloc::Global;

/// The edges of a function, and notes on its blocks.
#[derive(Drop)]
pub struct PhiTables<'m> {
    /// The edges into each block.
    pub into: Edges<'m>,
    /// What is noted while a phi is looked at.
    pub notes: Notes,
}

/// The edges of a function, and empty notes on its blocks.
fn find_phi_tables<'m>(alloc: Global, func: &'m Func) -> Result<PhiTables<'m>, NoMemory>
    requires { length func.now.blocks < 2 ^ 32 }
    ensures { IfOk result (ArePhiTablesOf func.now) }
{
    let into = find_edges(alloc, func)?;
    let notes = Notes::new(alloc, func.blocks.as_slice().len())?;
    Ok(PhiTables { into, notes })
}

/// The name of the entry block.
fn entry_label(func: &Func) -> &Name
    requires { 0 < length func.now.blocks }
    ensures { result.now ≡ entry_name func.now }
{
    &func.blocks.as_slice()[0].name
}

/// Whether a case of a `switch` goes to the block with a name.
fn has_case(cases: &[(u64, Name)], name: &Name) -> bool
    ensures { result ≡ has_name (map (λ c. c.1) cases.now) name.now }
{
    for case in cases {
        if case.1 == *name {
            return true;
        }
    }
    false
}

/// Whether an instruction may go to the block with a name.
fn goes_to(op: &Op, name: &Name) -> bool
    ensures { result ≡ has_name (targets op.now) name.now }
{
    match op {
        Op::Br { to } => to == name,
        Op::CondBr { yes, no, .. } => yes == name || no == name,
        Op::Switch { other, cases, .. } => other == name || has_case(cases.as_slice(), name),
        _ => false,
    }
}

/// Whether an instruction of the block with a number fits: a phi has an operand for each edge into the block, and no branch
/// goes to the entry block.
fn fits(
    func: &Func,
    into: &Edges<'_>,
    notes: &mut Notes,
    block: usize,
    op: &Op,
) -> Result<bool, NoMemory>
    requires edges { AreEdgesOf func.now into.now }
    requires clear { IsClear (length func.now.blocks) notes.old }
    requires block { block < length func.now.blocks }
    ensures is { IfOk result (λ fits. (place site : ℕ) → fits ≡ edges_fit (spot func.now block place site) op.now) }
    ensures clear { IfOk result (λ fits. IsTrue fits → IsClear (length func.now.blocks) notes.new) }
{
    match phi_edges(op) {
        Some(edges) => {
            let blocks = func.blocks.as_slice();
            let to = name_place(&into.blocks, &blocks[block].name);
            fits_row(into, notes, to, edges)
        }
        None => Ok(!goes_to(op, entry_label(func))),
    }
}

/// The clause that each phi fits its block, and no branch goes to an entry block. A fault is a site.
struct EdgesFit;

/// A function has few blocks (`Asks`), its tables have its edges (`AreOf`), and it has no fault (`head`) but its instructions'
/// (`look`).
impl<'m> Clause<'m> for EdgesFit {
    type Tables = PhiTables<'m>;

    type Fault = u32;

    ghost Asks = { λ f. length f.blocks < 2 ^ 32 };

    ghost AreOf = { λ clause f tables. ArePhiTablesOf f tables };

    ghost head = { λ clause f. [] };

    ghost look = { λ clause at inst. if edges_fit at inst.op then [] else at.site ∷ [] };

    fn func_fault(&self, _func: &'m Func) -> Option<u32> {
        None
    }

    fn enter(&self, alloc: Global, func: &'m Func) -> Result<PhiTables<'m>, NoMemory> {
        find_phi_tables(alloc, func)
    }

    fn fault(
        &self,
        _alloc: Global,
        tables: &mut PhiTables<'m>,
        here: &InstSite<'m>,
        inst: &'m Inst,
    ) -> Result<Option<u32>, NoMemory> {
        if fits(
            here.func,
            &tables.into,
            &mut tables.notes,
            here.block,
            &inst.op,
        )? {
            Ok(None)
        } else {
            Ok(Some(here.site))
        }
    }
}

/// The site of the first phi or branch at fault, in text order: a phi that doesn't name each block as often as that has edges
/// to its own, or that has unequal operands for one block, or a branch to the entry block of its function. None where there
/// is none.
///
/// The time grows with the number of blocks, instructions, edges and operands of phis, blocks being found as `NameTable`
/// finds names.
pub fn first_bad_edge(alloc: Global, m: &Module) -> Result<Option<u32>, NoMemory>
    requires { HasSmallNumbers m.now }
    ensures { IfOk result (λ fault. fault ≡ slice_get (bad_edges m.now) 0) }
{
    first_fault(alloc, &EdgesFit, m)
}
