//! The edges of the phis that are inserted after a phi, for its mask and its origin. Where several edges come from one block, their
//! origin is that of the first of them.
ghost use Rattle.std.specs.Prelude.{◌≡◌, ◌++◌, [], ◌∷◌, length, map, IfOk, OnOk};
ghost use Rattle.ms_rules_builder.specs.Steps.{shadow_mask};
ghost use Rattle.ms_rules.specs.Edges.{masks, origins, with_operands, first_operand, with_first};

use ms_bits::{Duplicate, List, NoMemory};
use ms_check_tables::{NameTable, labels_of};
use ms_ir::{Name, Operand};
use ms_rules_builder::{Shadow, TrackedOperand};
use std::alloc::Global;

/// Adds an edge.
fn push_edge(
    edges: &mut Vec<(Operand, Name)>,
    operand: Operand,
    label: Name,
) -> Result<(), NoMemory>
    ensures { OnOk result (edges.new.items ≡ edges.old.items ++ (operand, label) ∷ []) }
{
    edges.push((operand, label))?;
    Ok(())
}

/// Adds an edge with a mask and a copy of a label.
fn push_mask(
    alloc: Global,
    edges: &mut Vec<(Operand, Name)>,
    shadow: Shadow,
    label: &Name,
) -> Result<(), NoMemory>
    ensures { OnOk result (edges.new.items ≡ edges.old.items ++ (shadow_mask shadow, label.now) ∷ []) }
{
    let label = label.copy(alloc)?;
    let operand = shadow.mask(alloc)?;
    push_edge(edges, operand, label)
}

/// The edges of the phi of a mask: for each edge its label, with the mask of its operand.
pub fn mask_edges(
    alloc: Global,
    operands: &[TrackedOperand<'_>],
    edges: &[(Operand, Name)],
) -> Result<List<(Operand, Name)>, NoMemory>
    requires { length operands.now ≡ length edges.now }
    ensures { IfOk result (λ es. es ≡ with_operands (masks operands.now) edges.now) }
{
    let mut made = Vec::new(alloc);
    for (place, edge) in edges.iter().enumerate() {
        push_mask(alloc, &mut made, operands[place].shadow, &edge.1)?;
    }
    Ok(List::from_vec(made))
}

/// The operand that holds the origin of the first edge with a label.
fn first_origin(
    alloc: Global,
    operands: &[TrackedOperand<'_>],
    labels: &NameTable<'_>,
    label: &Name,
) -> Result<Operand, NoMemory>
    ensures { IfOk result (λ o. o ≡ first_operand (origins operands.now) labels.now label.now) }
{
    match labels.place(label) {
        Some(place) => match operands.get(place) {
            Some(tracked) => tracked.shadow.origin(alloc),
            None => Ok(Operand::Int(0)),
        },
        None => Ok(Operand::Int(0)),
    }
}

/// Adds an edge with the origin of the first edge with a label, and a copy of the label.
fn push_first(
    alloc: Global,
    edges: &mut Vec<(Operand, Name)>,
    operands: &[TrackedOperand<'_>],
    labels: &NameTable<'_>,
    label: &Name,
) -> Result<(), NoMemory>
    ensures { OnOk result (edges.new.items ≡ edges.old.items ++ (first_operand (origins operands.now) labels.now label.now, label.now) ∷ []) }
{
    let copied = label.copy(alloc)?;
    let operand = first_origin(alloc, operands, labels, label)?;
    push_edge(edges, operand, copied)
}

/// The edges of the phi of an origin: for each edge its label, with the origin of the first edge that has the label.
fn first_edges(
    alloc: Global,
    operands: &[TrackedOperand<'_>],
    edges: &[(Operand, Name)],
    labels: &NameTable<'_>,
) -> Result<List<(Operand, Name)>, NoMemory>
    ensures { IfOk result (λ es. es ≡ with_first (origins operands.now) labels.now edges.now) }
{
    let mut made = Vec::new(alloc);
    for edge in edges {
        push_first(alloc, &mut made, operands, labels, &edge.1)?;
    }
    Ok(List::from_vec(made))
}

/// The edges of the phi of an origin. Labels are looked up in a table, since a phi may have many edges.
pub fn origin_edges(
    alloc: Global,
    operands: &[TrackedOperand<'_>],
    edges: &[(Operand, Name)],
) -> Result<List<(Operand, Name)>, NoMemory>
    ensures { IfOk result (λ es. es ≡ with_first (origins operands.now) (map (λ e. e.1) edges.now) edges.now) }
{
    let labels = labels_of(alloc, edges)?;
    first_edges(alloc, operands, edges, &labels)
}
