//! How many parts an instruction has (LLVM Language Reference, "Instruction Reference"), for those who go through them by their
//! places.
ghost use Rattle.std.specs.Prelude.{◌≡◌, length};
ghost use Rattle.ms_ir.specs.{Instructions.{operands}, Written.{labels, targets}};

use crate::syntax::Op;

impl Op {
    /// The number of its operands.
    pub fn operand_count(&self) -> usize
        ensures { result ≡ length (operands self.now) }
    {
        match self {
            Op::Binary { .. } => 2,
            Op::Icmp { .. } => 2,
            Op::Cast { .. } => 1,
            Op::Select { .. } => 3,
            Op::Freeze { .. } => 1,
            Op::Phi { edges, .. } => edges.as_slice().len(),
            Op::Alloca { .. } => 1,
            Op::Load { .. } => 1,
            Op::Store { .. } => 2,
            Op::Gep { indices, .. } => indices.as_slice().len() + 1,
            Op::Call { args, .. } => args.as_slice().len(),
            Op::CondBr { .. } => 1,
            Op::Switch { .. } => 1,
            Op::Ret { value: Some(_) } => 1,
            _ => 0,
        }
    }

    /// The number of blocks to which it may go, once for each edge.
    pub fn target_count(&self) -> usize
        ensures { result ≡ length (targets self.now) }
    {
        match self {
            Op::Br { .. } => 1,
            Op::CondBr { .. } => 2,
            Op::Switch { cases, .. } => cases.as_slice().len() + 1,
            _ => 0,
        }
    }
}
