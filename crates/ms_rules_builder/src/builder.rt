//! A list of instructions that grows at its end: those of a program, and the inserted ones, which rules are made into.
//! Contracts tell these by tasks (`ms_pass_tasks`): `Sets` a result to a word, `Tries` an operation that may trap, `Fetches` (a
//! load), `Puts` (a store), `Calls`. Inserted results are numbered from at most 2^40 on, so that no number is too large.
ghost use Rattle.std.specs.Prelude.{◌≡◌, ℕ, length, ◌+◌, ◌-◌, ◌<◌, ◌≤◌, ◌^◌, ◌++◌, [], ◌∷◌, true, reverse, map, List as ListOf, OnOk, Option, Some, None};
ghost use Rattle.ms_ir.specs.{declared.syntax.Ty.{Ty as TyOf, Int}, Names.{runtime_name as runtime_name_of}};
ghost use Rattle.ms_ir.specs.Signatures.{runtime_signature};
ghost use Rattle.ms_ir.specs.declared.syntax.Op.TheVariants as instruction;
ghost use Rattle.ms_pass_tasks.specs.Tasks.{inserted, Expr, Sets, Tries, Fetches, Puts, Calls};
ghost use Rattle.ms_rules_builder.specs.{Made.{with_tasks}, Steps.{inputs_of, words, is_leaf, is_operation}};

mod running;

use crate::arguments::arguments;
use crate::inputs::Inputs;
use crate::names::runtime_name;
use crate::operands::leaf_operand;
use crate::operations::{binary, load, operation_at, store};
use crate::steps::StackOp;
use ms_bits::{BinOp, List, NO_FLAGS, NoMemory};
use ms_ir::{Inst, Name, Op, Operand, RuntimeFn, Ty};
use std::alloc::Global;
use std::marker::Model;

/// Instructions of which some are inserted, and the number of the next inserted result. Contracts see both. What is
/// added stands after what is there.
#[derive(Drop)]
pub struct Builder {
    alloc: Global,
    insts: Vec<Inst>,
    /// The number of the next inserted result.
    next: u64,
}

impl Model for Builder {
    ghost use Rattle.std.specs.Prelude.{ℕ, List, refl, ◌≤◌, ◌+◌, ◌^◌, length};
    ghost use Rattle.std.specs.Coded.{coded_list, coded×, coded_ℕ, code_by};
    ghost use Rattle.ms_ir.specs.declared.syntax.Inst.{Inst};
    ghost use Rattle.ms_ir.specs.contracts.syntax.Inst as instruction;
    ghost use Rattle.ms_pass_tasks.specs.Tasks as tasks;

    ghost Value = { tasks.InsertedCode };

    // By which the prover tells values of the model apart.
    ghost coded = { code_by (List Inst × ℕ) (coded× (coded_list instruction.the_row.coded) coded_ℕ) (λ c. (c.code, c.next)) (λ p. record { code = p.0; next = p.1 }) (λ _. refl) };

    ghost view = { λ c. record { code = c.insts.items; next = c.next } };

    ghost invariant = { λ c. c.next ≤ 2 ^ 40 + length c.insts.items };
}

/// Adds an instruction at the end.
#[inline(always)]
fn append(insts: &mut Vec<Inst>, inst: Inst) -> Result<(), NoMemory>
    ensures code { OnOk result (insts.new.items ≡ insts.old.items ++ inst ∷ []) }
    ensures room { length insts.old.items ≤ length insts.new.items }
{
    insts.push(inst)?;
    Ok(())
}

impl Builder {
    /// No instructions yet; the first inserted result gets the number `next`. Takes no memory.
    pub fn new(alloc: Global, next: u64) -> Builder
        requires { next ≤ 2 ^ 40 }
        ensures { result ≡ record { code = []; next = next } }
    {
        Builder {
            alloc,
            insts: Vec::new(alloc),
            next,
        }
    }

    /// The allocator of what is added.
    pub fn alloc(&self) -> Global {
        self.alloc
    }

    /// The number of the next inserted result.
    pub fn next(&self) -> u64
        ensures { result ≡ self.now.next }
    {
        self.next
    }

    /// The instructions. Takes no memory.
    pub fn into_insts(self) -> Vec<Inst>
        ensures { result.items ≡ self.code }
    {
        self.insts
    }

    /// Keeps a number of an inserted result for later, and returns it.
    pub fn reserve(&mut self) -> u64
        requires { self.old.next < 2 ^ 40 }
        ensures number { result ≡ self.old.next }
        ensures code { self.new ≡ record { code = self.old.code; next = self.old.next + 1 } }
    {
        let number = self.next;
        self.next += 1;
        number
    }

    /// Adds an instruction of the program.
    #[inline(always)]
    pub fn push(&mut self, inst: Inst) -> Result<(), NoMemory>
        ensures { OnOk result (self.new ≡ record { code = self.old.code ++ inst ∷ []; next = self.old.next }) }
    {
        append(&mut self.insts, inst)
    }

    /// Adds an inserted instruction, marked, whose result has this name.
    #[inline(always)]
    pub fn put(&mut self, name: Option<Name>, op: Op) -> Result<(), NoMemory>
        ensures { OnOk result (self.new ≡ record { code = self.old.code ++ inserted name op ∷ []; next = self.old.next }) }
    {
        append(
            &mut self.insts,
            Inst {
                op,
                result: name,
                marked: true,
            },
        )
    }

    /// An inserted result with a name and a width gets the word that steps leave, of which the last, `last`, is an operation.
    pub fn set(
        &mut self,
        name: Name,
        width: u8,
        inputs: &Inputs<'_>,
        steps: &[StackOp],
        last: StackOp,
    ) -> Result<(), NoMemory>
        requires { is_operation last ≡ true }
        ensures { (e : Expr) → words (inputs_of inputs.now) (steps.now ++ last ∷ []) [] ≡ e ∷ [] → OnOk result (self.new ≡ with_tasks self.old (Sets name (Int width) e ∷ [])) }
    {
        let mut stack = self.run(inputs, steps)?;
        self.put(Some(name), operation_at(&mut stack, inputs, last))
    }

    /// An inserted result with a name and a width gets a word that is there already, by an `or` with 0.
    pub fn set_leaf(
        &mut self,
        name: Name,
        width: u8,
        inputs: &Inputs<'_>,
        leaf: StackOp,
    ) -> Result<(), NoMemory>
        requires { is_leaf leaf ≡ true }
        ensures { (e : Expr) → words (inputs_of inputs.now) (leaf ∷ []) [] ≡ e ∷ [] → OnOk result (self.new ≡ with_tasks self.old (Sets name (Int width) e ∷ [])) }
    {
        let word = leaf_operand(self.alloc, inputs, leaf)?;
        self.put(
            Some(name),
            Op::Binary {
                op: BinOp::Or,
                flags: NO_FLAGS,
                ty: Ty::Int(width),
                a: word,
                b: Operand::Int(0),
            },
        )
    }

    /// An inserted result with a name and a width gets what an operation that may trap makes of the two words that steps leave.
    pub fn attempt(
        &mut self,
        name: Name,
        op: BinOp,
        width: u8,
        inputs: &Inputs<'_>,
        steps: &[StackOp],
    ) -> Result<(), NoMemory>
        ensures { (a b : Expr) → words (inputs_of inputs.now) steps.now [] ≡ b ∷ a ∷ [] → OnOk result (self.new ≡ with_tasks self.old (Tries name op (Int width) a b ∷ [])) }
    {
        let mut stack = self.run(inputs, steps)?;
        self.put(Some(name), binary(&mut stack, op, Ty::Int(width)))
    }

    /// An inserted result with a name and a width gets what stands at the address that steps leave.
    pub fn fetch(
        &mut self,
        name: Name,
        width: u8,
        inputs: &Inputs<'_>,
        steps: &[StackOp],
    ) -> Result<(), NoMemory>
        ensures { (a : Expr) → words (inputs_of inputs.now) steps.now [] ≡ a ∷ [] → OnOk result (self.new ≡ with_tasks self.old (Fetches name (Int width) a ∷ [])) }
    {
        let mut stack = self.run(inputs, steps)?;
        self.put(Some(name), load(&mut stack, Ty::Int(width)))
    }

    /// Of the two words that steps leave, the first, of a width, is stored at the second.
    pub fn store(
        &mut self,
        width: u8,
        inputs: &Inputs<'_>,
        steps: &[StackOp],
    ) -> Result<(), NoMemory>
        ensures { (value addr : Expr) → words (inputs_of inputs.now) steps.now [] ≡ addr ∷ value ∷ [] → OnOk result (self.new ≡ with_tasks self.old (Puts (Int width) value addr ∷ [])) }
    {
        let mut stack = self.run(inputs, steps)?;
        self.put(None, store(&mut stack, Ty::Int(width)))
    }

    /// A runtime function is called with the words that steps leave; what it returns gets the name, if there is one.
    pub fn call(
        &mut self,
        name: Option<Name>,
        function: RuntimeFn,
        inputs: &Inputs<'_>,
        steps: &[StackOp],
    ) -> Result<(), NoMemory>
        ensures { (args : ListOf (TyOf × Expr)) → map (λ a. a.0) args ≡ (runtime_signature function).params → map (λ a. a.1) args ≡ reverse (words (inputs_of inputs.now) steps.now []) → OnOk result (self.new ≡ with_tasks self.old (Calls name function args ∷ [])) }
    {
        let stack = self.run(inputs, steps)?;
        let args = arguments(self.alloc, function, stack)?;
        self.put_call(name, function, args)
    }

    /// Adds a call of a runtime function with these arguments.
    fn put_call(
        &mut self,
        name: Option<Name>,
        function: RuntimeFn,
        args: List<(Ty, Operand)>,
    ) -> Result<(), NoMemory>
        ensures { OnOk result (self.new ≡ record { code = self.old.code ++ inserted name (instruction.Call (runtime_signature function).ret (runtime_name_of function) args) ∷ []; next = self.old.next }) }
    {
        let callee = runtime_name(self.alloc, function)?;
        self.put(
            name,
            Op::Call {
                ret: function.result_type(),
                callee,
                args,
            },
        )
    }
}
