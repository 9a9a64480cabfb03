//! Writes values after their types (LLVM Language Reference, "Constants"). A step is one constant `getelementptr`: its type and
//! its indices.
ghost use Rattle.std.specs.Prelude.{◌≡◌, ◌∷◌, IfOk, codes, map};
ghost use Rattle.ms_text_grammar.specs.{LayoutNames.{global_token}, LayoutPieces.{after_commas, with_commas, word}};
ghost use Rattle.ms_text_grammar.specs.LayoutTypes.{type_tokens};
ghost use Rattle.ms_text_grammar.specs.LayoutValues.{constant_index_tokens, offset_tokens, base_tokens, value_tokens, typed_tokens, pair_tokens};
ghost use Rattle.ms_write_values.specs.{Parts.{two_tokens}, Sheets.{put}};

use crate::writer::Writer;
use ms_bits::{List, NoMemory};
use ms_ir::{Name, Operand, Ty, width_of};

impl Writer {
    /// Writes a constant index after its type: a number, of a single bit too.
    #[tactic(auto, using(crate::proofs::Puts::put_append))]
    fn constant_index(&mut self, index: &(Ty, u64)) -> Result<(), NoMemory>
        ensures { IfOk result (λ _. self.new ≡ put self.old (constant_index_tokens index.now)) }
    {
        self.ty(&index.0)?;
        self.number(width_of(&index.0), index.1)
    }

    /// Writes constant indices after a comma each.
    #[tactic(auto, using(crate::proofs::Puts::put_append))]
    fn constant_indices(&mut self, indices: &[(Ty, u64)]) -> Result<(), NoMemory>
        ensures { IfOk result (λ _. self.new ≡ put self.old (after_commas (map constant_index_tokens indices.now))) }
    {
        for index in indices {
            self.token(b",")?;
            self.constant_index(index)?;
        }
        Ok(())
    }

    /// Writes what stands between the parentheses of a constant `getelementptr`: the type that it steps through, its base, which
    /// is what the inner steps lead to, and its indices.
    #[cycle(addresses)]
    #[tactic(auto, using(crate::proofs::Puts::put_append))]
    fn step_parts(
        &mut self,
        step: &(Ty, List<(Ty, u64)>),
        base: &Name,
        inner: &[(Ty, List<(Ty, u64)>)],
    ) -> Result<(), NoMemory>
        ensures { IfOk result (λ _. self.new ≡ put self.old (with_commas (type_tokens step.now.0 ∷ (word (codes "ptr") ∷ base_tokens (global_token base.now) inner.now) ∷ map constant_index_tokens step.now.1))) }
    {
        self.ty(&step.0)?;
        self.token(b",")?;
        self.token(b"ptr")?;
        self.base(base, inner)?;
        self.constant_indices(step.1.as_slice())
    }

    /// Writes the constant `getelementptr` of a step: its base is the address to which the inner steps lead from the global
    /// `base`.
    #[cycle(addresses)]
    #[tactic(auto, using(crate::proofs::Puts::put_append), unfolding(ms_text_grammar::specs::LayoutValues::offset_tokens))]
    fn step(
        &mut self,
        step: &(Ty, List<(Ty, u64)>),
        base: &Name,
        inner: &[(Ty, List<(Ty, u64)>)],
    ) -> Result<(), NoMemory>
        ensures { IfOk result (λ _. self.new ≡ put self.old (offset_tokens step.now.0 (base_tokens (global_token base.now) inner.now) step.now.1)) }
    {
        self.token(b"getelementptr")?;
        self.token(b"(")?;
        self.step_parts(step, base, inner)?;
        self.token(b")")
    }

    /// Writes the address to which steps lead from a global, the outermost first.
    #[cycle(addresses)]
    fn base(&mut self, base: &Name, steps: &[(Ty, List<(Ty, u64)>)]) -> Result<(), NoMemory>
        ensures { IfOk result (λ _. self.new ≡ put self.old (base_tokens (global_token base.now) steps.now)) }
    {
        match steps.split_first() {
            None => self.global(base),
            Some((step, inner)) => self.step(step, base, inner),
        }
    }

    /// Writes a value of a type; the type isn't written.
    #[tactic(auto, unfolding(ms_text_grammar::specs::LayoutValues::value_tokens))]
    pub fn value(&mut self, ty: &Ty, operand: &Operand) -> Result<(), NoMemory>
        ensures { IfOk result (λ _. self.new ≡ put self.old (value_tokens ty.now operand.now)) }
    {
        match operand {
            Operand::Int(value) => self.integer(width_of(ty), *value),
            Operand::Null => self.token(b"null"),
            Operand::Undef => self.token(b"undef"),
            Operand::Poison => self.token(b"poison"),
            Operand::Local(name) => self.local(name),
            Operand::Global(name) => self.global(name),
            Operand::Offset(base, steps) => self.base(base.get(), steps.as_slice()),
        }
    }

    /// Writes a value after its type.
    #[tactic(auto, using(crate::proofs::Puts::put_append))]
    pub fn typed(&mut self, ty: &Ty, operand: &Operand) -> Result<(), NoMemory>
        ensures { IfOk result (λ _. self.new ≡ put self.old (typed_tokens ty.now operand.now)) }
    {
        self.ty(ty)?;
        self.value(ty, operand)
    }

    /// Writes two values after their one type.
    #[tactic(auto, using(crate::proofs::Puts::put_append))]
    pub fn two(&mut self, ty: &Ty, a: &Operand, b: &Operand) -> Result<(), NoMemory>
        ensures { IfOk result (λ _. self.new ≡ put self.old (two_tokens ty.now a.now b.now)) }
    {
        self.typed(ty, a)?;
        self.token(b",")?;
        self.value(ty, b)
    }

    /// Writes values with their types, and commas between.
    #[tactic(auto, using(crate::proofs::Puts::put_append))]
    pub fn pairs(&mut self, pairs: &[(Ty, Operand)]) -> Result<(), NoMemory>
        ensures { IfOk result (λ _. self.new ≡ put self.old (with_commas (map pair_tokens pairs.now))) }
    {
        match pairs {
            [] => {}
            [first, rest @ ..] => {
                self.typed(&first.0, &first.1)?;
                self.more_pairs(rest)?;
            }
        }
        Ok(())
    }

    /// Writes values with their types, after a comma each.
    #[tactic(auto, using(crate::proofs::Puts::put_append))]
    pub fn more_pairs(&mut self, pairs: &[(Ty, Operand)]) -> Result<(), NoMemory>
        ensures { IfOk result (λ _. self.new ≡ put self.old (after_commas (map pair_tokens pairs.now))) }
    {
        for pair in pairs {
            self.token(b",")?;
            self.typed(&pair.0, &pair.1)?;
        }
        Ok(())
    }
}
