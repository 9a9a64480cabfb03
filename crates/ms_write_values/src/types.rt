//! Writes types (LLVM Language Reference, "Type System").
ghost use Rattle.std.specs.Prelude.{◌≡◌, [], ◌∷◌, IfOk, decimal, map};
ghost use Rattle.ms_text_grammar.specs.LayoutPieces.{word, after_commas, with_commas};
ghost use Rattle.ms_text_grammar.specs.LayoutTypes.{array_tokens, struct_tokens, type_tokens, result_tokens};
ghost use Rattle.ms_write_values.specs.{Parts.{open_tokens, close_tokens}, Sheets.{put}};

use crate::writer::Writer;
use ms_bits::NoMemory;
use ms_ir::Ty;

impl Writer {
    /// Writes an integer type, `i` (105) and the digits of its width.
    fn any_int_type(&mut self, width: u8) -> Result<(), NoMemory>
        ensures { IfOk result (λ _. self.new ≡ put self.old (word (105 ∷ decimal width) ∷ [])) }
    {
        self.begin(b'i')?;
        self.digits(width as u64)
    }

    /// Writes an integer type; the widths that most texts have are written at once.
    fn int_type(&mut self, width: u8) -> Result<(), NoMemory>
        ensures { IfOk result (λ _. self.new ≡ put self.old (word (105 ∷ decimal width) ∷ [])) }
    {
        match width {
            1 => self.token(b"i1"),
            8 => self.token(b"i8"),
            16 => self.token(b"i16"),
            32 => self.token(b"i32"),
            64 => self.token(b"i64"),
            _ => self.any_int_type(width),
        }
    }

    /// Writes what opens a struct, which may be packed.
    pub fn open_struct(&mut self, packed: bool) -> Result<(), NoMemory>
        ensures { IfOk result (λ _. self.new ≡ put self.old (open_tokens packed)) }
    {
        if packed {
            self.token(b"<")?;
        }
        self.token(b"{")
    }

    /// Writes what closes a struct, which may be packed.
    pub fn close_struct(&mut self, packed: bool) -> Result<(), NoMemory>
        ensures { IfOk result (λ _. self.new ≡ put self.old (close_tokens packed)) }
    {
        self.token(b"}")?;
        if packed {
            self.token(b">")?;
        }
        Ok(())
    }

    /// Writes a type.
    #[cycle(types)]
    pub fn ty(&mut self, ty: &Ty) -> Result<(), NoMemory>
        ensures { IfOk result (λ _. self.new ≡ put self.old (type_tokens ty.now)) }
    {
        match ty {
            Ty::Int(width) => self.int_type(*width),
            Ty::Ptr => self.token(b"ptr"),
            Ty::Array(count, item) => self.array_type(*count, item.get()),
            Ty::Struct(packed, fields) => self.struct_type(*packed, fields.as_slice()),
            Ty::Named(name) => self.local(name),
        }
    }

    /// Writes the type of an array of so many items.
    #[cycle(types)]
    #[tactic(auto, using(crate::proofs::Puts::put_append))]
    fn array_type(&mut self, count: u64, item: &Ty) -> Result<(), NoMemory>
        ensures { IfOk result (λ _. self.new ≡ put self.old (array_tokens count (type_tokens item.now))) }
    {
        self.token(b"[")?;
        self.count(count)?;
        self.token(b"x")?;
        self.ty(item)?;
        self.token(b"]")
    }

    /// Writes the type of a struct, which may be packed, with these fields.
    #[cycle(types)]
    #[tactic(auto, using(crate::proofs::Puts::put_struct))]
    fn struct_type(&mut self, packed: bool, fields: &[Ty]) -> Result<(), NoMemory>
        ensures { IfOk result (λ _. self.new ≡ put self.old (struct_tokens packed (map type_tokens fields.now))) }
    {
        self.open_struct(packed)?;
        self.types(fields)?;
        self.close_struct(packed)
    }

    /// Writes types with commas between.
    #[cycle(types)]
    #[tactic(auto, using(crate::proofs::Puts::put_append))]
    pub fn types(&mut self, types: &[Ty]) -> Result<(), NoMemory>
        ensures { IfOk result (λ _. self.new ≡ put self.old (with_commas (map type_tokens types.now))) }
    {
        match types {
            [] => {}
            [first, rest @ ..] => {
                self.ty(first)?;
                self.more_types(rest)?;
            }
        }
        Ok(())
    }

    /// Writes types after a comma each.
    #[cycle(types)]
    #[tactic(auto, using(crate::proofs::Puts::put_append))]
    fn more_types(&mut self, types: &[Ty]) -> Result<(), NoMemory>
        ensures { IfOk result (λ _. self.new ≡ put self.old (after_commas (map type_tokens types.now))) }
    {
        for ty in types {
            self.token(b",")?;
            self.ty(ty)?;
        }
        Ok(())
    }

    /// Writes the type of a result, or `void`.
    pub fn result_type(&mut self, ty: &Option<Ty>) -> Result<(), NoMemory>
        ensures { IfOk result (λ _. self.new ≡ put self.old (result_tokens ty.now)) }
    {
        match ty {
            None => self.token(b"void"),
            Some(ty) => self.ty(ty),
        }
    }
}
