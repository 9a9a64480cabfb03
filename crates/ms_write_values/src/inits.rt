//! Writes initialisers (LLVM Language Reference, "Complex Constants").
ghost use Rattle.std.specs.Prelude.{◌≡◌, [], ◌∷◌, IfOk, codes, map};
ghost use Rattle.ms_text_grammar.specs.{LayoutPieces.{after_commas, enclosed, with_commas}, LayoutTypes.{struct_tokens}};
ghost use Rattle.ms_text_grammar.specs.LayoutValues.{init_tokens};
ghost use Rattle.ms_write_values.specs.{Parts.{item_tokens}, Sheets.{put}};

use crate::writer::Writer;
use ms_bits::NoMemory;
use ms_ir::{Init, Ty};

impl Writer {
    /// Writes the initialiser of a type; the type isn't written.
    #[cycle(inits)]
    pub fn init(&mut self, ty: &Ty, init: &Init) -> Result<(), NoMemory>
        ensures { IfOk result (λ _. self.new ≡ put self.old (init_tokens ty.now init.now)) }
    {
        match init {
            Init::Value(value) => self.value(ty, value),
            Init::Zero => self.token(b"zeroinitializer"),
            Init::Array(items) => self.array_items(items.as_slice()),
            Init::Struct(packed, fields) => self.struct_items(*packed, fields.as_slice()),
            Init::Text(bytes) => self.bytes(bytes.as_slice()),
        }
    }

    /// Writes the items of an array between brackets.
    #[cycle(inits)]
    #[tactic(auto, using(crate::proofs::Puts::put_append))]
    fn array_items(&mut self, items: &[(Ty, Init)]) -> Result<(), NoMemory>
        ensures { IfOk result (λ _. self.new ≡ put self.old (enclosed (codes "[") (codes "]") (map item_tokens items.now))) }
    {
        self.token(b"[")?;
        self.items(items)?;
        self.token(b"]")
    }

    /// Writes the fields of a struct, which may be packed, between braces.
    #[cycle(inits)]
    #[tactic(auto, using(crate::proofs::Puts::put_struct))]
    fn struct_items(&mut self, packed: bool, fields: &[(Ty, Init)]) -> Result<(), NoMemory>
        ensures { IfOk result (λ _. self.new ≡ put self.old (struct_tokens packed (map item_tokens fields.now))) }
    {
        self.open_struct(packed)?;
        self.items(fields)?;
        self.close_struct(packed)
    }

    /// Writes an item of an array or a field of a struct after its type.
    #[cycle(inits)]
    #[tactic(auto, using(crate::proofs::Puts::put_append))]
    fn item(&mut self, item: &(Ty, Init)) -> Result<(), NoMemory>
        ensures { IfOk result (λ _. self.new ≡ put self.old (item_tokens item.now)) }
    {
        self.ty(&item.0)?;
        self.init(&item.0, &item.1)
    }

    /// Writes items with commas between.
    #[cycle(inits)]
    #[tactic(auto, using(crate::proofs::Puts::put_append))]
    fn items(&mut self, items: &[(Ty, Init)]) -> Result<(), NoMemory>
        ensures { IfOk result (λ _. self.new ≡ put self.old (with_commas (map item_tokens items.now))) }
    {
        match items {
            [] => {}
            [first, rest @ ..] => {
                self.item(first)?;
                self.more_items(rest)?;
            }
        }
        Ok(())
    }

    /// Writes items after a comma each.
    #[cycle(inits)]
    #[tactic(auto, using(crate::proofs::Puts::put_append))]
    fn more_items(&mut self, items: &[(Ty, Init)]) -> Result<(), NoMemory>
        ensures { IfOk result (λ _. self.new ≡ put self.old (after_commas (map item_tokens items.now))) }
    {
        for item in items {
            self.token(b",")?;
            self.item(item)?;
        }
        Ok(())
    }
}
