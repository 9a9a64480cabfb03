//! Writes names and strings (LLVM Language Reference, "Identifiers" and "Simple Constants").
ghost use Rattle.std.specs.Prelude.{◌≡◌, [], ◌∷◌, IfOk};
ghost use Rattle.ms_text_grammar.specs.LayoutModules.{label_line as label_line_of};
ghost use Rattle.ms_text_grammar.specs.LayoutNames.{bytes_token, local_token, global_token};
ghost use Rattle.ms_write_values.specs.Sheets.{put, put_line};

use crate::writer::Writer;
use ms_bits::NoMemory;
use ms_ir::Name;

impl Writer {
    /// Writes the name of a value, a block or a type.
    pub fn local(&mut self, name: &Name) -> Result<(), NoMemory>
        ensures { IfOk result (λ _. self.new ≡ put self.old (local_token name.now ∷ [])) }
    {
        self.begin(b'%')?;
        self.name(name)
    }

    /// Writes the name of a global or a function.
    pub fn global(&mut self, name: &Name) -> Result<(), NoMemory>
        ensures { IfOk result (λ _. self.new ≡ put self.old (global_token name.now ∷ [])) }
    {
        self.begin(b'@')?;
        self.name(name)
    }

    /// Writes the value of an array of bytes.
    pub fn bytes(&mut self, bytes: &[u8]) -> Result<(), NoMemory>
        ensures { IfOk result (λ _. self.new ≡ put self.old (bytes_token bytes.now ∷ [])) }
    {
        self.begin(b'c')?;
        self.quoted(bytes)
    }

    /// Writes the label of a block, in a line of its own.
    pub fn label_line(&mut self, name: &Name) -> Result<(), NoMemory>
        ensures { IfOk result (λ _. self.new ≡ put_line self.old (label_line_of name.now)) }
    {
        self.start_line(b"")?;
        self.name(name)?;
        self.byte(b':')?;
        self.end_line()
    }
}
