//! The trait of what gives a name in a module: a function, a parameter, a type; an instruction with a result.
ghost use Rattle.std.specs.{Prelude.{◌≡◌, Some, Option}, Option.{option_copied}};
ghost use Rattle.ms_ir.specs.declared.syntax.Name.{Name};

use ms_ir::{Block, Decl, Func, GlobalVar, Inst, Name, Ty};

/// A part of a module that may give a name.
pub trait Named {
    /// The name that the part gives.
    ghost name_of: { Self → Option Name };

    /// The name, if it gives one.
    fn given_name(&self) -> Option<&Name>
        ensures { option_copied result ≡ name_of self.now };
}

/// A named type.
impl Named for (Name, Ty) {
    ghost name_of = { λ t. Some t.0 };

    fn given_name(&self) -> Option<&Name> {
        Some(&self.0)
    }
}

impl Named for GlobalVar {
    ghost name_of = { λ g. Some g.name };

    fn given_name(&self) -> Option<&Name> {
        Some(&self.name)
    }
}

impl Named for Decl {
    ghost name_of = { λ d. Some d.name };

    fn given_name(&self) -> Option<&Name> {
        Some(&self.name)
    }
}

/// A parameter.
impl Named for (Ty, Name) {
    ghost name_of = { λ p. Some p.1 };

    fn given_name(&self) -> Option<&Name> {
        Some(&self.1)
    }
}

impl Named for Func {
    ghost name_of = { λ f. Some f.name };

    fn given_name(&self) -> Option<&Name> {
        Some(&self.name)
    }
}

impl Named for Block {
    ghost name_of = { λ b. Some b.name };

    fn given_name(&self) -> Option<&Name> {
        Some(&self.name)
    }
}

/// An instruction gives the name of its result.
impl Named for Inst {
    ghost name_of = { λ inst. inst.result };

    fn given_name(&self) -> Option<&Name> {
        self.result.as_ref()
    }
}
