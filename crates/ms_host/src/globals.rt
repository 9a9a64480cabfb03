//! The globals at the start of a run: makes each, and writes what its initialiser says.
ghost use Rattle.std.specs.Prelude.{◌≡◌, ◌∷◌, true, false, ℕ, List, IfOk, OnOk, IsErrOf};
ghost use Rattle.ms_ir.specs.Layout.{stored_size};
ghost use Rattle.ms_runs.specs.{Memory.{store_number}, World.{World as Meant}};
ghost use Rattle.ms_host.specs.{State.{Beside, Keeps}, Shows.{Shows}};
ghost use Rattle.ms_host.specs.Initial.{Reaches, part_begin, Changes, WritesInit, WritesParts, global_sized, global_fits, MakesGlobal, MakesGlobals, PassesLimit};

use crate::numbers::{rounded, sum};
use crate::worlds::World;
use ms_alloc::{AllocError, AllocKind};
use ms_check_tables::Extents;
use ms_ir::{GlobalVar, Init, Ty};

/// How many bytes a word of a type takes where it is stored.
fn stored_size(ty: &Ty) -> u8
    ensures { result ≡ stored_size ty.now }
{
    match ty {
        Ty::Int(width) => ((u16::from(*width) + 7) / 8) as u8,
        Ty::Ptr => 8,
        _ => 0,
    }
}

/// Where a part of a type begins after the `so_far` bytes of the parts before it, from the start of the array or struct.
fn part_begin(extents: &Extents<'_>, packed: bool, so_far: Option<u64>, ty: &Ty) -> Option<u64>
    ensures { (n : ℕ) → Reaches so_far n → Reaches result (part_begin extents.now packed n ty.now) }
{
    if packed {
        so_far
    } else {
        rounded(so_far, extents.align_of(ty))
    }
}

impl World {
    /// Makes globals, in text order, with the bytes of their initialisers. `extents` are those of the named types, and
    /// `words` are the constants in the initialisers, in text order too; globals with reserved names are none.
    ///
    /// `Full` only where the globals would take more than the limit of their area, and `Ok` only where they don't. The
    /// time is linear in what is written in the initialisers and in the bytes, but for the names of types, which
    /// `NameTable` finds, and the addresses, which are found in logarithmic time.
    pub fn make_globals(
        &mut self,
        extents: &Extents<'_>,
        globals: &[GlobalVar],
        words: &[u64],
    ) -> Result<(), AllocError>
        ensures written { OnOk result (MakesGlobals extents.now globals.now words.now self.old self.new) }
        ensures full { IsErrOf result AllocError.Full → PassesLimit extents.now globals.now words.now self.old }
        ensures keeps { Keeps self.old self.new }
        ensures made { self.new.made ≡ self.old.made }
    {
        let mut left = words;
        for global in globals {
            left = self.make_global(extents, global, left)?;
        }
        Ok(())
    }

    /// Makes a global, whose constants are the first of `words`, and returns the words that are left.
    fn make_global<'a>(
        &mut self,
        extents: &Extents<'_>,
        global: &GlobalVar,
        words: &'a [u64],
    ) -> Result<&'a [u64], AllocError>
        ensures written { IfOk result (λ left. MakesGlobal extents.now global.now words.now left.now self.old self.new) }
        ensures full { IsErrOf result AllocError.Full → (beside : Beside) (world : Meant) → global_sized extents.now global.now ≡ true → Shows self.old beside world → global_fits extents.now global.now world ≡ false }
        ensures keeps { Keeps self.old self.new }
        ensures made { self.new.made ≡ self.old.made }
    {
        if global.name.is_reserved() {
            return Ok(words);
        }
        let Some(size) = extents.size_of(&global.ty) else {
            return Ok(words);
        };
        let base = self.make_zero(AllocKind::Fixed, size)?;
        let left = self.write_init(extents, Some(base), &global.ty, &global.init, words);
        Ok(left)
    }

    /// Writes an initialiser of a type from an address on, whose constants are the first of `words`, and returns the
    /// words that are left.
    #[cycle(initialisers)]
    fn write_init<'a>(
        &mut self,
        extents: &Extents<'_>,
        at: Option<u64>,
        ty: &Ty,
        init: &Init,
        words: &'a [u64],
    ) -> &'a [u64]
        ensures written { WritesInit extents.now at ty.now init.now words.now result.now self.old self.new }
        ensures keeps { Keeps self.old self.new }
        ensures made { self.new.made ≡ self.old.made }
    {
        match init {
            Init::Value(_) => self.write_word(at, stored_size(ty), words),
            Init::Zero => words,
            Init::Text(bytes) => {
                self.initialise_text(at, bytes.as_slice());
                words
            }
            Init::Array(items) => self.write_parts(extents, at, true, items.as_slice(), words),
            Init::Struct(packed, fields) => {
                self.write_parts(extents, at, *packed, fields.as_slice(), words)
            }
        }
    }

    /// Writes the parts of an array or a struct in the same way; an array's are `packed`.
    #[cycle(initialisers)]
    fn write_parts<'a>(
        &mut self,
        extents: &Extents<'_>,
        at: Option<u64>,
        packed: bool,
        parts: &[(Ty, Init)],
        words: &'a [u64],
    ) -> &'a [u64]
        ensures written { WritesParts extents.now at packed parts.now words.now result.now self.old self.new }
        ensures keeps { Keeps self.old self.new }
        ensures made { self.new.made ≡ self.old.made }
    {
        let mut left = words;
        let mut so_far = Some(0);
        for (ty, init) in parts {
            let begin = part_begin(extents, packed, so_far, ty);
            left = self.write_init(extents, sum(at, begin), ty, init, left);
            so_far = sum(begin, extents.size_of(ty));
        }
        left
    }

    /// Writes the `n` low bytes of the first of `words` at an address, and returns the other words.
    fn write_word<'a>(&mut self, at: Option<u64>, n: u8, words: &'a [u64]) -> &'a [u64]
        ensures written { (v : ℕ) (rest : List ℕ) → words.now ≡ v ∷ rest → (result.now ≡ rest) × Changes self.old self.new at (λ a. store_number a n v) }
        ensures keeps { Keeps self.old self.new }
        ensures made { self.new.made ≡ self.old.made }
    {
        if words.is_empty() {
            return words;
        }
        self.initialise_number(at, n, words[0]);
        &words[1..]
    }
}
