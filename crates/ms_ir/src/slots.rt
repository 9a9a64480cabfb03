//! The slots, globals that hand masks and origins over at calls, with names, types and places in memory.
ghost use Rattle.std.specs.Prelude.{◌≡◌, map, is_some, IfOk};
ghost use Rattle.ms_ir.specs.declared.syntax.Name.TheVariants as spelling;
ghost use Rattle.ms_ir.specs.declared.syntax.Init as initial;
ghost use Rattle.ms_ir.specs.declared.syntax.Operand.TheVariants as constant;
ghost use Rattle.ms_ir.specs.declared.syntax.Ty as type;
ghost use Rattle.ms_ir.specs.Names.{lookup, slot_names, slots, slot_name, slot_room};
ghost use Rattle.ms_ir.specs.Signatures.{variable, slot_global, slot_globals};

use crate::areas::FIRST_SLOT;
use crate::calls::Slot;
use crate::rows::name_of;
use crate::syntax::{GlobalVar, Init, Name, Operand, Ty};
use ms_bits::{Boxed, List, NoMemory};
use std::alloc::Global;

/// The slots in the order in which an instrumented module declares them.
static SLOTS: [Slot; 4] = [
    Slot::ParamMasks,
    Slot::ParamOrigins,
    Slot::RetvalMask,
    Slot::RetvalOrigin,
];

/// How many arguments the slots of parameters hold.
const ARGUMENTS: u64 = 100;

/// The slot of that name as an array of words of `width` bits, one for each argument, all 0 at first.
fn array_slot(alloc: Global, name: &[u8], width: u8) -> Result<GlobalVar, NoMemory>
    ensures { IfOk result (λ g. g ≡ variable (spelling.Text name.now) (type.Array 100 (type.Int width)) initial.Zero) }
{
    let name = name_of(alloc, name)?;
    let item = Boxed::new(alloc, Ty::Int(width))?;
    Ok(GlobalVar {
        name,
        constant: false,
        ty: Ty::Array(ARGUMENTS, item),
        init: Init::Zero,
    })
}

/// The slot of that name as one word of `width` bits, 0 at first.
fn word_slot(alloc: Global, name: &[u8], width: u8) -> Result<GlobalVar, NoMemory>
    ensures { IfOk result (λ g. g ≡ variable (spelling.Text name.now) (type.Int width) (initial.Value (constant.Int 0))) }
{
    let name = name_of(alloc, name)?;
    Ok(GlobalVar {
        name,
        constant: false,
        ty: Ty::Int(width),
        init: Init::Value(Operand::Int(0)),
    })
}

/// The first of some slots with a name, if there is one.
fn find(slots: &[Slot], text: &[u8]) -> Option<Slot>
    ensures { result ≡ lookup (map (λ s. (slot_name s, s)) slots.now) (spelling.Text text.now) }
{
    for slot in slots {
        if slot.name() == text {
            return Some(*slot);
        }
    }
    None
}

impl Slot {
    /// Its name.
    pub fn name(self) -> &'static [u8]
        ensures { spelling.Text result.now ≡ slot_name self }
    {
        match self {
            Slot::ParamMasks => b"__msan_param_tls",
            Slot::ParamOrigins => b"__msan_param_origin_tls",
            Slot::RetvalMask => b"__msan_retval_tls",
            Slot::RetvalOrigin => b"__msan_retval_origin_tls",
        }
    }

    /// Its address.
    pub fn address(self) -> u64
        ensures { result ≡ (slot_room self).0 }
    {
        match self {
            Slot::ParamMasks => FIRST_SLOT,
            Slot::ParamOrigins => 0x6800_0000_1000,
            Slot::RetvalMask => 0x6800_0000_2000,
            Slot::RetvalOrigin => 0x6800_0000_3000,
        }
    }

    /// Its number of bytes.
    pub fn size(self) -> u64
        ensures { result ≡ (slot_room self).1 }
    {
        match self {
            Slot::ParamMasks => 800,
            Slot::ParamOrigins => 400,
            Slot::RetvalMask => 8,
            Slot::RetvalOrigin => 4,
        }
    }

    /// The slot with a text as its name, if there is one.
    pub fn spelled(text: &[u8]) -> Option<Slot>
        ensures { result ≡ lookup slot_names (spelling.Text text.now) }
    {
        find(&SLOTS, text)
    }

    /// The slot with a name, if there is one.
    pub fn named(name: &Name) -> Option<Slot>
        ensures { result ≡ lookup slot_names name.now }
    {
        match name {
            Name::Number(_) => None,
            Name::Text(text) => Slot::spelled(text.as_slice()),
        }
    }

    /// The slot as it is declared.
    pub fn declaration(self, alloc: Global) -> Result<GlobalVar, NoMemory>
        ensures { IfOk result (λ g. g ≡ slot_global self) }
    {
        match self {
            Slot::ParamMasks => array_slot(alloc, self.name(), 64),
            Slot::ParamOrigins => array_slot(alloc, self.name(), 32),
            Slot::RetvalMask => word_slot(alloc, self.name(), 64),
            Slot::RetvalOrigin => word_slot(alloc, self.name(), 32),
        }
    }
}

/// Whether a text is the name of a slot.
pub fn is_slot(text: &[u8]) -> bool
    ensures { result ≡ is_some (lookup slots (spelling.Text text.now)) }
{
    Slot::spelled(text).is_some()
}

/// These slots as they are declared.
fn globals_of(alloc: Global, slots: &[Slot]) -> Result<List<GlobalVar>, NoMemory>
    ensures { IfOk result (λ gs. gs ≡ map slot_global slots.now) }
{
    let mut globals = Vec::with_capacity(alloc, slots.len())?;
    for slot in slots {
        globals.push(slot.declaration(alloc)?)?;
    }
    Ok(List::from_vec(globals))
}

/// The slots as an instrumented module declares them.
pub fn slot_globals(alloc: Global) -> Result<List<GlobalVar>, NoMemory>
    ensures { IfOk result (λ gs. gs ≡ slot_globals) }
{
    globals_of(alloc, &SLOTS)
}
