//! Modules of LLVM assembly as data, what is computed on them, and the definitions that every contract of this
//! repository cites: sizes of types and places of their parts, the numbers of instructions, the roots, and what is left
//! without inserted code.
#![tactic(auto)]

pub mod areas;
pub mod calls;
pub mod copying;
pub mod counts;
pub mod equality;
mod extents;
mod externals;
pub mod forms;
pub mod layouts;
mod numbers;
pub mod operations;
mod parts;
pub mod places;
mod rooting;
mod rows;
mod runtime;
mod sites;
mod slots;
pub mod spelling;
mod stripping;
pub mod syntax;
pub mod thread_safety;
pub mod value_types;
mod widths;
pub mod word_externals;

pub use calls::{External, RuntimeFn, Slot};
pub use equality::same_operand;
pub use extents::{align_of, offset_of, parts_of, size_of};
pub use forms::Form;
pub use numbers::{has_small_numbers, sites_of_funcs};
pub use places::{Place, Root, RootKind};
pub use rooting::roots;
pub use runtime::runtime_declarations;
pub use sites::{place_of, site_of};
pub use slots::{is_slot, slot_globals};
pub use stripping::strip;
pub use syntax::{Block, Decl, Func, GlobalVar, Init, Inst, Module, Name, Op, Operand, Ty};
pub use value_types::ValueType;
pub use widths::{is_int, width_of};
