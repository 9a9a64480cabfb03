//! Whether a module has the function with which a run begins.
ghost use Rattle.std.specs.Prelude.{◌≡◌, Some};
ghost use Rattle.ms_ir.specs.{declared.syntax.Ty.{Int}, Equal.{result_type_eq}};
ghost use Rattle.ms_check_valid.specs.HasMain.{is_main, defines_main};

use ms_ir::{Func, Module, Ty};

/// Whether the type of a result is `i32`.
fn is_word(ret: &Option<Ty>) -> bool
    ensures { result ≡ result_type_eq ret.now (Some (Int 32)) }
{
    match ret {
        Some(Ty::Int(width)) => *width == 32,
        _ => false,
    }
}

/// Whether a function is `i32 @main()`.
fn is_main(func: &Func) -> bool
    ensures { result ≡ is_main func.now }
{
    func.name.is(b"main") && is_word(&func.ret) && func.params.as_slice().is_empty()
}

/// Whether a module defines `i32 @main()`, with which its runs begin.
pub fn defines_main(m: &Module) -> bool
    ensures { result ≡ defines_main m.now }
{
    m.funcs.as_slice().iter().any(is_main)
}
