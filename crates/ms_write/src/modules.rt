//! Writes modules, in the order of their kinds: named types, globals, declarations, functions, and the last line of a module
//! with marks (LLVM Language Reference, "Module Structure"; own: the order).
ghost use Rattle.std.specs.{Prelude.{◌≡◌, ◌++◌, [], ◌∷◌, IfOk, codes, flat_map, map}, List.{list_any}};
ghost use Rattle.ms_text_grammar.specs.LayoutModules.{global_word as global_word_of, type_line, global_line, is_one_pointer as is_one_pointer_of, is_dotted as is_dotted_of, declaration_line, function_lines, has_dots as has_dots_of, has_mark_in as has_mark_in_of, has_mark as has_mark_of, module_lines, mark_pieces, written, dots};
ghost use Rattle.ms_text_grammar.specs.{LayoutNames.{global_token}, LayoutPieces.{enclosed, render, sign, word}};
ghost use Rattle.ms_text_grammar.specs.{LayoutTypes.{result_tokens, type_tokens}, LayoutValues.{init_tokens}};
ghost use Rattle.ms_text_grammar.specs.Types.{is_ptr as is_ptr_of};
ghost use Rattle.ms_write_values.specs.{Parts.{dot_tokens}, Sheets.{grown, put, put_line, put_lines}};

use crate::functions::write_function_lines;
use crate::operations::{gives_i32, names_printf};
use ms_bits::NoMemory;
use ms_ir::{Block, Decl, Func, GlobalVar, Module, Name, Ty};
use ms_write_values::Writer;
use std::alloc::Global;

/// Whether a type is `ptr`.
fn is_ptr(ty: &Ty) -> bool
    ensures { result ≡ is_ptr_of ty.now }
{
    match ty {
        Ty::Ptr => true,
        _ => false,
    }
}

/// Whether these are one pointer and no more.
fn is_one_pointer(types: &[Ty]) -> bool
    ensures { result ≡ is_one_pointer_of types.now }
{
    match types {
        [ty] => is_ptr(ty),
        _ => false,
    }
}

/// Whether a declaration is that of `printf`, which takes further arguments.
#[tactic(auto, unfolding(ms_text_grammar::specs::LayoutModules::is_dotted))]
fn is_dotted(decl: &Decl) -> bool
    ensures { result ≡ is_dotted_of decl.now }
{
    names_printf(&decl.name) && gives_i32(&decl.ret) && is_one_pointer(decl.params.as_slice())
}

/// Whether calls of `printf` are written with `(ptr, ...)`: it is declared, with `...`.
#[tactic(auto, unfolding(ms_text_grammar::specs::LayoutModules::has_dots))]
fn has_dots(m: &Module) -> bool
    ensures { result ≡ has_dots_of m.now }
{
    m.decls.as_slice().iter().any(|decl| is_dotted(decl))
}

/// Whether some instruction of a block is marked.
fn has_mark_within(block: &Block) -> bool
    ensures { result ≡ list_any (λ inst. inst.marked) block.now.insts }
{
    block.insts.as_slice().iter().any(|inst| inst.marked)
}

/// Whether some instruction of a function is marked.
fn has_mark_in(func: &Func) -> bool
    ensures { result ≡ has_mark_in_of func.now }
{
    func.blocks
        .as_slice()
        .iter()
        .any(|block| has_mark_within(block))
}

/// Whether some instruction is marked.
#[tactic(auto, unfolding(ms_text_grammar::specs::LayoutModules::has_mark))]
fn has_mark(m: &Module) -> bool
    ensures { result ≡ has_mark_of m.now }
{
    m.funcs.as_slice().iter().any(|func| has_mark_in(func))
}

/// The word that says whether a global is constant.
fn global_word(constant: bool) -> &'static [u8]
    ensures { result.now ≡ global_word_of constant }
{
    if constant { b"constant" } else { b"global" }
}

/// Writes a named type in a line of its own.
#[tactic(auto, unfolding(ms_text_grammar::specs::LayoutModules::type_line))]
fn write_type_line(writer: &mut Writer, named: &(Name, Ty)) -> Result<(), NoMemory>
    ensures { IfOk result (λ _. writer.new ≡ put_line writer.old (type_line named.now)) }
{
    writer.start_line(b"")?;
    writer.local(&named.0)?;
    writer.token(b"=")?;
    writer.token(b"type")?;
    writer.ty(&named.1)?;
    writer.end_line()
}

/// Writes named types, a line each.
fn write_type_lines(writer: &mut Writer, types: &[(Name, Ty)]) -> Result<(), NoMemory>
    ensures { IfOk result (λ _. writer.new ≡ put_lines writer.old (map type_line types.now)) }
{
    for named in types {
        write_type_line(writer, named)?;
    }
    Ok(())
}

/// Writes the tokens of a global.
#[tactic(auto, using(ms_write_values::proofs::Puts::put_append))]
fn write_global(writer: &mut Writer, global: &GlobalVar) -> Result<(), NoMemory>
    ensures { IfOk result (λ _. writer.new ≡ put writer.old (global_token global.now.name ∷ sign (codes "=") ∷ word (global_word_of global.now.constant) ∷ (type_tokens global.now.ty ++ init_tokens global.now.ty global.now.init))) }
{
    writer.global(&global.name)?;
    writer.token(b"=")?;
    writer.token(global_word(global.constant))?;
    writer.ty(&global.ty)?;
    writer.init(&global.ty, &global.init)
}

/// Writes a global in a line of its own.
#[tactic(auto, unfolding(ms_text_grammar::specs::LayoutModules::global_line))]
fn write_global_line(writer: &mut Writer, global: &GlobalVar) -> Result<(), NoMemory>
    ensures { IfOk result (λ _. writer.new ≡ put_line writer.old (global_line global.now)) }
{
    writer.start_line(b"")?;
    write_global(writer, global)?;
    writer.end_line()
}

/// Writes globals, a line each.
fn write_global_lines(writer: &mut Writer, globals: &[GlobalVar]) -> Result<(), NoMemory>
    ensures { IfOk result (λ _. writer.new ≡ put_lines writer.old (map global_line globals.now)) }
{
    for global in globals {
        write_global_line(writer, global)?;
    }
    Ok(())
}

/// Writes the dots after the parameters of a declaration that has them.
fn write_dots(writer: &mut Writer, dotted: bool) -> Result<(), NoMemory>
    ensures { IfOk result (λ _. writer.new ≡ put writer.old (dot_tokens dotted)) }
{
    if dotted {
        writer.token(b",")?;
        writer.token(b"...")?;
    }
    Ok(())
}

/// Writes the types of a declaration's parameters between parentheses, with dots after them where it has some.
#[tactic(auto, using(ms_write_values::proofs::Puts::put_append, crate::proofs::Dots::put_dots))]
fn write_parameter_types(writer: &mut Writer, decl: &Decl) -> Result<(), NoMemory>
    ensures { IfOk result (λ _. writer.new ≡ put writer.old (enclosed (codes "(") (codes ")") (map type_tokens decl.now.params ++ dots (is_dotted_of decl.now)))) }
{
    writer.token(b"(")?;
    writer.types(decl.params.as_slice())?;
    write_dots(writer, is_dotted(decl))?;
    writer.token(b")")
}

/// Writes the tokens of a declaration.
#[tactic(auto, using(ms_write_values::proofs::Puts::put_append))]
fn write_declaration(writer: &mut Writer, decl: &Decl) -> Result<(), NoMemory>
    ensures { IfOk result (λ _. writer.new ≡ put writer.old (word (codes "declare") ∷ (result_tokens decl.now.ret ++ global_token decl.now.name ∷ enclosed (codes "(") (codes ")") (map type_tokens decl.now.params ++ dots (is_dotted_of decl.now))))) }
{
    writer.token(b"declare")?;
    writer.result_type(&decl.ret)?;
    writer.global(&decl.name)?;
    write_parameter_types(writer, decl)
}

/// Writes a declaration in a line of its own.
#[tactic(auto, unfolding(ms_text_grammar::specs::LayoutModules::declaration_line))]
fn write_declaration_line(writer: &mut Writer, decl: &Decl) -> Result<(), NoMemory>
    ensures { IfOk result (λ _. writer.new ≡ put_line writer.old (declaration_line decl.now)) }
{
    writer.start_line(b"")?;
    write_declaration(writer, decl)?;
    writer.end_line()
}

/// Writes declarations, a line each.
fn write_declaration_lines(writer: &mut Writer, decls: &[Decl]) -> Result<(), NoMemory>
    ensures { IfOk result (λ _. writer.new ≡ put_lines writer.old (map declaration_line decls.now)) }
{
    for decl in decls {
        write_declaration_line(writer, decl)?;
    }
    Ok(())
}

/// Writes functions one after the other; `dotted` says whether calls of `printf` are written with `(ptr, ...)`.
#[tactic(auto, using(ms_write_values::proofs::Puts::put_lines_append))]
fn write_functions(writer: &mut Writer, dotted: bool, funcs: &[Func]) -> Result<(), NoMemory>
    ensures { IfOk result (λ _. writer.new ≡ put_lines writer.old (flat_map (function_lines dotted) funcs.now)) }
{
    for func in funcs {
        write_function_lines(writer, dotted, func)?;
    }
    Ok(())
}

/// Writes the lines of a module: types, globals, declarations, functions.
#[tactic(auto, using(ms_write_values::proofs::Puts::put_lines_append), unfolding(ms_text_grammar::specs::LayoutModules::module_lines))]
fn write_module_lines(writer: &mut Writer, m: &Module) -> Result<(), NoMemory>
    ensures { IfOk result (λ _. writer.new ≡ put_lines writer.old (module_lines m.now)) }
{
    write_type_lines(writer, m.types.as_slice())?;
    write_global_lines(writer, m.globals.as_slice())?;
    write_declaration_lines(writer, m.decls.as_slice())?;
    write_functions(writer, has_dots(m), m.funcs.as_slice())
}

/// Writes the node of metadata that every mark names, if some instruction is marked.
#[tactic(auto, unfolding(ms_text_grammar::specs::LayoutModules::mark_pieces))]
fn write_marks(writer: &mut Writer, marked: bool) -> Result<(), NoMemory>
    ensures { IfOk result (λ _. writer.new ≡ grown writer.old (render (mark_pieces marked))) }
{
    if marked {
        writer.more(b"!0 = !{}\n")?;
    }
    Ok(())
}

/// The text of a module, in its layout: no instruction goes without its mark, no result that a name is bound to without its
/// name, and reading the text gives the module again where the reader's limits hold. It takes time linear in the text, in one
/// buffer that grows.
///
/// # Errors
///
/// `NoMemory` where the buffer cannot grow.
#[tactic(auto, using(crate::proofs::Whole::text_of_module))]
pub fn write(alloc: Global, m: &Module) -> Result<Vec<u8>, NoMemory>
    ensures { IfOk result (λ text. text.items ≡ written m.now) }
{
    let mut writer = Writer::new(alloc);
    write_module_lines(&mut writer, m)?;
    write_marks(&mut writer, has_mark(m))?;
    Ok(writer.into_bytes())
}
