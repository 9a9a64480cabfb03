//! Writes functions with their blocks (LLVM Language Reference, "Functions"). `dotted` says whether calls of `printf` are written
//! with `(ptr, ...)`.
ghost use Rattle.std.specs.Prelude.{◌≡◌, [], ◌∷◌, ◌++◌, IfOk, codes, flat_map, map};
ghost use Rattle.ms_text_grammar.specs.LayoutModules.{parameter_tokens, head_line, entry_label, body_lines, block_lines, blocks_lines, function_lines};
ghost use Rattle.ms_text_grammar.specs.LayoutNames.{global_token};
ghost use Rattle.ms_text_grammar.specs.LayoutPieces.{after_commas, enclosed, flush, sign, with_commas, word};
ghost use Rattle.ms_text_grammar.specs.LayoutTypes.{result_tokens};
ghost use Rattle.ms_write_values.specs.Sheets.{put, put_line, put_lines};

use crate::instructions::write_inst_lines;
use ms_bits::NoMemory;
use ms_ir::{Block, Func, Name, Ty};
use ms_write_values::Writer;

/// Writes a parameter: its type and its name.
#[tactic(auto, using(ms_write_values::proofs::Puts::put_append))]
fn write_parameter(writer: &mut Writer, parameter: &(Ty, Name)) -> Result<(), NoMemory>
    ensures { IfOk result (λ _. writer.new ≡ put writer.old (parameter_tokens parameter.now)) }
{
    writer.ty(&parameter.0)?;
    writer.local(&parameter.1)
}

/// Writes parameters after a comma each.
#[tactic(auto, using(ms_write_values::proofs::Puts::put_append))]
fn write_more_parameters(writer: &mut Writer, parameters: &[(Ty, Name)]) -> Result<(), NoMemory>
    ensures { IfOk result (λ _. writer.new ≡ put writer.old (after_commas (map parameter_tokens parameters.now))) }
{
    for parameter in parameters {
        writer.token(b",")?;
        write_parameter(writer, parameter)?;
    }
    Ok(())
}

/// Writes parameters with commas between.
#[tactic(auto, using(ms_write_values::proofs::Puts::put_append))]
fn write_parameters(writer: &mut Writer, parameters: &[(Ty, Name)]) -> Result<(), NoMemory>
    ensures { IfOk result (λ _. writer.new ≡ put writer.old (with_commas (map parameter_tokens parameters.now))) }
{
    match parameters {
        [] => {}
        [first, rest @ ..] => {
            write_parameter(writer, first)?;
            write_more_parameters(writer, rest)?;
        }
    }
    Ok(())
}

/// Writes parameters between parentheses.
#[tactic(auto, using(ms_write_values::proofs::Puts::put_append))]
fn write_parameter_list(writer: &mut Writer, parameters: &[(Ty, Name)]) -> Result<(), NoMemory>
    ensures { IfOk result (λ _. writer.new ≡ put writer.old (enclosed (codes "(") (codes ")") (map parameter_tokens parameters.now))) }
{
    writer.token(b"(")?;
    write_parameters(writer, parameters)?;
    writer.token(b")")
}

/// Writes the tokens of the head of a function, from `define` to `{`.
#[tactic(auto, using(ms_write_values::proofs::Puts::put_append))]
fn write_head(writer: &mut Writer, func: &Func) -> Result<(), NoMemory>
    ensures { IfOk result (λ _. writer.new ≡ put writer.old (word (codes "define") ∷ (result_tokens func.now.ret ++ global_token func.now.name ∷ (enclosed (codes "(") (codes ")") (map parameter_tokens func.now.params) ++ sign (codes "{") ∷ [])))) }
{
    writer.token(b"define")?;
    writer.result_type(&func.ret)?;
    writer.global(&func.name)?;
    write_parameter_list(writer, func.params.as_slice())?;
    writer.token(b"{")
}

/// Writes the head of a function in a line of its own.
#[tactic(auto, unfolding(ms_text_grammar::specs::LayoutModules::head_line))]
fn write_head_line(writer: &mut Writer, func: &Func) -> Result<(), NoMemory>
    ensures { IfOk result (λ _. writer.new ≡ put_line writer.old (head_line func.now)) }
{
    writer.start_line(b"")?;
    write_head(writer, func)?;
    writer.end_line()
}

/// Writes a block after its label.
#[tactic(auto, unfolding(ms_text_grammar::specs::LayoutModules::block_lines))]
fn write_block_lines(writer: &mut Writer, dotted: bool, block: &Block) -> Result<(), NoMemory>
    ensures { IfOk result (λ _. writer.new ≡ put_lines writer.old (block_lines dotted block.now)) }
{
    writer.label_line(&block.name)?;
    write_inst_lines(writer, dotted, block.insts.as_slice())
}

/// Writes the label of the first block; it has none where its name is a number.
fn write_entry_label(writer: &mut Writer, name: &Name) -> Result<(), NoMemory>
    ensures { IfOk result (λ _. writer.new ≡ put_lines writer.old (entry_label name.now)) }
{
    match name {
        Name::Number(_) => {}
        Name::Text(_) => writer.label_line(name)?,
    }
    Ok(())
}

/// Writes the first block.
#[tactic(auto, using(ms_write_values::proofs::Puts::put_lines_append))]
fn write_entry_lines(writer: &mut Writer, dotted: bool, entry: &Block) -> Result<(), NoMemory>
    ensures { IfOk result (λ _. writer.new ≡ put_lines writer.old (entry_label entry.now.name ++ body_lines dotted entry.now)) }
{
    write_entry_label(writer, &entry.name)?;
    write_inst_lines(writer, dotted, entry.insts.as_slice())
}

/// Writes blocks after the first one.
#[tactic(auto, using(ms_write_values::proofs::Puts::put_lines_append))]
fn write_more_blocks(writer: &mut Writer, dotted: bool, blocks: &[Block]) -> Result<(), NoMemory>
    ensures { IfOk result (λ _. writer.new ≡ put_lines writer.old (flat_map (block_lines dotted) blocks.now)) }
{
    for block in blocks {
        write_block_lines(writer, dotted, block)?;
    }
    Ok(())
}

/// Writes the blocks of a function.
#[tactic(auto, using(ms_write_values::proofs::Puts::put_lines_append))]
fn write_blocks_lines(writer: &mut Writer, dotted: bool, blocks: &[Block]) -> Result<(), NoMemory>
    ensures { IfOk result (λ _. writer.new ≡ put_lines writer.old (blocks_lines dotted blocks.now)) }
{
    match blocks {
        [] => {}
        [entry, rest @ ..] => {
            write_entry_lines(writer, dotted, entry)?;
            write_more_blocks(writer, dotted, rest)?;
        }
    }
    Ok(())
}

/// Writes the line that ends a function.
fn write_last_line(writer: &mut Writer) -> Result<(), NoMemory>
    ensures { IfOk result (λ _. writer.new ≡ put_line writer.old (flush (sign (codes "}") ∷ []))) }
{
    writer.start_line(b"")?;
    writer.token(b"}")?;
    writer.end_line()
}

/// Writes a function: its head, its blocks, and the last line.
#[tactic(auto, using(ms_write_values::proofs::Puts::put_lines_append), unfolding(ms_text_grammar::specs::LayoutModules::function_lines))]
pub fn write_function_lines(writer: &mut Writer, dotted: bool, func: &Func) -> Result<(), NoMemory>
    ensures { IfOk result (λ _. writer.new ≡ put_lines writer.old (function_lines dotted func.now)) }
{
    write_head_line(writer, func)?;
    write_blocks_lines(writer, dotted, func.blocks.as_slice())?;
    write_last_line(writer)
}
