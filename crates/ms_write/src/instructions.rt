//! Writes instructions with their results and marks, a line each. `dotted` says whether calls of `printf` are written with dots,
//! as `(ptr, ...)`.
ghost use Rattle.std.specs.Prelude.{◌≡◌, IfOk, map};
ghost use Rattle.ms_text_grammar.specs.LayoutInsts.{named_tokens, mark_tokens, inst_tokens, inst_line};
ghost use Rattle.ms_write_values.specs.Sheets.{put, put_line, put_lines};

use crate::operations::write_op;
use ms_bits::NoMemory;
use ms_ir::{Inst, Name};
use ms_write_values::Writer;

/// Writes the name of a result, if there is one.
fn write_result_name(writer: &mut Writer, name: &Option<Name>) -> Result<(), NoMemory>
    ensures { IfOk result (λ _. writer.new ≡ put writer.old (named_tokens name.now)) }
{
    if let Some(name) = name {
        writer.local(name)?;
        writer.token(b"=")?;
    }
    Ok(())
}

/// Writes the mark of an inserted instruction, if it is one.
fn write_mark(writer: &mut Writer, marked: bool) -> Result<(), NoMemory>
    ensures { IfOk result (λ _. writer.new ≡ put writer.old (mark_tokens marked)) }
{
    if marked {
        writer.mark()?;
    }
    Ok(())
}

/// Writes the tokens of an instruction: its result's name, what it does, and its mark.
#[tactic(auto, using(ms_write_values::proofs::Puts::put_append), unfolding(ms_text_grammar::specs::LayoutInsts::inst_tokens))]
fn write_inst(writer: &mut Writer, dotted: bool, inst: &Inst) -> Result<(), NoMemory>
    ensures { IfOk result (λ _. writer.new ≡ put writer.old (inst_tokens dotted inst.now)) }
{
    write_result_name(writer, &inst.result)?;
    write_op(writer, dotted, &inst.op)?;
    write_mark(writer, inst.marked)
}

/// Writes an instruction in a line of its own.
fn write_inst_line(writer: &mut Writer, dotted: bool, inst: &Inst) -> Result<(), NoMemory>
    ensures { IfOk result (λ _. writer.new ≡ put_line writer.old (inst_line dotted inst.now)) }
{
    writer.start_line(b"  ")?;
    write_inst(writer, dotted, inst)?;
    writer.end_line()
}

/// Writes instructions, a line each.
pub fn write_inst_lines(writer: &mut Writer, dotted: bool, insts: &[Inst]) -> Result<(), NoMemory>
    ensures { IfOk result (λ _. writer.new ≡ put_lines writer.old (map (inst_line dotted) insts.now)) }
{
    for inst in insts {
        write_inst_line(writer, dotted, inst)?;
    }
    Ok(())
}
