//! The answer to a call of `printf`. Runs call `answer_typed`; `answer_printf` is for callers that have a module and not its
//! code, here tests. `made` of a world counts the uninitialised bytes so far.
ghost use Rattle.std.specs.Prelude.{◌≡◌, map, Some, get_or, IfOk};
ghost use Rattle.ms_ir.specs.{declared.syntax.Inst.{Inst as InstOf}};
ghost use Rattle.ms_ir.specs.{declared.places.Place.{Place as PlaceOf}, Instructions.{operands}};
ghost use Rattle.ms_ir.specs.Places.{HasSmallNumbers, IsPlaceOf, inst_at};
ghost use Rattle.ms_runs.specs.{World.{World as Meant}, Externals.{formatted, prints}};
ghost use Rattle.ms_host.specs.{State.{Beside, Keeps}, Shows.{Shows}, Answers.{Answered}};

use crate::arguments::{op_at, operand_types};
use crate::printing::{measured, print_rest};
use crate::walks::Walk;
use ms_bits::{NoMemory, Trap};
use ms_host::{Answer, HostCall, World};
use ms_ir::{Module, Ty};
use ms_runs::End;
use std::alloc::Global;

/// The answer that ends the run by a trap, at this site.
fn ended(kind: Trap, site: u32) -> Answer
    ensures { result ≡ Answer.Ended (End.Trap kind site) }
{
    Answer::Ended(End::Trap { kind, site })
}

/// The first argument's word, which is the address of the format; 0 where it is missing.
fn first_word(words: &[u64]) -> u64
    ensures { result ≡ get_or words.now 0 0 }
{
    if words.is_empty() { 0 } else { words[0] }
}

/// What a call at a site comes to whose arguments have these types and words.
fn answer_call(
    alloc: Global,
    types: &[Ty],
    site: u32,
    words: &[u64],
    world: &mut World,
) -> Result<Answer, NoMemory>
    ensures answered { (beside : Beside) (meant : Meant) → Shows world.old beside meant → IfOk result (λ a. Answered beside (prints site (formatted meant types.now words.now) meant) a world.new) }
    ensures keeps { Keeps world.old world.new }
    ensures made { world.new.made ≡ world.old.made }
{
    let addr = first_word(words);
    let Some(left) = world.string_length(addr) else {
        return Ok(ended(Trap::BadAddress, site));
    };
    let format = Walk {
        addr,
        left,
        next: 1,
    };
    let total = match measured(alloc, world, format, types, words)? {
        Ok(total) => total,
        Err(fault) => return Ok(ended(fault.trap(), site)),
    };
    if !world.has_room(total) {
        return Ok(ended(Trap::Output, site));
    }
    print_rest(alloc, world, format, types, words)?;
    Ok(Answer::Resumed(Some(total)))
}

/// Answers a call of `printf` whose arguments have these types: prints what its format says of them and returns the number of
/// bytes, or ends the run by a trap and prints nothing.
///
/// The traps are `bad-address` where the format, or a string for which it asks, has no zero byte in its allocation; else
/// `format` where the format is bad or an argument is missing or of another type; else `output` where the bytes would pass
/// the limit of the output. Where memory runs out the run is over. Linear in the format and the strings; what is printed is
/// measured first and never collected.
pub fn answer_typed(
    alloc: Global,
    types: &[Ty],
    call: &HostCall,
    world: &mut World,
) -> Result<Answer, NoMemory>
    ensures answered { (beside : Beside) (meant : Meant) → Shows world.old beside meant → IfOk result (λ a. Answered beside (prints call.now.site (formatted meant types.now call.now.args) meant) a world.new) }
    ensures keeps { Keeps world.old world.new }
    ensures made { world.new.made ≡ world.old.made }
{
    answer_call(alloc, types, call.site, call.args.as_slice(), world)
}

/// Answers a call of `printf` in a module as `answer_typed` does. The types of its arguments are those of the unmarked
/// instruction with the call's site, which is looked for in the module.
pub fn answer_printf(
    alloc: Global,
    m: &Module,
    call: &HostCall,
    world: &mut World,
) -> Result<Answer, NoMemory>
    requires small { HasSmallNumbers m.now }
    ensures answered { (place : PlaceOf) (inst : InstOf) → IsPlaceOf m.now call.now.site place → inst_at m.now place ≡ Some inst → (beside : Beside) (meant : Meant) → Shows world.old beside meant
        → IfOk result (λ a. Answered beside (prints call.now.site (formatted meant (map (λ o. o.0) (operands inst.op)) call.now.args) meant) a world.new) }
    ensures keeps { Keeps world.old world.new }
    ensures made { world.new.made ≡ world.old.made }
{
    let Some(op) = op_at(m, call.site) else {
        return Ok(ended(Trap::Format, call.site));
    };
    let types = operand_types(alloc, op)?;
    answer_typed(alloc, types.as_slice(), call, world)
}
