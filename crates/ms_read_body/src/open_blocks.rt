//! Begins the next block of a body, by its label or without one (LLVM Language Reference, "Functions").

ghost use Rattle.std.specs.Prelude.{◌≡◌, ◌<◌, ◌≤◌, ◌+◌, ◌^◌};
ghost use Rattle.ms_text_grammar.specs.Bodies as spec;

use ms_bits::List;
use ms_ir::Name;
use ms_text_grammar::BodySoFar;
use std::alloc::Global;

/// Whether a block is open, by the name of a body's open block; also whether a result has a name.
pub fn is_open(name: &Option<Name>) -> bool
    ensures { result ≡ spec.is_open name.now }
{
    match name {
        None => false,
        Some(_) => true,
    }
}

/// Begins a block under this name, which takes so many of the function's successive numbers: one, or none for a name of text.
pub fn open_as(alloc: Global, body: &mut BodySoFar, name: Name, numbers: u32)
    requires { body.old.next + numbers < 2 ^ 32 }
    ensures { body.new ≡ spec.opened_as body.old name numbers }
{
    body.name = Some(name);
    body.insts = List::from_vec(Vec::new(alloc));
    body.next += numbers;
    body.phis = true;
}

/// Begins a block without a label, unless one is open.
#[tactic(auto, unfolding(ms_text_grammar::specs::Bodies::opened))]
pub fn open(alloc: Global, body: &mut BodySoFar)
    requires { body.old.next + 1 < 2 ^ 32 }
    ensures exact { body.new ≡ spec.opened body.old }
    ensures next { body.new.next ≤ body.old.next + 1 }
    ensures count { body.new.count ≡ body.old.count }
{
    if body.name.is_none() {
        let number = body.next;
        open_as(alloc, body, Name::Number(number), 1);
    }
}

/// The number of the next value: a block that must begin first takes one.
#[tactic(auto, unfolding(ms_text_grammar::specs::Bodies::opened))]
pub fn next_value(body: &BodySoFar) -> u64
    ensures { result ≡ (spec.opened body.now).next }
{
    match &body.name {
        None => u64::from(body.next) + 1,
        Some(_) => u64::from(body.next),
    }
}

/// Whether a phi may come: in a new block, or after another phi.
#[tactic(auto, unfolding(ms_text_grammar::specs::Bodies::opened))]
pub fn may_phi(body: &BodySoFar) -> bool
    ensures { result ≡ (spec.opened body.now).phis }
{
    match &body.name {
        None => true,
        Some(_) => body.phis,
    }
}
