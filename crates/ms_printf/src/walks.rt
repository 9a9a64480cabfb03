//! Walks along a format that stands in memory. Nothing of the format is copied.
ghost use Rattle.std.specs.Prelude.{◌≡◌, ◌<◌, IfOk, IfSome};
ghost use Rattle.ms_runs.specs.World.{World as Meant};
ghost use Rattle.ms_host.specs.{State.{Beside}, Shows.{Shows}};
ghost use Rattle.ms_printf.specs.Walks.{IsWalk, IsReadable, GoesOn};

use crate::arguments::argument_at;
use crate::parts::{FormatPart, part_at};
use crate::shown::{FormatFault, Shown, directive_shown};
use ms_bits::NoMemory;
use ms_host::World;
use ms_ir::Ty;
use std::alloc::Global;

/// How far a format was walked.
#[derive(Clone, Copy)]
pub(crate) struct Walk {
    /// Where the rest of the format begins.
    pub addr: u64,
    /// How many bytes the rest has.
    pub left: u64,
    /// The number of the next argument; the format is argument 0.
    pub next: usize,
}

impl Walk {
    /// What the next part comes to with its argument; `None` at the end of the format. A place where the format is bad counts as
    /// the last part, a fault.
    pub fn step(
        &mut self,
        alloc: Global,
        world: &World,
        types: &[Ty],
        words: &[u64],
    ) -> Result<Option<Shown>, NoMemory>
        requires { IsWalk world.now.planes.table self.old }
        ensures shown { (beside : Beside) (meant : Meant) → Shows world.now beside meant → IfOk result (GoesOn meant types.now words.now self.old self.new) }
        ensures walk { IsWalk world.now.planes.table self.new }
        ensures readable { IfOk result (λ o. IfSome o (IsReadable world.now.planes.table)) }
        ensures shorter { IfOk result (λ o. IfSome o (λ s. self.new.left < self.old.left)) }
    {
        if self.left == 0 {
            return Ok(None);
        }
        let Some((part, len)) = part_at(world, self.addr, self.left) else {
            self.left = 0;
            return Ok(Some(Shown::Fault(FormatFault::Format)));
        };
        self.addr += len;
        self.left -= len;
        match part {
            FormatPart::Plain { addr, len } => Ok(Some(Shown::Memory { addr, len })),
            FormatPart::Directive(piece) => {
                let argument = argument_at(types, words, self.next);
                self.next += 1;
                Ok(Some(directive_shown(alloc, world, &piece, argument)?))
            }
        }
    }
}
