//! Numbers that are drawn by a linear congruence, and the operation that one stands for.
ghost use Rattle.std.specs.Prelude.{◌≡◌, ◌<◌};
ghost use Rattle.ms_gen.specs.Generator.{draw, next_state, operation_of};

use ms_bits::BinOp;

/// The multiplier of the linear congruence (Knuth's, for 64 bits).
const MULTIPLIER: u64 = 6364136223846793005;

/// Its increment.
const INCREMENT: u64 = 1442695040888963407;

/// Numbers that are drawn one after the other. The state of the next draw follows from the one before.
#[derive(Drop)]
pub struct Draws {
    pub state: u64,
}

impl Draws {
    /// Draws a number below `bound`, from the upper bits of the state: the lower ones repeat soon.
    pub fn draw(&mut self, bound: u64) -> u64
        requires { 0 < bound }
        ensures state { self.new.state ≡ next_state self.old.state }
        ensures value { result ≡ draw 1 self.old.state bound }
        ensures below { result < bound }
    {
        self.state = self.state.wrapping_mul(MULTIPLIER).wrapping_add(INCREMENT);
        (self.state >> 33) % bound
    }
}

/// The operation that a number below 4 stands for.
pub fn operation(number: u64) -> BinOp
    ensures { result ≡ operation_of number }
{
    match number {
        0 => BinOp::And,
        1 => BinOp::Or,
        2 => BinOp::Xor,
        _ => BinOp::Add,
    }
}
