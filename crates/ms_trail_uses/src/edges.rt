//! The edge that a jump of a traced run takes, by the words that it reads.
ghost use Rattle.std.specs.Prelude.{length, MatchOption};
ghost use Rattle.ms_machine_frames.specs.Meaning.{IsJump};
ghost use Rattle.ms_trail_masks.specs.Views.{IsView};
ghost use Rattle.ms_trail_uses.specs.Taken.{HasCondition, IsTaken};

use ms_machine_code::{Code, Edge};
use ms_machine_frames::edge_by;
use ms_trail_masks::{View, value_of};

/// The edge that an instruction takes, if it is a jump.
pub fn taken<'a>(view: &View<'_>, code: &'a Code) -> Option<&'a Edge>
    requires view { IsView view.now }
    requires condition { HasCondition (length view.now.values.now) code.now }
    ensures taken { MatchOption result (¬ IsJump code.now) (λ e. IsTaken view.now.fill.now view.now.values.now code.now e.now) }
    ensures jumps { MatchOption result (Unit {0}) (λ e. IsJump code.now) }
{
    match code {
        Code::Jump { edge } => Some(edge),
        Code::Branch { cond, taken, other } => {
            if value_of(view, 64, *cond) == 0 {
                Some(other)
            } else {
                Some(taken)
            }
        }
        Code::Switch {
            value,
            cases,
            other,
        } => Some(edge_by(cases.as_slice(), value_of(view, 64, *value), other)),
        _ => None,
    }
}
