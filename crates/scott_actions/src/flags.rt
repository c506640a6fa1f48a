//! What opcodes do to flags.
ghost use Rattle.std.specs.Prelude.{◌≡◌};
ghost use Rattle.scott_rules.specs.Opcodes.{flag_changed};

use scott_types::places::DARK_FLAG;
use scott_types::{FlagOp, State};

/// An opcode that sets or clears a flag does so with its parameter.
pub fn change_flag(state: &mut State, op: FlagOp, p: u32)
    ensures { state.new ≡ flag_changed op p state.old }
{
    match op {
        FlagOp::Darken => state.flags[DARK_FLAG as usize] = true,
        FlagOp::Lighten => state.flags[DARK_FLAG as usize] = false,
        FlagOp::SetFlag => {
            if p < 32 {
                state.flags[p as usize] = true;
            }
        }
        FlagOp::ClearFlag => {
            if p < 32 {
                state.flags[p as usize] = false;
            }
        }
        FlagOp::SetZero => state.flags[0] = true,
        FlagOp::ClearZero => state.flags[0] = false,
    }
}
