//! What opcodes do to the counter.
ghost use Rattle.std.specs.Prelude.{◌≡◌, ◌≤ℤ◌, negsuc, pos};
ghost use Rattle.std.specs.Int.{int_min, int_max};
ghost use Rattle.scott_rules.specs.Opcodes.{with_backup_counter, counter_changed};

use scott_types::{CounterOp, State};

// A count from -1 on, at most 32767.
fn capped(count: i64) -> i16
    requires { negsuc 0 ≤ℤ count }
    ensures { result ≡ int_min count (pos 32767) }
{
    if 32767 < count { 32767 } else { count as i16 }
}

// A count up to 32767, at least -1.
fn floored(count: i64) -> i16
    requires { count ≤ℤ pos 32767 }
    ensures { result ≡ int_max count (negsuc 0) }
{
    if count < -1 { -1 } else { count as i16 }
}

fn swap_backup(state: &mut State, backup: u32)
    ensures { state.new ≡ with_backup_counter backup state.old }
{
    if backup < 16 {
        let counter = state.counter;
        state.counter = state.counters[backup as usize];
        state.counters[backup as usize] = counter;
    }
}

/// An opcode that changes the counter does so with its parameter.
pub fn change_counter(state: &mut State, op: CounterOp, p: u32)
    requires { negsuc 0 ≤ℤ state.old.counter }
    ensures { state.new ≡ counter_changed op p state.old }
{
    let counter = i64::from(state.counter);
    let amount = i64::from(p);
    match op {
        CounterOp::Down => {
            if 0 <= state.counter {
                state.counter -= 1;
            }
        }
        CounterOp::SetCounter => state.counter = capped(amount),
        CounterOp::SwapCounter => swap_backup(state, p),
        CounterOp::Add => state.counter = capped(counter + amount),
        CounterOp::Subtract => state.counter = floored(counter - amount),
    }
}
