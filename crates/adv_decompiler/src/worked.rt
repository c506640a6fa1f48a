//! Worked examples of what is written. Each is the contract of a function that does nothing, and is
//! proved by computing.
ghost use Rattle.adv_decompiler.specs.Worked.{BracketsWritten, TestAfterParameters, SpareParameter, NoRoomForTwo, ZerosWritten, LineWritten, CellWritten};

/// A get and a drop are written with a parameter each.
pub fn brackets_written()
    ensures { BracketsWritten }
{}

/// With a test after the parameters nothing has brackets.
pub fn test_after_parameters()
    ensures { TestAfterParameters }
{}

/// A parameter that no opcode takes is kept.
pub fn spare_parameter()
    ensures { SpareParameter }
{}

/// The parameters in brackets have room among the five conditions.
pub fn no_room_for_two()
    ensures { NoRoomForTwo }
{}

/// Opcodes of number 0 are written before another one.
pub fn zeros_written()
    ensures { ZerosWritten }
{}

/// The line of an action.
pub fn line_written()
    ensures { LineWritten }
{}

/// The plain text of a game with one entry in each list.
pub fn cell_written()
    ensures { CellWritten }
{}
