//! Accepted programs.
ghost use Rattle.std.specs.Prelude.{◌≡◌, None};
ghost use Rattle.inform_tree.specs.Programs.{program_of};
ghost use Rattle.inform_names.specs.Acceptance.{name_fault};

use inform_tree::{Program, Width};

/// A program without a fault, where words have this width.
#[derive(Drop)]
pub struct Accepted {
    program: Program,
    width: Width,
    pub ghost accepted: { name_fault width (program_of program) ≡ None },
}

impl Accepted {
    /// A program of which it is known that it has no fault, be it by a test or by a law.
    pub fn of(program: Program, width: Width) -> Accepted
        requires { name_fault width (program_of program) ≡ None }
        ensures program { result.program ≡ program }
        ensures width { result.width ≡ width }
    {
        Accepted { program, width }
    }

    /// The program.
    pub fn program(&self) -> &Program
        ensures { result.now ≡ self.now.program }
    {
        &self.program
    }

    /// The program, handed back.
    pub fn into_program(self) -> Program
        ensures { result ≡ self.program }
    {
        let Accepted { program, width: _ } = self;
        program
    }

    /// The width of its words.
    pub fn width(&self) -> Width
        ensures { result ≡ self.now.width }
    {
        self.width
    }
}
