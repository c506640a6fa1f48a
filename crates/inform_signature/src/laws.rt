//! The laws of signatures. Each is the contract of a function that does nothing else.
ghost use Rattle.inform_signature.specs.Laws.{MetDemandsAreFine, SoundRoutinesAreFaultless, SignatureIsKnown, SoundProgramsAreAccepted};

use inform_names::laws::{meanings_are_first, meanings_are_of_directives};

/// Where the names of a signature are known, what the signature meets has no fault.
pub fn met_demands_are_fine()
    ensures { MetDemandsAreFine }
{}

/// A routine that is sound under a signature has no fault where the signature is known.
pub fn sound_routines_are_faultless()
    ensures { SoundRoutinesAreFaultless }
{}

/// A program in which no two directives have one name, and none is a constant, knows the signature
/// of its directives.
pub fn signature_is_known()
    ensures { SignatureIsKnown }
{
    meanings_are_first();
    meanings_are_of_directives();
}

/// Such a program is accepted where each of its directives is sound.
pub fn sound_programs_are_accepted()
    ensures { SoundProgramsAreAccepted }
{
    meanings_are_first();
}
