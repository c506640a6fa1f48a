//! The laws of simplified programs. Each is the contract of a function that does nothing else.
ghost use Rattle.inform_simplify.specs.Laws.{RunsShorter, ShortenedHasNoRedex, ShortenedIsSimpler, ShortenedStaysSound};

use inform_names::laws::faultless_places_are_fine;

/// A simplified program runs like the one that it was made of, in at most as many steps.
pub fn runs_shorter()
    ensures { RunsShorter }
{}

/// And it has no redex, at any depth.
pub fn shortened_has_no_redex()
    ensures { ShortenedHasNoRedex }
{}

/// It is accepted and well formed where that one is, and has the same directives but for the bodies
/// of its routines.
pub fn shortened_stays_sound()
    ensures { ShortenedStaysSound }
{
    faultless_places_are_fine();
}

/// So what an accepted program shortens to is simpler.
pub fn shortened_is_simpler()
    ensures { ShortenedIsSimpler }
{
    runs_shorter();
    shortened_has_no_redex();
    shortened_stays_sound();
}
