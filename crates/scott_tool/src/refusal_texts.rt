//! What is said where a request isn't done, piece by piece.
ghost use Rattle.std.specs.Prelude.{◌≡◌};
ghost use Rattle.scott_tool.specs.Refusal.{usage, cannot_read, cannot_write, after_name, longer_than, bytes_end, line_end, no_position, waits_for_draw, no_routine};

/// The line that tells how the program is called.
#[tactic(auto, unfolding(crate::specs::Refusal::usage))]
pub fn usage<'a>() -> &'a [u8]
    ensures { result.now ≡ usage }
{
    b"usage: scott check F | compile S F | decompile F S | play F | translate F G | run G\
    \x20| demo N | hall F N | transfer F P G | simplify G H | step G | cover F | calls G\n"
}

#[tactic(auto, unfolding(crate::specs::Refusal::cannot_read))]
pub fn cannot_read<'a>() -> &'a [u8]
    ensures { result.now ≡ cannot_read }
{
    b"cannot read "
}

#[tactic(auto, unfolding(crate::specs::Refusal::cannot_write))]
pub fn cannot_write<'a>() -> &'a [u8]
    ensures { result.now ≡ cannot_write }
{
    b"cannot write "
}

#[tactic(auto, unfolding(crate::specs::Refusal::after_name))]
pub fn after_name<'a>() -> &'a [u8]
    ensures { result.now ≡ after_name }
{
    b": "
}

#[tactic(auto, unfolding(crate::specs::Refusal::longer_than))]
pub fn longer_than<'a>() -> &'a [u8]
    ensures { result.now ≡ longer_than }
{
    b": longer than "
}

#[tactic(auto, unfolding(crate::specs::Refusal::bytes_end))]
pub fn bytes_end<'a>() -> &'a [u8]
    ensures { result.now ≡ bytes_end }
{
    b" bytes\n"
}

#[tactic(auto, unfolding(crate::specs::Refusal::line_end))]
pub fn line_end<'a>() -> &'a [u8]
    ensures { result.now ≡ line_end }
{
    b"\n"
}

#[tactic(auto, unfolding(crate::specs::Refusal::no_position))]
pub fn no_position<'a>() -> &'a [u8]
    ensures { result.now ≡ no_position }
{
    b"not a position in line "
}

#[tactic(auto, unfolding(crate::specs::Refusal::waits_for_draw))]
pub fn waits_for_draw<'a>() -> &'a [u8]
    ensures { result.now ≡ waits_for_draw }
{
    b"waits for a draw"
}

#[tactic(auto, unfolding(crate::specs::Refusal::no_routine))]
pub fn no_routine<'a>() -> &'a [u8]
    ensures { result.now ≡ no_routine }
{
    b"no routine "
}
