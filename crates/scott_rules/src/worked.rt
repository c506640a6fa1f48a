//! Worked plays: on these games the rules give just this. Each is the contract of a function that
//! does nothing, and is proved by computing the play.
ghost use Rattle.scott_types.specs.Limits.{KeepsLimits};
ghost use Rattle.scott_rules.specs.Games.{hill};
ghost use Rattle.scott_rules.specs.Worked.{WordsHeard, HallAndHill, BlankLineAsksAgain, OneOfEach, RefusedGetLeavesItsParameter, CounterIsCapped, MessageIsSaid, DrawsPassAHeadOver, DrawsTryAllHeads, DrawsRunOut, ActionsNoted, GetAllEndsTheGame, GetAndDrop, ScoreGoesOn, FullScoreEnds, LightRunsOut, LightGrowsDim, DarkIsDangerous, ConditionFails, MissingParameterIsZero, EachStyle};

/// The game of the hall and the hill is a database: its parts keep the limits.
pub fn hill_keeps_limits()
    ensures { KeepsLimits hill }
{}

/// Words, synonyms, directions and a word that isn't known.
pub fn words_heard()
    ensures { WordsHeard }
{}

/// From the hall to the hill and back, and a word that isn't known.
pub fn hall_and_hill()
    ensures { HallAndHill }
{}

/// A synonym in any letters, and a blank line.
pub fn blank_line_asks_again()
    ensures { BlankLineAsksAgain }
{}

/// A database with one entry in each list.
pub fn one_of_each()
    ensures { OneOfEach }
{}

/// A get that is refused leaves its parameter to the next opcode.
pub fn refused_get_leaves_its_parameter()
    ensures { RefusedGetLeavesItsParameter }
{}

/// The counter goes no higher than 32767.
pub fn counter_is_capped()
    ensures { CounterIsCapped }
{}

/// A message is said as it stands.
pub fn message_is_said()
    ensures { MessageIsSaid }
{}

/// Automatic lines: a draw above a head's number passes it over, and tails take no draw.
pub fn draws_pass_a_head_over()
    ensures { DrawsPassAHeadOver }
{}

/// Automatic lines, each head tried.
pub fn draws_try_all_heads()
    ensures { DrawsTryAllHeads }
{}

/// The draws run out in the middle of a round, and the play goes on from there.
pub fn draws_run_out()
    ensures { DrawsRunOut }
{}

/// Which lines were tried.
pub fn actions_noted()
    ensures { ActionsNoted }
{}

/// Getting all stops where the lines of an item end the game.
pub fn get_all_ends_the_game()
    ensures { GetAllEndsTheGame }
{}

/// Getting one item, and dropping all.
pub fn get_and_drop()
    ensures { GetAndDrop }
{}

/// A score that isn't full.
pub fn score_goes_on()
    ensures { ScoreGoesOn }
{}

/// A full score ends the game.
pub fn full_score_ends()
    ensures { FullScoreEnds }
{}

/// The light runs out.
pub fn light_runs_out()
    ensures { LightRunsOut }
{}

/// The light grows dim.
pub fn light_grows_dim()
    ensures { LightGrowsDim }
{}

/// A fall in the dark.
pub fn dark_is_dangerous()
    ensures { DarkIsDangerous }
{}

/// A line whose condition fails.
pub fn condition_fails()
    ensures { ConditionFails }
{}

/// A parameter that no condition gives is 0.
pub fn missing_parameter_is_zero()
    ensures { MissingParameterIsZero }
{}

/// Two plays in each style: what is said where there is no way, and how a light runs low and out.
pub fn each_style()
    ensures { EachStyle }
{}
