//! The kinds of values that a position has a number for.
ghost use Rattle.std.specs.Prelude.{◌≡◌, ℤ, Bool, IsTrue};

/// A value that is written as a number.
///
/// `value_of` is the value of each number that it `can_have`.
pub trait Number: Copy {
    ghost value_of: { ℤ → Self };

    ghost can_have: { ℤ → Bool };

    /// The value of a number.
    fn of(number: i32) -> Self
        requires { IsTrue (can_have number) }
        ensures { result ≡ value_of number };
}

/// A room or a place.
impl Number for u8 {
    ghost use Rattle.adv_position.specs.Numbers.{amount, is_byte_number};

    ghost value_of = { amount };

    ghost can_have = { is_byte_number };

    fn of(number: i32) -> u8 {
        number as u8
    }
}

/// The number of an action line.
impl Number for u16 {
    ghost use Rattle.adv_position.specs.Numbers.{amount, is_line_number};

    ghost value_of = { amount };

    ghost can_have = { is_line_number };

    fn of(number: i32) -> u16 {
        number as u16
    }
}

/// How many draws were taken.
impl Number for u32 {
    ghost use Rattle.adv_position.specs.Numbers.{amount, is_natural};

    ghost value_of = { amount };

    ghost can_have = { is_natural };

    fn of(number: i32) -> u32 {
        number as u32
    }
}

/// A light.
impl Number for i32 {
    ghost use Rattle.adv_position.specs.Numbers.{is_any};

    ghost value_of = { λ n. n };

    ghost can_have = { is_any };

    fn of(number: i32) -> i32 {
        number
    }
}

/// A counter.
impl Number for i16 {
    ghost use Rattle.adv_position.specs.Numbers.{is_short};

    ghost value_of = { λ n. n };

    ghost can_have = { is_short };

    fn of(number: i32) -> i16 {
        number as i16
    }
}

/// A flag: 1 where it is set, and 0 where it is clear.
impl Number for bool {
    ghost use Rattle.adv_position.specs.Numbers.{is_one, is_any};

    ghost value_of = { is_one };

    ghost can_have = { is_any };

    fn of(number: i32) -> bool {
        number == 1
    }
}
