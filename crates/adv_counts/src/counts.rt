//! One count more.
ghost use Rattle.std.specs.Prelude.{◌≡◌};
ghost use Rattle.adv_counts.specs.Counts.{raised};

/// Counts a number once more, where it has a count. A count that is 18446744073709551615 stays so.
#[inline(always)]
pub fn count(counts: &mut [u64], number: usize)
    ensures { counts.new ≡ raised number counts.old }
{
    if number < counts.len() {
        counts[number] = counts[number].saturating_add(1);
    }
}
