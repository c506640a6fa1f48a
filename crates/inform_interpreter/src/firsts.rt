//! The first of a list, and the others.
ghost use Rattle.std.specs.Prelude.{◌≡◌, [], ◌∷◌, IfSome, IfNone};

/// The first of these and the others, if there is one.
#[inline(always)]
pub fn first_of<'a, T>(xs: &'a [T]) -> Option<(&'a T, &'a [T])>
    ensures some { IfSome result (λ x. xs.now ≡ x.0.now ∷ x.1.now) }
    ensures none { IfNone result (xs.now ≡ []) }
{
    match xs {
        [] => None,
        [x, others @ ..] => Some((x, others)),
    }
}
