//! The lesser of two.
ghost use Rattle.std.specs.Prelude.{◌≡◌, MatchOption};
ghost use Rattle.std.specs.Ordering.{ord_min};

/// The lesser of the two, or the second where there is no first.
pub(crate) fn lesser<T: Ord + Drop>(best: Option<T>, next: T) -> T
    ensures { MatchOption best (result ≡ next) (λ b. result ≡ ord_min T.cmp b next) }
{
    match best {
        Some(best) => best.min(next),
        None => next,
    }
}
