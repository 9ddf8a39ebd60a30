//! Sums of the weights of walks, in 64 bits if weights are small, otherwise in 128, for
//! `least_q_route.rt`. Both are exact, so the choice affects only speed.

ghost use Rattle.std.proofs.Common.{rules};
ghost use Rattle.std.specs.Prelude.{◌≡◌, ◌≤◌, ◌<◌, ◌+◌, ◌*◌, ◌^◌, ℕ, ℤ, pos, neg_ℤ, ◌+ℤ◌, int_lt, MatchOption};
ghost use Rattle.tsp_format.specs.Steps.{IsFromTo};
ghost use Rattle.tsp_routing.specs.QRoutes.{IsReal};
ghost use Rattle.tsp_routing.specs.PlanBounds.{most_link, most_capacity_in_parts};

/// The largest size of a weight for which sums fit 64 bits: sums of up to 5,000,000 such weights
/// do.
pub(crate) const MOST_NARROW: i64 = 1 << 38;

/// A sum of weights, each at most `link` in size. The sums of walks are at most `half`; a larger
/// sum, of nearly twice as much, means that there is no walk. So adding to the sum of no walk needs
/// no test.
pub(crate) trait Sum: Copy {
    ghost value: { Self → ℤ };

    ghost half: { ℕ };

    ghost link: { ℕ };

    /// The sum of no walk.
    fn none() -> Self
        ensures { value result ≡ pos (2 * half) };

    /// The sum of one weight.
    fn of(weight: i64) -> Self
        requires { IsFromTo (neg_ℤ (pos link)) (pos link) weight }
        ensures { value result ≡ weight };

    /// The sum with one weight more.
    fn plus(self, weight: i64) -> Self
        requires weight { IsFromTo (neg_ℤ (pos link)) (pos link) weight }
        requires sum { IsFromTo (neg_ℤ (pos half)) (pos (2 * half)) (value self) }
        ensures { value result ≡ value self +ℤ weight };

    /// Whether it is less than another.
    fn is_below(self, other: Self) -> bool
        ensures { result ≡ int_lt (value self) (value other) };

    /// The weight of a walk; `None` if it is the sum of no walk.
    fn weight(self) -> Option<i128>
        ensures { MatchOption result (IsReal half (value self) → ⊥)
            (λ weight. (weight ≡ value self) × IsReal half (value self)) };

    ghost fits: { (count : ℕ) → count ≤ most_capacity_in_parts + 2 → (count * link) + link < half };

    ghost small: { half ≤ 2 ^ 83 };
}

impl Sum for i64 {
    ghost value = { λ sum. sum };

    ghost half = { 2 ^ 61 };

    ghost link = { 2 ^ 38 };

    ghost fits = { λ count few. Prim.search rules };

    ghost small = { Prim.search rules };

    #[inline]
    fn none() -> i64 {
        1 << 62
    }

    #[inline]
    fn of(weight: i64) -> i64 {
        weight
    }

    #[inline]
    fn plus(self, weight: i64) -> i64 {
        self + weight
    }

    #[inline]
    fn is_below(self, other: i64) -> bool {
        self < other
    }

    fn weight(self) -> Option<i128> {
        if self > 1 << 61 {
            return None;
        }
        Some(i128::from(self))
    }
}

impl Sum for i128 {
    ghost value = { λ sum. sum };

    ghost half = { 2 ^ 83 };

    ghost link = { most_link };

    ghost fits = { λ count few. Prim.search rules };

    ghost small = { Prim.search rules };

    #[inline]
    fn none() -> i128 {
        1 << 84
    }

    #[inline]
    fn of(weight: i64) -> i128 {
        i128::from(weight)
    }

    #[inline]
    fn plus(self, weight: i64) -> i128 {
        self + i128::from(weight)
    }

    #[inline]
    fn is_below(self, other: i128) -> bool {
        self < other
    }

    fn weight(self) -> Option<i128> {
        if self > 1 << 83 {
            return None;
        }
        Some(self)
    }
}
