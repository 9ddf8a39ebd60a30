//! How a bound is made from a sum: it is divided by the scale of the certificate and rounded up.
//! Bounds of potentials, of duals, and of every leaf are made so in the crates above.

ghost use Rattle.std.specs.Prelude.{pos, neg_ℤ, ◌^◌};
ghost use Rattle.tsp_format.specs.Steps.{IsFromTo};
ghost use Rattle.tsp_theory.specs.Bounds.{IsScale, IsLeastBound, IsBoundSized};

/// The least integer that, times the scale, is at least the sum.
///
/// # Requires
///
/// A scale that a certificate may have, and a sum of at most 2^100 in size.
pub fn least_bound(scale: i64, sum: i128) -> i128
    requires scale { IsScale scale }
    requires size { IsFromTo (neg_ℤ (pos (2 ^ 100))) (pos (2 ^ 100)) sum }
    ensures value { IsLeastBound scale sum result }
    ensures size { IsBoundSized result }
{
    // Euclidean division rounds down, so dividing the negated sum rounds up.
    -(-sum).div_euclid(i128::from(scale))
}
