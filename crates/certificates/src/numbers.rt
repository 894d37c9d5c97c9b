ghost use Rattle.certificates.specs.Growth.{AreZeros};
ghost use Rattle.std.specs.Prelude.{◌≡◌, ◌↔◌, IsTrue, pos};

/// Whether a sum and a cost are the same number.
pub(crate) fn is_same(sum: i128, cost: u128) -> bool
    ensures { IsTrue result ↔ (sum ≡ pos cost) }
{
    sum >= 0 && sum.unsigned_abs() == cost
}

/// Whether all numbers are 0.
pub(crate) fn are_zeros(numbers: &[i64]) -> bool
    ensures { IsTrue result → AreZeros numbers.now }
{
    numbers.iter().all(|&number| number == 0)
}
