//! Quotients of products, rounded to whole numbers.
#![tactic(auto)]

ghost use Rattle.std.specs.Prelude.{◌^◌, ◌<◌, pos, ◌*ℤ◌, ◌<ℤ◌, unsigned_abs};
ghost use Rattle.hyd_num.specs.QuotientsAndRoots.{IsFloor, IsCeiling};

/// The greatest whole number at most `a * b / c`.
pub fn mul_div_floor(a: i128, b: i128, c: i128) -> i128
    requires small { unsigned_abs (a *ℤ b) < 2 ^ 127 }
    requires positive { pos 0 <ℤ c }
    ensures { IsFloor (a *ℤ b) c result }
{
    (a * b).div_euclid(c)
}

/// The least whole number at least `a * b / c`.
pub fn mul_div_ceil(a: i128, b: i128, c: i128) -> i128
    requires small { unsigned_abs (a *ℤ b) < 2 ^ 127 }
    requires positive { pos 0 <ℤ c }
    ensures { IsCeiling (a *ℤ b) c result }
{
    -(-(a * b)).div_euclid(c)
}
