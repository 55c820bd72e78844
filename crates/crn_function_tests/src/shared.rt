//! What the tests of several crates make.

use crn_fraction::Frac;
use std::test::Fail;

/// The quotient of two numbers.
pub fn quotient(num: i64, den: i64) -> Result<Frac, Fail> {
    if den == 0 {
        Err("a zero divisor")?
    }
    Ok(Frac::of(num, den)?)
}
