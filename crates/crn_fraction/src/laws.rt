//! What the definitions of rational numbers mean. The contract of each function here is a theorem about the definitions of `specs/`, or
//! about the constants, proved with the crate.
ghost use Rattle.std.specs.Prelude.{◌≡◌, ◌≢◌, ◌⊎◌, ◌↔◌, ◌*◌, ◌<◌, ℕ, ℤ, pos, ◌+ℤ◌, ◌*ℤ◌, IsTrue};
ghost use Rattle.std.specs.Int.{IsGcd, ◌∣◌};
ghost use Rattle.std.specs.declared.cmp.Ordering.TheVariants.{Less, Equal, Greater};
ghost use Rattle.crn_fraction.specs.Equality.{eq_fractions};
ghost use Rattle.crn_fraction.specs.Gcd.{gcd, lcm};
ghost use Rattle.crn_fraction.specs.Rational.{ℚ, 0ℚ, whole, ratio, ◌+ℚ◌, ◌-ℚ◌, ◌*ℚ◌, ◌/ℚ◌, ◌≤ℚ◌, ◌<ℚ◌, cmp_ℚ, min_ℚ, max_ℚ};

use crate::Frac;

/// A ratio is the quotient of its two numbers, and rational numbers are equal where their cross products are. What their lowest
/// terms are divided by is the greatest number that divides both.
pub fn ratios()
    ensures value { (n : ℤ) (d : ℕ) → 0 < d → (ratio n d).num *ℤ pos d ≡ n *ℤ pos (ratio n d).den }
    ensures equal { (a b : ℚ) → (a ≡ b) ↔ (a.num *ℤ pos b.den ≡ b.num *ℤ pos a.den) }
    ensures divisor { (a b : ℕ) → IsGcd a b (gcd a b) }
{}

/// Both numbers divide their least common multiple, and it divides whatever both divide.
pub fn multiples()
    ensures common { (a b : ℕ) → (a ∣ lcm a b) × (b ∣ lcm a b) }
    ensures least { (a b n : ℕ) → a ∣ n → b ∣ n → lcm a b ∣ n }
{}

/// Sums and products of ratios, in lowest terms or not; a difference and the number taken add up to the first, and a quotient
/// times its divisor is the number.
pub fn arithmetic()
    ensures sum { (x y : ℤ) (d e : ℕ) → 0 < d → 0 < e → ratio x d +ℚ ratio y e ≡ ratio (x *ℤ pos e +ℤ y *ℤ pos d) (d * e) }
    ensures product { (x y : ℤ) (d e : ℕ) → 0 < d → 0 < e → ratio x d *ℚ ratio y e ≡ ratio (x *ℤ y) (d * e) }
    ensures difference { (a b : ℚ) → (a -ℚ b) +ℚ b ≡ a }
    ensures quotient { (a b : ℚ) → b ≢ 0ℚ → b *ℚ (a /ℚ b) ≡ a }
{}

/// How a comparison says the order, and which of two numbers is the lesser and the greater.
pub fn order()
    ensures less { (a b : ℚ) → (cmp_ℚ a b ≡ Less) ↔ (a <ℚ b) }
    ensures equal { (a b : ℚ) → (cmp_ℚ a b ≡ Equal) ↔ (a ≡ b) }
    ensures greater { (a b : ℚ) → (cmp_ℚ a b ≡ Greater) ↔ (b <ℚ a) }
    ensures below { (a b : ℚ) → (min_ℚ a b ≤ℚ a) × (min_ℚ a b ≤ℚ b) }
    ensures least { (a b : ℚ) → (min_ℚ a b ≡ a) ⊎ (min_ℚ a b ≡ b) }
    ensures above { (a b : ℚ) → (a ≤ℚ max_ℚ a b) × (b ≤ℚ max_ℚ a b) }
    ensures greatest { (a b : ℚ) → (max_ℚ a b ≡ a) ⊎ (max_ℚ a b ≡ b) }
{}

/// The two constants, which are the numbers 0 and 1.
pub fn constants() -> (Frac, Frac)
    ensures zero { result.0 ≡ 0ℚ }
    ensures one { result.1 ≡ whole (pos 1) }
{
    (Frac::ZERO, Frac::ONE)
}

/// `==` of two fractions says whether they are one number.
pub fn equality()
    ensures { (a b : ℚ) → IsTrue (eq_fractions a b) ↔ (a ≡ b) }
{}
