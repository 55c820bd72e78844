//! What certificates and points are, as laws over all systems. Each is the contract of a function that does nothing.

ghost use Rattle.std.specs.Prelude.{◌≡◌, ◌↔◌, ℕ, List, ℤ, pos, ◌+ℤ◌, ◌*ℤ◌, slice_index_or};
ghost use Rattle.crn_fraction.specs.Rational.{ℚ, whole, ◌+ℚ◌, ◌*ℚ◌};
ghost use Rattle.crn_linear.specs.Forms.{wholes};
ghost use Rattle.crn_linear.specs.Rows.{value};
ghost use Rattle.crn_farkas.specs.Mixtures.{mixed};
ghost use Rattle.crn_farkas.specs.Systems.{System, IsRectangular, IsPoint, IsWholePoint, HasNoPoint, IsCertificate};

/// A system with a certificate has no point, be it rational or whole.
pub fn certificates()
    ensures { (s : System) (c : List ℤ) → IsRectangular s → IsCertificate s c → HasNoPoint s }
{}

/// A point with whole numbers meets a system as the same point with rational numbers does.
pub fn whole_points()
    ensures { (s : System) (p : List ℤ) → IsPoint s (wholes p) ↔ IsWholePoint s p }
{}

/// A sum of multiples of two rows has these multiples of their entries, added up, in each column, and of their values at each point.
pub fn mixtures()
    ensures columns { (a b : ℤ) (r s : List ℤ) (v : ℕ) → slice_index_or (mixed a r b s) v (pos 0) ≡ a *ℤ slice_index_or r v (pos 0) +ℤ b *ℤ slice_index_or s v (pos 0) }
    ensures values { (a b : ℤ) (r s : List ℤ) (x : List ℚ) → value (mixed a r b s) x ≡ whole a *ℚ value r x +ℚ whole b *ℚ value s x }
{}
