//! What elimination answers of every system. Each function here does nothing: its contract is a theorem about the definitions of `specs/`, proved with the
//! crate.

ghost use Rattle.std.specs.Prelude.{◌≡◌, ◌≢◌, ◌*◌, ◌≤◌, ◌^◌, ℕ, ℤ, List, Result, Ok, Err, length};
ghost use Rattle.std.specs.List.{All};
ghost use Rattle.crn_farkas.specs.Systems.{System, IsRectangular, IsWholePoint, IsCertificate};
ghost use Rattle.crn_feasible.specs.Elimination.{elimination, refuted, passes, too_many, AreWithin};

/// What elimination answers is true: its point meets the system and has a number for each column, and its certificate is one. So a system has a point or a certificate wherever no limit is met.
pub fn answers()
    ensures point { (s : System) (p : List ℤ) → IsRectangular s → elimination s ≡ Ok p → IsWholePoint s p }
    ensures long { (s : System) (p : List ℤ) → elimination s ≡ Ok p → length p ≡ s.columns }
    ensures certificate { (s : System) (c : List ℤ) → elimination s ≡ Err (refuted c) → IsCertificate s c }
{}

/// With at most 128 rows and at most 3 columns no list has more than 4,096 rows.
pub fn few_rows()
    ensures { (s : System) → IsRectangular s → s.columns ≤ 3 → length s.rows ≤ 128 → elimination s ≢ Err too_many }
{}

/// With few columns and small entries no number passes 2^59, whatever the number of rows: with 1 or 2 columns and entries of size at most m those that are
/// compared with it are at most 8·m^4, and with 3 columns at most 128·m^8. So it is for m up to 16,384 and up to 64.
pub fn small_entries()
    ensures one { (s : System) (m : ℕ) → 1 ≤ m → AreWithin m s → s.columns ≡ 1 → 8 * m ^ 4 ≤ 2 ^ 59 → elimination s ≢ Err passes }
    ensures two { (s : System) (m : ℕ) → 1 ≤ m → AreWithin m s → s.columns ≡ 2 → 8 * m ^ 4 ≤ 2 ^ 59 → elimination s ≢ Err passes }
    ensures three { (s : System) (m : ℕ) → 1 ≤ m → AreWithin m s → s.columns ≡ 3 → 128 * m ^ 8 ≤ 2 ^ 59 → elimination s ≢ Err passes }
{}
