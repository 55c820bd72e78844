//! Whether multipliers prove that rows have no point.

ghost use Rattle.std.specs.Prelude.{◌≡◌, ◌↔◌, ◌≤◌, length, All, IsTrue};
ghost use Rattle.crn_cert_text.specs.Proofs.{IsProofOf};

use crn_farkas::refutes;
use crn_linear::Row;

/// Whether the multipliers are small and a certificate of the system of so many columns and these rows.
pub fn proves(columns: usize, rows: &[Row], multipliers: &[i64]) -> bool
    requires columns { columns ≤ 9 }
    requires lengths { All (λ r. length r.entries ≡ columns) rows.now }
    requires few { length rows.now ≤ 256 }
    ensures { IsTrue result ↔ IsProofOf (record { columns = columns; rows = rows.now }) multipliers.now }
{
    refutes(columns, rows, multipliers)
}
