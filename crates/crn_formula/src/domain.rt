//! The domain of a function: rows, and a point that meets each strictly.

ghost use Rattle.std.specs.Prelude.{◌≡◌, ◌<◌, ◌≤◌, length};
ghost use Rattle.crn_linear.specs.Strengths.{row_with};
ghost use Rattle.crn_formula.specs.Pieces.{IsDomain};
ghost use Rattle.crn_formula.specs.Domains.{unit, whole_space, affine_domain, orthant};

use crn_linear::{Point, Row, Strength};
use std::marker::Model;

/// Where a function is looked at: the points that meet each of some rows, with a point inside that meets each of them strictly.
#[derive(Debug, Drop)]
pub struct Domain {
    rows: [Row; 8],
    count: usize,
    inside: Point,
}

impl Model for Domain {
    ghost use Rattle.std.specs.Prelude.{take};
    ghost use Rattle.crn_formula.specs.Pieces as pieces;
    ghost use Rattle.crn_formula.specs.Domains.{IsKeptDomain};

    ghost Value = { pieces.Domain };

    ghost view = { λ d. record { rows = take d.count d.rows; inside = d.inside } };

    ghost invariant = { λ d. IsKeptDomain d.count d.rows d.inside };
}

impl Domain {
    /// All points.
    pub fn whole(columns: usize) -> Domain
        requires some { 1 ≤ columns }
        requires few { columns ≤ 9 }
        ensures { result ≡ whole_space columns }
    {
        Domain {
            rows: [unit_row(1, 0, Strength::Weak); 8],
            count: 0,
            inside: Point::of(&[0i64; 9][..columns]),
        }
    }

    /// The points whose last number is above 0, as those of an affine function are.
    pub fn affine(columns: usize) -> Domain
        requires some { 2 ≤ columns }
        requires few { columns ≤ 9 }
        ensures { result ≡ affine_domain columns }
    {
        Domain {
            rows: [unit_row(columns, columns - 1, Strength::Strict); 8],
            count: 1,
            inside: Point::of(&unit(columns - 1)[..columns]),
        }
    }

    /// The points without a negative number.
    pub fn orthant(columns: usize) -> Domain
        requires some { 1 ≤ columns }
        requires few { columns ≤ 8 }
        ensures { result ≡ orthant columns }
    {
        let mut rows = [unit_row(columns, 0, Strength::Weak); 8];
        for i in 0..columns {
            rows[i] = unit_row(columns, i, Strength::Weak);
        }
        Domain {
            rows,
            count: columns,
            inside: Point::of(&[1i64; 9][..columns]),
        }
    }

    /// The rows that a point of the domain meets, of which there are at most 8.
    pub fn rows(&self) -> &[Row]
        ensures value { result.now ≡ self.now.rows }
        ensures few { length self.now.rows ≤ 8 }
    {
        &self.rows[..self.count]
    }

    /// A point that meets each row strictly.
    pub fn inside(&self) -> &Point
        ensures value { result.now ≡ self.now.inside }
        ensures strictly { IsDomain self.now }
    {
        &self.inside
    }
}

// Nine places with 1 in one of them.
fn unit(index: usize) -> [i64; 9]
    requires { index < 9 }
    ensures { result ≡ unit 9 index }
{
    let mut places = [0i64; 9];
    places[index] = 1;
    places
}

// The row with 1 in one column.
fn unit_row(columns: usize, index: usize, strength: Strength) -> Row
    requires index { index < columns }
    requires columns { columns ≤ 9 }
    ensures { result ≡ row_with (unit columns index) strength }
{
    Row::of(&unit(index)[..columns], strength)
}
