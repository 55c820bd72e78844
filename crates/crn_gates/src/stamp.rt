//! Constant tables of reactions over named slots, and how they are written into a network.
ghost use Rattle.std.specs.Prelude.{◌≡◌, ◌++◌, ◌<◌, ◌≤◌, ◌^◌, pos, ◌<ℤ◌, unsigned_abs, IfOk, OnOk, IsTrue};
ghost use Rattle.crn_gates.specs.Gates.{factor_of, transfer, transfer_single, transfer_one};
ghost use Rattle.crn_net.specs.Views.{natural, part_of, parts_of, reactions_of};
ghost use Rattle.crn_gates.specs.Stamps.{species_at, count_at, part_at, side_at, reactions_at, is_in_order};

use crn_fraction::Frac;
use crn_net::{Part, Reaction};
use std::alloc::{AllocError, Global};

/// A place in a table that a species is put in: the rails of the operands a and b, two species between, and the rails of what is made.
#[derive(Clone, Copy, Debug)]
pub(crate) enum Slot {
    APlus,
    AMinus,
    BPlus,
    BMinus,
    P,
    Q,
    YPlus,
    YMinus,
}

/// How much of a slot is taken or given, where a table is of a factor.
#[derive(Clone, Copy, Debug)]
pub(crate) enum Count {
    One,
    Numerator,
    Denominator,
}

#[derive(Clone, Copy, Debug)]
pub(crate) struct Entry {
    count: Count,
    slot: Slot,
}

/// One side of a reaction. The slots ascend.
#[derive(Clone, Copy, Debug)]
pub(crate) enum Side {
    One(Entry),
    Two(Entry, Entry),
}

#[derive(Clone, Copy, Debug)]
pub(crate) struct Row {
    takes: Side,
    gives: Side,
}

/// A table of `R` reactions.
#[derive(Debug)]
pub(crate) struct Gate<const R: usize> {
    rows: [Row; R],
    ghost in_order: { IsTrue (is_in_order rows) },
}

/// The species of the slots: of operands, of what is between, and of what is made.
#[derive(Clone, Copy, Debug)]
pub(crate) struct Slots {
    pub(crate) a: (u32, u32),
    pub(crate) b: (u32, u32),
    pub(crate) inner: (u32, u32),
    pub(crate) made: (u32, u32),
}

/// The species of slots that a table does not have.
pub(crate) const NONE: (u32, u32) = (0, 0);

/// The numbers of a factor p/q.
#[derive(Clone, Copy, Debug)]
pub(crate) struct Ratio {
    pub(crate) numerator: i64,
    pub(crate) denominator: i64,
}

impl Ratio {
    /// Of a table that has no factor.
    pub(crate) const ONE: Ratio = Ratio {
        numerator: 1,
        denominator: 1,
    };

    // The size of a factor.
    fn of(factor: Frac) -> Ratio
        ensures numerator { result.numerator ≡ pos (unsigned_abs factor.num) }
        ensures denominator { result.denominator ≡ pos factor.den }
    {
        Ratio {
            numerator: factor.num().abs(),
            denominator: factor.den(),
        }
    }
}

// A side of a row: a slot, two slots, or a count of a slot.
macro_rules! side {
    ($slot:ident) => {
        Side::One(Entry {
            count: Count::One,
            slot: Slot::$slot,
        })
    };
    ($first:ident + $second:ident) => {
        Side::Two(
            Entry {
                count: Count::One,
                slot: Slot::$first,
            },
            Entry {
                count: Count::One,
                slot: Slot::$second,
            },
        )
    };
    ($count:ident * $slot:ident) => {
        Side::One(Entry {
            count: Count::$count,
            slot: Slot::$slot,
        })
    };
}

// A table, a row for each reaction: what it takes, and what it gives.
macro_rules! gate {
    ($([$($takes:tt)+] => [$($gives:tt)+],)*) => {
        Gate {
            rows: [$(Row { takes: side!($($takes)+), gives: side!($($gives)+) }),*],
        }
    };
}

pub(crate) const ADD: Gate<4> = gate! {
    [APlus] => [YPlus],
    [AMinus] => [YMinus],
    [BPlus] => [YPlus],
    [BMinus] => [YMinus],
};

pub(crate) const SUB: Gate<4> = gate! {
    [APlus] => [YPlus],
    [AMinus] => [YMinus],
    [BPlus] => [YMinus],
    [BMinus] => [YPlus],
};

// min(a, b) is min(a+ + b-, b+ + a-) less (a- + b-), with P and Q for the two sums.
pub(crate) const MIN: Gate<5> = gate! {
    [APlus] => [P],
    [BMinus] => [P + YMinus],
    [BPlus] => [Q],
    [AMinus] => [Q + YMinus],
    [P + Q] => [YPlus],
};

// The minimum with all rails exchanged.
pub(crate) const MAX: Gate<5> = gate! {
    [AMinus] => [P],
    [BPlus] => [P + YPlus],
    [BMinus] => [Q],
    [APlus] => [Q + YPlus],
    [P + Q] => [YMinus],
};

// The lesser of two single rails, each the plus of its pair.
pub(crate) const MIN_ONE: Gate<1> = gate! {
    [APlus + BPlus] => [YPlus],
};

// Anything times 0.
pub(crate) const NOTHING: Gate<0> = gate! {};

// A pair times p/q.
pub(crate) const UP: Gate<2> = gate! {
    [Denominator * APlus] => [Numerator * YPlus],
    [Denominator * AMinus] => [Numerator * YMinus],
};

// A pair times -p/q.
pub(crate) const DOWN: Gate<2> = gate! {
    [Denominator * APlus] => [Numerator * YMinus],
    [Denominator * AMinus] => [Numerator * YPlus],
};

// A single rail times p/q.
pub(crate) const SINGLE_UP: Gate<1> = gate! {
    [Denominator * APlus] => [Numerator * YPlus],
};

// A single rail times -p/q.
pub(crate) const SINGLE_DOWN: Gate<1> = gate! {
    [Denominator * APlus] => [Numerator * YMinus],
};

impl Slots {
    fn species(&self, slot: Slot) -> u32
        ensures { result ≡ species_at self.now slot }
    {
        match slot {
            Slot::APlus => self.a.0,
            Slot::AMinus => self.a.1,
            Slot::BPlus => self.b.0,
            Slot::BMinus => self.b.1,
            Slot::P => self.inner.0,
            Slot::Q => self.inner.1,
            Slot::YPlus => self.made.0,
            Slot::YMinus => self.made.1,
        }
    }
}

fn part(entry: Entry, slots: &Slots, ratio: Ratio) -> Part
    ensures { part_of result ≡ part_at (natural ratio.numerator) (natural ratio.denominator) slots.now entry }
{
    Part {
        species: slots.species(entry.slot),
        count: match entry.count {
            Count::One => 1,
            Count::Numerator => ratio.numerator,
            Count::Denominator => ratio.denominator,
        },
    }
}

fn parts(alloc: Global, side: Side, slots: &Slots, ratio: Ratio) -> Result<Vec<Part>, AllocError>
    ensures { IfOk result (λ v. parts_of v.items ≡ side_at (natural ratio.numerator) (natural ratio.denominator) slots.now side) }
{
    match side {
        Side::One(entry) => Ok(vec![in alloc; part(entry, slots, ratio)]?),
        Side::Two(first, second) => {
            Ok(vec![in alloc; part(first, slots, ratio), part(second, slots, ratio)]?)
        }
    }
}

/// Writes a table at the end of the reactions.
pub(crate) fn stamp<const R: usize>(
    alloc: Global,
    gate: &Gate<R>,
    slots: Slots,
    ratio: Ratio,
    reactions: &mut Vec<Reaction>,
) -> Result<(), AllocError>
    ensures { OnOk result (reactions_of reactions.new.items ≡ reactions_of reactions.old.items ++ reactions_at (natural ratio.numerator) (natural ratio.denominator) slots gate.now.rows) }
{
    for row in gate.rows.iter() {
        let takes = parts(alloc, row.takes, &slots, ratio)?;
        let gives = parts(alloc, row.gives, &slots, ratio)?;
        reactions.push(Reaction { takes, gives })?;
    }
    Ok(())
}

// Stamps the table that the sign of a factor chooses.
macro_rules! of_sign {
    ($factor:ident: $up:ident, $down:ident; $alloc:ident, $slots:expr, $reactions:ident) => {{
        let ratio = Ratio::of($factor);
        if $factor.num() > 0 {
            stamp($alloc, &$up, $slots, ratio, $reactions)
        } else if $factor.num() < 0 {
            stamp($alloc, &$down, $slots, ratio, $reactions)
        } else {
            stamp($alloc, &NOTHING, $slots, ratio, $reactions)
        }
    }};
}

/// Writes a pair times a factor into another pair.
pub(crate) fn stamp_pair(
    alloc: Global,
    factor: Frac,
    a: (u32, u32),
    made: (u32, u32),
    reactions: &mut Vec<Reaction>,
) -> Result<(), AllocError>
    ensures { OnOk result (reactions_of reactions.new.items ≡ reactions_of reactions.old.items ++ transfer (factor_of factor) a.0 a.1 made.0 made.1) }
{
    let slots = Slots {
        a,
        b: NONE,
        inner: NONE,
        made,
    };
    of_sign!(factor: UP, DOWN; alloc, slots, reactions)
}

/// Writes a single rail times a factor into a pair.
pub(crate) fn stamp_single(
    alloc: Global,
    factor: Frac,
    a: u32,
    made: (u32, u32),
    reactions: &mut Vec<Reaction>,
) -> Result<(), AllocError>
    ensures { OnOk result (reactions_of reactions.new.items ≡ reactions_of reactions.old.items ++ transfer_single (factor_of factor) a made.0 made.1) }
{
    let slots = Slots {
        a: (a, 0),
        b: NONE,
        inner: NONE,
        made,
    };
    of_sign!(factor: SINGLE_UP, SINGLE_DOWN; alloc, slots, reactions)
}

/// Writes a single rail times a positive factor into a single rail.
pub(crate) fn stamp_rail(
    alloc: Global,
    factor: Frac,
    a: u32,
    made: u32,
    reactions: &mut Vec<Reaction>,
) -> Result<(), AllocError>
    requires { pos 0 <ℤ factor.num }
    ensures { OnOk result (reactions_of reactions.new.items ≡ reactions_of reactions.old.items ++ transfer_one (factor_of factor) a made) }
{
    let slots = Slots {
        a: (a, 0),
        b: NONE,
        inner: NONE,
        made: (made, 0),
    };
    stamp(alloc, &SINGLE_UP, slots, Ratio::of(factor), reactions)
}
