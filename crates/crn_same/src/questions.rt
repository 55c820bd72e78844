//! The questions about the sets of a difference: whether all forms of a set are above 0 at some point of a domain.

ghost use Rattle.std.specs.Prelude.{◌≡◌, ◌≤◌, ◌+◌, ◌++◌, length, map, take, All, OnOk, IfOk, IfErr};
ghost use Rattle.crn_farkas.specs.Rooms.{kept};
ghost use Rattle.crn_farkas.specs.Systems.{HasNoPoint};
ghost use Rattle.crn_formula.specs.Pieces.{columns_of};
ghost use Rattle.crn_pieces.specs.Answers.{Clears};
ghost use Rattle.crn_same.specs.Equal.{positive_row, asked};
ghost use Rattle.crn_same.specs.Answers.{SystemStops, SetStops, SetsStop, IsNowhere, AreRows, HasNoRow, HaveNoRows};

use crate::SameError;
use crn_farkas::System;
use crn_feasible::SolveError;
use crn_formula::Domain;
use crn_linear::{Form, Row, Strength, row_of};
use crn_normal::NormalForm;
use crn_simplex::Solver;
use indexmap::IndexSet;
use std::alloc::{AllocError, Global};

/// What asks, and the rows of all forms that were asked about, so that each is cleared once.
#[derive(Drop)]
pub struct Questions {
    solver: Solver,
    forms: IndexSet<Form>,
    rows: Vec<Row>,
}

impl Questions {
    /// Nothing was asked.
    pub fn new(alloc: Global) -> Questions
        ensures { AreRows result.forms.keys result.rows.items }
    {
        Questions {
            solver: Solver::new(),
            forms: IndexSet::new(alloc),
            rows: Vec::new(alloc),
        }
    }

    // The row that a form is above 0.
    fn row(&mut self, form: &Form) -> Result<Row, SameError>
        requires { AreRows self.old.forms.keys self.old.rows.items }
        ensures row { IfOk result (λ r. r ≡ positive_row form.now) }
        ensures clears { OnOk result (Clears form.now) }
        ensures rows { OnOk result (AreRows self.new.forms.keys self.new.rows.items) }
        ensures refused { IfErr result (HasNoRow form.now) }
    {
        let (place, is_new) = self.forms.insert_full(*form)?;
        if is_new {
            let row = row_of(form, Strength::Strict)?;
            self.rows.push(row)?;
            return Ok(row);
        }
        Ok(self.rows[place])
    }

    // Adds the rows that each form of a set is above 0.
    fn push_set(&mut self, system: &mut System, set: &[Form]) -> Result<(), SameError>
        requires columns { All (λ f. length f ≡ system.old.system.columns) set.now }
        requires room { length system.old.system.rows + length set.now ≤ system.old.room }
        requires rows { AreRows self.old.forms.keys self.old.rows.items }
        ensures pushed { OnOk result (system.new ≡ kept system.old.system.columns system.old.room
            (system.old.system.rows ++ map positive_row set.now)) }
        ensures clear { OnOk result (All Clears set.now) }
        ensures rows { OnOk result (AreRows self.new.forms.keys self.new.rows.items) }
        ensures refused { IfErr result (HaveNoRows set.now) }
    {
        for form in set {
            let row = self.row(form)?;
            system.push(row);
        }
        Ok(())
    }

    // The system of a set.
    fn system_of(
        &mut self,
        alloc: Global,
        domain: &Domain,
        set: &[Form],
    ) -> Result<System, SameError>
        requires columns { All (λ f. length f ≡ columns_of domain.now) set.now }
        requires few { length set.now ≤ 64 }
        requires rows { AreRows self.old.forms.keys self.old.rows.items }
        ensures system { IfOk result (λ s. s.system ≡ asked domain.now set.now) }
        ensures clear { OnOk result (All Clears set.now) }
        ensures rows { OnOk result (AreRows self.new.forms.keys self.new.rows.items) }
        ensures refused { IfErr result (HaveNoRows set.now) }
    {
        let mut system = domain_system(alloc, domain, set.len())?;
        self.push_set(&mut system, set)?;
        Ok(system)
    }

    // Whether all forms of a set are above 0 at no point of the domain.
    fn ask(&mut self, alloc: Global, domain: &Domain, set: &[Form]) -> Result<(), SameError>
        requires columns { All (λ f. length f ≡ columns_of domain.now) set.now }
        requires few { length set.now ≤ 64 }
        requires rows { AreRows self.old.forms.keys self.old.rows.items }
        ensures nowhere { OnOk result (IsNowhere domain.now set.now) }
        ensures rows { OnOk result (AreRows self.new.forms.keys self.new.rows.items) }
        ensures refused { IfErr result (SetStops domain.now set.now) }
    {
        let system = self.system_of(alloc, domain, set)?;
        has_no_point(alloc, &mut self.solver, system)
    }

    /// Whether that is so of each set, asked one after the other.
    pub fn ask_all(
        &mut self,
        alloc: Global,
        domain: &Domain,
        form: &NormalForm,
    ) -> Result<(), SameError>
        requires columns { All (All (λ f. length f ≡ columns_of domain.now)) form.now }
        requires few { All (λ S. length S ≤ 64) form.now }
        requires rows { AreRows self.old.forms.keys self.old.rows.items }
        ensures nowhere { OnOk result (All (IsNowhere domain.now) form.now) }
        ensures rows { OnOk result (AreRows self.new.forms.keys self.new.rows.items) }
        ensures refused { IfErr result (SetsStop domain.now form.now) }
    {
        for index in 0..form.sets() {
            self.ask(alloc, domain, form.set(index))?;
        }
        Ok(())
    }
}

// The rows of the domain, with room for so many more.
fn domain_system(alloc: Global, domain: &Domain, more: usize) -> Result<System, AllocError>
    requires few { more ≤ 64 }
    ensures { IfOk result (λ s. s ≡ kept (columns_of domain.now) (length domain.now.rows + more) domain.now.rows) }
{
    let rows = domain.rows();
    let mut system = System::with_room(alloc, domain.inside().len(), rows.len() + more)?;
    for row in rows {
        system.push(*row);
    }
    Ok(system)
}

// Whether a system has no point.
fn has_no_point(alloc: Global, solver: &mut Solver, system: System) -> Result<(), SameError>
    ensures none { OnOk result (HasNoPoint system.system) }
    ensures refused { IfErr result (SystemStops system.system) }
{
    match solver.decide(alloc, &system) {
        Ok(None) => Ok(()),
        Ok(Some(point)) => Err(SameError::Differ { point }),
        Err(SolveError::TooBig) => Err(SameError::TooBig { system }),
        Err(SolveError::TooManyRows) => Err(SameError::TooManyRows { system }),
        Err(SolveError::Memory) => Err(SameError::Memory),
    }
}
