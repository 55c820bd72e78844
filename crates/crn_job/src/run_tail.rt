//! The amount and segment lines after a network part.

ghost use Rattle.std.specs.Prelude.{ℕ, List, ◌≡◌, ◌<◌, ◌≤◌, map, length, IfOk, IfSome};
ghost use Rattle.crn_fraction.specs.Rational.{0ℚ, ◌≤ℚ◌};
ghost use Rattle.crn_token.specs.Plain.{plain_token};
ghost use Rattle.crn_grammar.specs.Reading.{judged};
ghost use Rattle.crn_job.specs.RunGrammar as run;
ghost use Rattle.crn_job.specs.Reading.{Shows, Leads};

use crate::JobError;
use crate::tail::{MOST_SEGMENTS, one_number, push_segment};
use crate::words::Word;
use crn_fraction::Frac;
use crn_net_text::species_at;
use crn_segments::{Segment, State};
use crn_token::Token;
use crn_token::words::after;
use std::alloc::{AllocError, Global};

/// A species and its amount.
#[derive(Clone, Copy)]
pub struct Given {
    species: u32,
    amount: Frac,
}

/// A place after the network part.
#[derive(Drop)]
pub struct RunTail {
    species: u32,
    /// The species of the last `amount` line, or 0.
    last: u32,
    /// The amounts so far, and 0 of the other species.
    state: State,
    segments: Vec<Segment>,
}

// The species and the amount that are all the tokens.
fn given_of(bytes: &[u8], low: u32, species: u32, tokens: &[Token]) -> Option<Given>
    ensures value { result ≡ run.given_of low species (map (plain_token bytes.now) tokens.now) }
    ensures found { IfSome result (λ g. (low < g.species) × (g.species ≤ species) × (0ℚ ≤ℚ g.amount)) }
{
    match species_at(bytes, low, species, tokens) {
        Some(species) => match one_number(after(tokens, 2)) {
            Some(amount) => Some(Given { species, amount }),
            None => None,
        },
        None => None,
    }
}

impl RunTail {
    ghost use Rattle.crn_job.specs.Reading.{run_value_of};

    /// Before the first line.
    pub fn new(alloc: Global, species: u32) -> Result<RunTail, AllocError>
        ensures { IfOk result (λ c. Shows c (run.run_start species)) }
    {
        Ok(RunTail {
            species,
            last: 0,
            state: State::zero(alloc, species)?,
            segments: Vec::new(alloc),
        })
    }

    /// The place after one more line with this first word.
    pub fn after(
        self,
        alloc: Global,
        bytes: &[u8],
        line: usize,
        word: Word,
        rest: &[Token],
    ) -> Result<RunTail, JobError>
        requires long { length self.state ≡ self.species }
        requires few { length self.segments.items ≤ MOST_SEGMENTS }
        ensures { (t : run.RunTail) → Shows self t → Leads result (judged run.run_limit line (run.run_follow t t.segments word (map (plain_token bytes.now) rest.now))) }
    {
        match word {
            Word::Amount => self.with_amount(bytes, line, rest),
            Word::Segment => self.with_segment(alloc, line, rest),
            _ => Err(JobError::Malformed { line }),
        }
    }

    // The amount of one more species, before the first segment.
    fn with_amount(mut self, bytes: &[u8], line: usize, rest: &[Token]) -> Result<RunTail, JobError>
        requires { length self.state ≡ self.species }
        ensures { (t : run.RunTail) → Shows self t → Leads result (judged run.run_limit line (run.run_follow t t.segments Word.Amount (map (plain_token bytes.now) rest.now))) }
    {
        if !self.segments.is_empty() {
            return Err(JobError::Malformed { line });
        }
        match given_of(bytes, self.last, self.species, rest) {
            Some(given) => {
                self.state.set(given.species, given.amount);
                self.last = given.species;
                Ok(self)
            }
            None => Err(JobError::Malformed { line }),
        }
    }

    // One more segment.
    fn with_segment(
        mut self,
        alloc: Global,
        line: usize,
        rest: &[Token],
    ) -> Result<RunTail, JobError>
        requires { length self.segments.items ≤ MOST_SEGMENTS }
        ensures { (t : run.RunTail) (bytes : List ℕ) → Shows self t → Leads result (judged run.run_limit line (run.run_follow t t.segments Word.Segment (map (plain_token bytes) rest.now))) }
    {
        push_segment(alloc, &mut self.segments, line, rest)?;
        Ok(self)
    }

    /// The state and the segments. A text may end after each of these lines.
    pub fn value(self) -> (State, Vec<Segment>)
        ensures { run_value_of result ≡ record { state = self.state; segments = self.segments.items } }
    {
        (self.state, self.segments)
    }
}
