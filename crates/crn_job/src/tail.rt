//! The input and segment lines after a function part.

ghost use Rattle.std.specs.Prelude.{ℕ, List, [], ◌∷◌, ◌+◌, Some, None, ◌≡◌, ◌<◌, ◌≤◌, ◌-◌, map, length, IfOk, IfSome};
ghost use Rattle.std.specs.Option.{option_map, option_map_or};
ghost use Rattle.crn_fraction.specs.Rational.{0ℚ, ◌≤ℚ◌};
ghost use Rattle.crn_grammar.specs.Table as table;
ghost use Rattle.crn_grammar.specs.Reading.{judged, Gives};
ghost use Rattle.crn_token.specs.Plain.{plain_token};
ghost use Rattle.crn_job.specs.Grammar as grammar;
ghost use Rattle.crn_job.specs.Grammar.{numbers_of, reaction_at, flow_to, flow_at, flows_of, segment_of, number_of, segments_with, segments_limit, tail_start};
ghost use Rattle.crn_job.specs.Reading.{value_of};

use crate::JobError;
use crate::words::Word;
use crn_form_text::read_fraction;
use crn_fraction::Frac;
use crn_net::Rails;
use crn_segments::{Flow, Segment};
use crn_token::words::after;
use crn_token::{Counted, Sign, Token};
use std::alloc::{AllocError, Global};

/// A place after the function part: so many input lines are to come.
#[derive(Drop)]
pub struct Tail {
    rails: Rails,
    left: usize,
    amounts: Vec<Frac>,
    segments: Vec<Segment>,
}

/// The greatest number of segments of a job.
pub const MOST_SEGMENTS: usize = 10_000;

/// The number, where the tokens are one number and nothing after it.
pub fn one_number(tokens: &[Token]) -> Option<Frac>
    ensures value { (bytes : List ℕ) → result ≡ number_of (map (plain_token bytes) tokens.now) }
    ensures not_negative { IfSome result (λ q. 0ℚ ≤ℚ q) }
{
    match read_fraction(tokens) {
        Some((number, taken)) => {
            let rest = after(tokens, taken);
            if rest.is_empty() { Some(number) } else { None }
        }
        None => None,
    }
}

// The two numbers of all the tokens.
fn two_numbers(tokens: &[Token]) -> Option<(Frac, Frac)>
    ensures { (bytes : List ℕ) → option_map (λ p. p.0 ∷ p.1 ∷ []) result ≡ numbers_of 2 (map (plain_token bytes) tokens.now) }
{
    match read_fraction(tokens) {
        Some((first, taken)) => {
            let rest = after(tokens, taken);
            match one_number(rest) {
                Some(second) => Some((first, second)),
                None => None,
            }
        }
        None => None,
    }
}

// The number of a reaction before a `:`, where both begin the tokens.
fn reaction_at(tokens: &[Token]) -> Option<u64>
    ensures { (bytes : List ℕ) → result ≡ reaction_at (map (plain_token bytes) tokens.now) }
{
    match tokens {
        [Token::Number(number, _), Token::Symbol(Sign::Colon, _), ..] if *number >= 0 => {
            Some(*number as u64)
        }
        _ => None,
    }
}

// The flow of a reaction, by what follows its `:`, and how many tokens it has.
fn flow_to(reaction: u64, tokens: &[Token]) -> Option<(Flow, usize)>
    ensures value { (bytes : List ℕ) → result ≡ flow_to reaction (map (plain_token bytes) tokens.now) }
    ensures taken { IfSome result (λ p. 2 ≤ p.1) }
{
    match read_fraction(tokens) {
        Some((flux, taken)) => Some((Flow { reaction, flux }, 2 + taken)),
        None => None,
    }
}

// The flow that begins the tokens, and how many tokens it has.
fn read_flow(tokens: &[Token]) -> Option<(Flow, usize)>
    ensures value { (bytes : List ℕ) → result ≡ flow_at (map (plain_token bytes) tokens.now) }
    ensures taken { IfSome result (λ p. 2 ≤ p.1) }
{
    match reaction_at(tokens) {
        Some(reaction) => flow_to(reaction, after(tokens, 2)),
        None => None,
    }
}

// The flows of all the tokens.
fn read_flows(alloc: Global, tokens: &[Token]) -> Result<Option<Vec<Flow>>, AllocError>
    ensures { (bytes : List ℕ) → IfOk result (λ found. option_map (λ v. v.items) found ≡ flows_of (length tokens.now) (map (plain_token bytes) tokens.now)) }
{
    let mut flows = Vec::new(alloc);
    let mut rest = tokens;
    'flows: while !rest.is_empty() {
        match read_flow(rest) {
            Some((flow, taken)) => {
                flows.push(flow)?;
                rest = after(rest, taken);
            }
            None => return Ok(None),
        }
    }
    Ok(Some(flows))
}

// The segment of all the tokens.
fn read_segment(alloc: Global, tokens: &[Token]) -> Result<Option<Segment>, AllocError>
    ensures { (bytes : List ℕ) → IfOk result (λ found. found ≡ segment_of (map (plain_token bytes) tokens.now)) }
{
    match read_flows(alloc, tokens)? {
        Some(flows) => match Segment::of(flows) {
            Ok(segment) => Ok(Some(segment)),
            Err(_) => Ok(None),
        },
        None => Ok(None),
    }
}

/// Adds the segment of one more line.
pub fn push_segment(
    alloc: Global,
    segments: &mut Vec<Segment>,
    line: usize,
    rest: &[Token],
) -> Result<(), JobError>
    requires { length segments.old.items ≤ MOST_SEGMENTS }
    ensures { (bytes : List ℕ) → Gives (λ done. segments.new.items) result (judged segments_limit line (segments_with segments.old.items (map (plain_token bytes) rest.now))) }
{
    match read_segment(alloc, rest)? {
        Some(segment) => {
            let count = segments.len() + 1;
            if count > MOST_SEGMENTS {
                return Err(JobError::Limit {
                    what: Counted::Segments,
                    count: count as u64,
                });
            }
            segments.push(segment)?;
            Ok(())
        }
        None => Err(JobError::Malformed { line }),
    }
}

impl Tail {
    ghost use Rattle.crn_job.specs.Reading.{tail_of};

    /// Before the first line.
    pub fn new(alloc: Global, rails: Rails, inputs: usize) -> Tail
        ensures { tail_of result ≡ tail_start rails inputs }
    {
        Tail {
            rails,
            left: inputs,
            amounts: Vec::new(alloc),
            segments: Vec::new(alloc),
        }
    }
    /// The place after one more line with this first word.
    pub fn after(
        self,
        alloc: Global,
        line: usize,
        word: Word,
        rest: &[Token],
    ) -> Result<Tail, JobError>
        requires { length self.segments.items ≤ MOST_SEGMENTS }
        ensures { (bytes : List ℕ) → Gives tail_of result (judged grammar.tail_limit line (grammar.tail_follow (tail_of self) self.left word (map (plain_token bytes) rest.now))) }
    {
        if self.left > 0 {
            match (word, self.rails) {
                (Word::Input, Rails::Dual) => self.dual_input(line, rest),
                (Word::Input, Rails::Direct) => self.direct_input(line, rest),
                _ => Err(JobError::Malformed { line }),
            }
        } else {
            match word {
                Word::Segment => self.with_segment(alloc, line, rest),
                _ => Err(JobError::Malformed { line }),
            }
        }
    }

    // The two amounts of one more input.
    fn dual_input(mut self, line: usize, rest: &[Token]) -> Result<Tail, JobError>
        requires some { 0 < self.left }
        requires few { length self.segments.items ≤ MOST_SEGMENTS }
        ensures { (bytes : List ℕ) → Gives tail_of result (judged grammar.tail_limit line (option_map (λ qs. grammar.with_input (tail_of self) (self.left - 1) qs) (numbers_of 2 (map (plain_token bytes) rest.now)))) }
    {
        match two_numbers(rest) {
            Some(pair) => {
                self.amounts.push(pair.0)?;
                self.amounts.push(pair.1)?;
                self.left -= 1;
                Ok(self)
            }
            None => Err(JobError::Malformed { line }),
        }
    }

    // The amount of one more input.
    fn direct_input(mut self, line: usize, rest: &[Token]) -> Result<Tail, JobError>
        requires some { 0 < self.left }
        requires few { length self.segments.items ≤ MOST_SEGMENTS }
        ensures { (bytes : List ℕ) → Gives tail_of result (judged grammar.tail_limit line (option_map (λ qs. grammar.with_input (tail_of self) (self.left - 1) qs) (numbers_of 1 (map (plain_token bytes) rest.now)))) }
    {
        match one_number(rest) {
            Some(amount) => {
                self.amounts.push(amount)?;
                self.left -= 1;
                Ok(self)
            }
            None => Err(JobError::Malformed { line }),
        }
    }

    // One more segment.
    fn with_segment(mut self, alloc: Global, line: usize, rest: &[Token]) -> Result<Tail, JobError>
        requires { length self.segments.items ≤ MOST_SEGMENTS }
        ensures { (bytes : List ℕ) → Gives tail_of result (judged grammar.tail_limit line (option_map (λ us. grammar.with_segments (tail_of self) us) (segments_with self.segments.items (map (plain_token bytes) rest.now)))) }
    {
        push_segment(alloc, &mut self.segments, line, rest)?;
        Ok(self)
    }

    /// What was read, if the text may end here, before the line `end`.
    pub fn value(self, end: usize) -> Result<(Vec<Frac>, Vec<Segment>), JobError>
        ensures answer { Gives value_of result (option_map_or (λ v. table.Read v) (grammar.tail_whole (tail_of self)) (table.Malformed end)) }
        ensures amounts { IfOk result (λ r. (r.0.items ≡ self.amounts.items) × (self.left ≡ 0)) }
    {
        if self.left > 0 {
            return Err(JobError::Malformed { line: end });
        }
        Ok((self.amounts, self.segments))
    }
}
