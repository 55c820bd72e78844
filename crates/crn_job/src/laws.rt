//! What holds of job text. Each function here does nothing: its contract is a theorem about the definitions of `specs/`.
ghost use Rattle.std.specs.Prelude.{ℕ, List, Some, ◌≡◌, ◌↔◌, length};
ghost use Rattle.crn_fraction.specs.Rational.{ℚ};
ghost use Rattle.crn_token.specs.Plain.{Plain, PlainLine};
ghost use Rattle.crn_token.specs.Words.{says};
ghost use Rattle.crn_grammar.specs.Table.{CanEnd, IsText, PassesNone};
ghost use Rattle.crn_net.specs.declared.Rails.{Rails};
ghost use Rattle.crn_net.specs.declared.Flow.{Flow};
ghost use Rattle.crn_job.specs.Fitting.{IsFittingJob, IsFittingRunJob};
ghost use Rattle.crn_job.specs.Grammar.{PlainJob, Tail, job_table, tail_table, tail_next, numbers_of, segment_of};
ghost use Rattle.crn_job.specs.RunGrammar.{PlainRunJob, Given, RunTail, run_table, run_next, given_of};
ghost use Rattle.crn_job.specs.Spelled.{SpellsNumbers, SpellsSegment, SpellsAmount, Follows, FollowsRun};

/// What the lines of the grammars take for numbers, for a segment and for an amount is what their tokens spell; and each line is let through exactly where
/// it is one of those that may stand there.
pub fn lines_say_what_tokens_spell()
    ensures numbers { (n : ℕ) (qs : List ℚ) (tokens : List Plain) → (numbers_of n tokens ≡ Some qs) ↔ ((length qs ≡ n) × SpellsNumbers qs tokens) }
    ensures segment { (u : List Flow) (tokens : List Plain) → (segment_of tokens ≡ Some u) ↔ SpellsSegment u tokens }
    ensures amount { (low n : ℕ) (g : Given) (tokens : List Plain) → (given_of low n tokens ≡ Some g) ↔ SpellsAmount low n g tokens }
    ensures line { (t u : Tail) (line : PlainLine) → (tail_next t line ≡ Some u) ↔ Follows t (says line) u }
    ensures run_line { (t u : RunTail) (line : PlainLine) → (run_next t line ≡ Some u) ↔ FollowsRun t (says line) u }
{}

/// Wherever lines lead that begin a text, some lines more end one. So the answer line by line is the right one, of a job, of the lines after its function
/// part, and of a run job.
pub fn places_can_end()
    ensures job { CanEnd job_table }
    ensures run { CanEnd run_table }
    ensures tail { (rails : Rails) (inputs : ℕ) → CanEnd (tail_table rails inputs) }
{}

/// The job of a text that passes no limit has a function by the rule of functions, an amount for each species of its inputs, and segments; a run job has a
/// network that can be made, a state of it, and segments.
pub fn texts_keep_the_rules()
    ensures job { (lines : List PlainLine) (job : PlainJob) → IsText job_table lines job → PassesNone job_table lines → IsFittingJob job }
    ensures run { (lines : List PlainLine) (job : PlainRunJob) → IsText run_table lines job → PassesNone run_table lines → IsFittingRunJob job }
{}
