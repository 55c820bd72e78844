//! What holds of steps and completions. Each function here does nothing: its contract is a theorem about the definitions of `specs/`.
ghost use Rattle.std.specs.Prelude.{ℕ, List, ◌↔◌, ◌≡◌, ◌≢◌, None, Some};
ghost use Rattle.crn_fraction.specs.Rational.{ℚ};
ghost use Rattle.crn_net.specs.Network.{Network, IsNetwork, IsLegal, Run, start};
ghost use Rattle.crn_net.specs.declared.Flow.{Flow};
ghost use Rattle.crn_net.specs.Minimum.{minimum, amounts};
ghost use Rattle.crn_segments.specs.Fits.{StepFits, CompletionFits};
ghost use Rattle.crn_segments.specs.Flows.{IsSegment};
ghost use Rattle.crn_segments.specs.Step.{step_refusal};
ghost use Rattle.crn_segments.specs.Causes.{IsStepCause};
ghost use Rattle.crn_segments.specs.declared.StepError.{StepError};
ghost use Rattle.crn_segments.specs.declared.StepError.TheVariants.{TooBig};
ghost use Rattle.crn_segments.specs.Steps.{AreSegments, StepsGo, StepsFit};

/// Nothing refuses a step exactly where its segment is legal and the step fits.
pub fn legal_steps()
    ensures { (net : Network) → IsNetwork net → (c : List ℚ) (u : List Flow) → IsSegment u → (step_refusal net c u ≡ None) ↔ (IsLegal net c u × StepFits net c u) }
{}

/// A step is refused for its cause, and for that alone: the first flow that may not begin, or else the least species whose sum does not fit or ends below 0.
pub fn refused_steps()
    ensures { (net : Network) → IsNetwork net → (c : List ℚ) (u : List Flow) → IsSegment u → (e : StepError) → (step_refusal net c u ≡ Some e) ↔ IsStepCause net c u e }
{}

/// A segment that is refused for another cause than a number that is too big is not legal; where a number is too big, the step does not fit.
pub fn illegal_steps()
    ensures illegal { (net : Network) → IsNetwork net → (c : List ℚ) (u : List Flow) → IsSegment u → (e : StepError) → IsStepCause net c u e → ((s : ℕ) → e ≢ TooBig s) → ¬ IsLegal net c u }
    ensures unfit { (net : Network) (c : List ℚ) (u : List Flow) (s : ℕ) → IsStepCause net c u (TooBig s) → ¬ StepFits net c u }
{}

/// Steps one after another all answer `Ok` exactly where they are a run and each of them fits.
pub fn steps_are_runs()
    ensures { (net : Network) → IsNetwork net → (c : List ℚ) (us : List (List Flow)) (d : List ℚ) → AreSegments us → StepsGo net c us d ↔ (Run net c us d × StepsFit net c us) }
{}

/// The definitions on an example: the minimum of two variables, of which the first has 3/2 and 1/2 and the second 2 and 0. Its completion fits.
pub fn completion_of_the_minimum()
    ensures { CompletionFits minimum (start minimum amounts) }
{}
