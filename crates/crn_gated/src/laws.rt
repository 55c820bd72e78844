//! What holds of gated networks. Each function here does nothing: its contract is a theorem about the definitions of specs/, proved with the crate.
ghost use Rattle.std.specs.Prelude.{◌≡◌, ◌≤◌, ◌<◌, ◌^◌, ◌+◌, ◌*◌, ◌↔◌, ℕ, List, Some, length, All};
ghost use Rattle.crn_fraction.specs.Rational.{ℚ};
ghost use Rattle.crn_net.specs.Network.{Network, IsNetwork, IsState, Run, AreAmounts, start};
ghost use Rattle.crn_net.specs.declared.Flow.{Flow};
ghost use Rattle.crn_token.specs.Plain.{Plain, PlainLine, plain_lines};
ghost use Rattle.crn_grammar.specs.Table.{CanEnd, IsText, PassesNone};
ghost use Rattle.crn_net.specs.Limits.{IsValid};
ghost use Rattle.crn_net.specs.Reactions.{EachCountOn};
ghost use Rattle.crn_gated.specs.Forms.{GatedForm, AreGatedForms, AreFewGatedForms, HasFracs, gated_value};
ghost use Rattle.crn_gated.specs.Grammar.{PlainGated, SpellsGated, gated_form_of, gated_table};
ghost use Rattle.crn_gated.specs.JobGrammar.{PlainGatedJob, IsFittingGatedJob, gated_job_table};
ghost use Rattle.crn_gated.specs.Layout.{gated_layout};
ghost use Rattle.crn_gated.specs.Completion.{gated_completion, gated_completed};
ghost use Rattle.crn_completer.specs.declared.CompletionTooBig.{CompletionTooBig};
ghost use Rattle.crn_gated.specs.Causes.{IsGatedCause};
ghost use Rattle.crn_gated.specs.Rules.{IsGatedForward};
ghost use Rattle.crn_gated.specs.Refusal.{gated_refusal};
ghost use Rattle.crn_gated.specs.Computes.{ComputesGated};
ghost use Rattle.crn_gated.specs.Written.{one_gated, one_gated_network};

/// The gated layout of forms over k variables is a network.
pub fn layouts_are_networks()
    ensures network { (k : ℕ) (fs : List GatedForm) → AreGatedForms k fs → IsNetwork (gated_layout k fs) }
    // Within the limits of texts it is one that can be made.
    ensures valid { (k : ℕ) (fs : List GatedForm) → AreFewGatedForms k fs → IsValid (gated_layout k fs) }
{}

/// It stably computes the least of the forms, in which a form with a shut gate counts as 0: whatever run leads from a start to a state, the gated completion is a
/// run from there, and the output at its end is that value, which no further run changes.
pub fn layouts_compute()
    ensures { (k : ℕ) (fs : List GatedForm) → AreGatedForms k fs → ComputesGated (gated_layout k fs) (gated_value fs) }
{}

/// Whatever run comes first from a start, the gated completion after it ends in the same state.
pub fn same_ends()
    ensures { (k : ℕ) (fs : List GatedForm) → AreGatedForms k fs → (xs : List ℚ) → AreAmounts (gated_layout k fs) xs
        → (us : List (List Flow)) (c : List ℚ) → Run (gated_layout k fs) (start (gated_layout k fs) xs) us c
        → gated_completed (gated_layout k fs) c ≡ gated_completed (gated_layout k fs) (start (gated_layout k fs) xs) }
{}

/// In every network, whether it feeds forward or not, the gated completion is a run from each state.
pub fn completions_are_runs()
    ensures { (net : Network) → IsNetwork net → (c : List ℚ) → IsState net c
        → Run net c (gated_completion net c) (gated_completed net c) }
{}

/// A gated completion stops for its cause, and for that alone: the first reaction whose turn does not fit, and in this turn the least species that the reaction
/// uses up and whose quotient does not fit, or else the least species whose sum does not.
pub fn refused_completions()
    ensures { (net : Network) → IsNetwork net → (c : List ℚ) (e : CompletionTooBig) → (gated_refusal net c ≡ Some e)
        ↔ IsGatedCause net c e }
{}

/// A gated layout has at most 8 species for inputs and 12 for each form, so that of at most 32 forms is a network within the limits.
pub fn layouts_are_small()
    ensures { (k : ℕ) (fs : List GatedForm) → k ≤ 8 → AreGatedForms k fs
        → (gated_layout k fs).species ≤ 8 + 12 * length fs }
{}

/// In a gated layout each species is taken by at most one reaction, and each reaction that gives it stands before that one, or is that one and gives as much of it
/// as it takes.
pub fn layouts_keep_the_rules()
    ensures { (k : ℕ) (fs : List GatedForm) → AreGatedForms k fs → IsGatedForward (gated_layout k fs) }
{}

/// The gated layout of x2 if x1, written out.
pub fn layouts_written_out()
    ensures { gated_layout 2 one_gated ≡ one_gated_network }
{}

/// What the lines of the grammar take for a form with a gate is what the tokens spell.
pub fn lines_say_what_tokens_spell()
    ensures { (k : ℕ) (f : GatedForm) (tokens : List Plain) → k ≤ 8 → (gated_form_of k tokens ≡ Some f)
        ↔ SpellsGated k f tokens }
{}

/// Wherever lines lead that begin a text of a gated function, some lines more end one. So the answer line by line is the right one.
pub fn places_can_end()
    ensures { CanEnd gated_table }
{}

/// The gated function of a text that passes no limit keeps the rule of gated forms, and its numbers are fractions that fit.
pub fn texts_keep_the_rule()
    ensures rule { (lines : List PlainLine) (f : PlainGated) → IsText gated_table lines f
        → PassesNone gated_table lines → AreFewGatedForms f.variables f.forms }
    ensures numbers { (bytes : List ℕ) (f : PlainGated) → IsText gated_table (plain_lines bytes) f
        → PassesNone gated_table (plain_lines bytes) → All HasFracs f.forms }
{}

/// No count in the gated layout of forms of fractions that fit is above the greatest number of a fraction.
pub fn counts_are_small()
    ensures { (k : ℕ) (fs : List GatedForm) → All HasFracs fs
        → EachCountOn (λ n. n < 2 ^ 63) (gated_layout k fs).reactions }
{}

/// Wherever lines lead that begin a text of a gated job, some lines more end one. So the answer line by line is the right one.
pub fn job_places_can_end()
    ensures { CanEnd gated_job_table }
{}

/// The gated job of a text that passes no limit has forms by the rule, an amount for each variable, none negative, and segments.
pub fn jobs_keep_the_rules()
    ensures { (lines : List PlainLine) (job : PlainGatedJob) → IsText gated_job_table lines job
        → PassesNone gated_job_table lines → IsFittingGatedJob job }
{}
