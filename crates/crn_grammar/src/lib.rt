//! Grammars of lines, as tables of what may follow a line, and the right answer to a text.
//!
//! The laws say that the answer line by line is the right one, by what continuations a text has: its value, the first line after which no text can go on, or
//! the first line that passes a limit; that there is one right answer; and the same of a part of a text and of texts in two parts.
#![tactic(auto)]

mod error;

ghost use Rattle.std.specs.Prelude.{ℕ, Bool, List, Option, Some, IsTrue, ◌≡◌, ◌↔◌};
ghost use Rattle.crn_grammar.specs.Table.{Table, CanEnd, IsText, PassesNone, IsAnswer, Answer, Read, after, answer};
ghost use Rattle.crn_grammar.specs.Part.{Either, Part, PartAnswer, Ends, IsPart, IsPartAnswer, part_answer, joined_table, go_on};
ghost use Rattle.crn_grammar.specs.Followed.{followed_table};

pub use error::TextError;

/// Where each place that lines lead to can still end, the answer line by line is the right one: the value of a text, the first
/// line after which no text can go on, or the first line that passes a limit.
pub fn answer_is_right<S, L, F, W>()
    ensures { (table : Table S L F W) (number : L → ℕ) (end : ℕ) (lines : List L) → CanEnd table
        → IsAnswer table number end lines (answer table number end table.start lines) }
{}

/// There is one right answer to a text.
pub fn right_answer_is_one<S, L, F, W>()
    ensures { (table : Table S L F W) (number : L → ℕ) (end : ℕ) (lines : List L) (a : Answer F W) → CanEnd table
        → IsAnswer table number end lines a → answer table number end table.start lines ≡ a }
{}

/// A text of the grammar that passes no limit is read, with its value.
pub fn text_is_read<S, L, F, W>()
    ensures { (table : Table S L F W) (number : L → ℕ) (end : ℕ) (lines : List L) (f : F) → IsText table lines f → PassesNone table lines
        → answer table number end table.start lines ≡ Read f }
{}

/// Each place can end where a test of the places, which passes at the start and after each line that is allowed, lets them end.
pub fn places_can_end<S, L, F, W>()
    ensures { (table : Table S L F W) (is_fine : S → Bool) → IsTrue (is_fine table.start)
        → ((s : S) (line : L) (t : S) → IsTrue (is_fine s) → table.next s line ≡ Some t → IsTrue (is_fine t))
        → ((s : S) → IsTrue (is_fine s) → (more : List L) × (t : S) × (f : F) × (after table s more ≡ Some t) × (table.whole t ≡ Some f))
        → CanEnd table }
{}

/// The answer to a part line by line is its value and the rest exactly where the lines are a part with this value, and then the rest.
pub fn parts_are_read<S, L, F, W>()
    ensures { (table : Table S L F W) (goes_on : S → L → Bool) (number : L → ℕ) (end : ℕ) (lines : List L) (f : F) (rest : List L)
        → (part_answer table goes_on number end table.start lines ≡ Ends f rest) ↔ IsPart table goes_on lines f rest }
{}

/// Where each place that lines lead to can still end, the answer to a part line by line is the right one: its value and the rest, the
/// first line that goes on and is not allowed or before which the part must not end, or the first line that passes a limit.
pub fn part_answer_is_right<S, L, F, W>()
    ensures { (table : Table S L F W) (goes_on : S → L → Bool) (number : L → ℕ) (end : ℕ) (lines : List L) → CanEnd table
        → IsPartAnswer table goes_on number end lines (part_answer table goes_on number end table.start lines) }
{}

/// There is one right answer to a part.
pub fn right_part_is_one<S, L, F, W>()
    ensures { (table : Table S L F W) (goes_on : S → L → Bool) (number : L → ℕ) (end : ℕ) (lines : List L) (a : PartAnswer L F W) → CanEnd table
        → IsPartAnswer table goes_on number end lines a → part_answer table goes_on number end table.start lines ≡ a }
{}

/// The answer to a text that begins with a part is the answer to the part, and then the answer to what follows it.
pub fn part_comes_first<S, R, L, F, G, W>()
    ensures { (table : Table S L F W) (goes_on : S → L → Bool) (start : F → R) (next : R → L → Option R) (whole : R → Option G) (limit : R → Option W)
        (number : L → ℕ) (end : ℕ) (s : S) (lines : List L)
        → answer (joined_table table goes_on start next whole limit) number end (Part s) lines
        ≡ go_on table goes_on start next whole limit number end (part_answer table goes_on number end s lines) }
{}

/// A text of a part and of what follows it, within the limits of both, is a part, and then a text of what follows a part with this value; its value is made of the two values.
pub fn texts_in_two_parts<S, R, L, F, V, G, W>()
    ensures { (table : Table S L F W) (goes_on : S → L → Bool) (rest : F → Table R L V W) (value : F → V → G) (lines : List L) (g : G)
        → (IsText (followed_table table goes_on rest value) lines g × PassesNone (followed_table table goes_on rest value) lines)
        ↔ ((f : F) × (v : V) × (more : List L) × IsPart table goes_on lines f more × IsText (rest f) more v × PassesNone (rest f) more × (value f v ≡ g)) }
{}
