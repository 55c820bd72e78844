//! Formulas in text: their nodes and depth are counted without recursion, before a tree is built.

ghost use Rattle.std.specs.Prelude.{ℕ, List, Bool, Some, None, ◌≡◌, ◌+◌, ◌<◌, ◌≤◌, ◌^◌, map, reverse, length, if◌then◌else◌, IfOk, OnOk, IfSome, IfNone, vec_len};
ghost use Rattle.std.specs.Option.{option_map, option_and_then};
ghost use Rattle.crn_token.specs.Plain.{plain_token};
ghost use Rattle.crn_grammar.specs.Table.{after};
ghost use Rattle.crn_formula.specs.Formulas as plain;
ghost use Rattle.crn_formula.specs.Views.{plain_of};
ghost use Rattle.crn_form_text.specs.Grammar.{SpellsFormula};
ghost use Rattle.crn_form_text.specs.Reading.{number_next, factor_next, factor_value, walks, whole_of, mark_of};
ghost use Rattle.crn_form_text.specs.Shown as shown;
ghost use Rattle.crn_form_text.specs.Built.{applied, build_next, builds, IsWalkOf, IsReadAs};

use crate::form::{FormReader, Place, narrow};
use crate::mark::{Mark, Operator, mark_of};
use crate::number::Count;
use crn_formula::{Formula, has_constant};
use crn_fraction::Frac;
use crn_linear::Form;
use crn_token::Token;
use std::alloc::{AllocError, Global};

/// The greatest number of nodes of a formula in text.
const MOST_NODES: usize = 2048;

/// The greatest depth of a formula in text.
const MOST_DEPTH: usize = 64;

/// What is open around a place in a formula.
#[derive(Clone, Copy, Debug)]
pub(crate) enum Frame {
    /// An operator, in its first operand.
    First(Operator),
    /// An operator, in its second operand.
    Second(Operator),
    /// `scale` by this fraction, in its operand.
    Times(Frac),
}

/// A node of a formula, where it stands after its operands.
#[derive(Clone, Copy, Debug)]
pub(crate) enum Item {
    Leaf(Form),
    Scale(Frac),
    Apply(Operator),
}

/// What is expected next, or was read just now.
#[derive(Clone, Copy, Debug)]
pub(crate) enum Mode {
    Want,
    Opens(Operator),
    Scales,
    InFactor(Place),
    InForm,
    Have,
}

// A number with its sign after a token more, if it is allowed.
fn next_in_term(negative: bool, count: Count, mark: Mark) -> Option<Place>
    ensures { result ≡ number_next negative count mark }
{
    match count.next(negative, mark) {
        Some(next) => Some(Place::Term(negative, next)),
        None => None,
    }
}

// The fraction of `scale` after a token more, if it is allowed.
fn factor_next(place: Place, mark: Mark) -> Option<Place>
    ensures { result ≡ factor_next place mark }
{
    match place {
        Place::Begin => match mark {
            Mark::Minus => Some(Place::Term(true, Count::Empty)),
            _ => next_in_term(false, Count::Empty, mark),
        },
        Place::Term(negative, count) => next_in_term(negative, count, mark),
        _ => None,
    }
}

// The fraction of `scale`, if it may end here.
fn factor_value(place: Place) -> Option<Frac>
    ensures { result ≡ factor_value place }
{
    match place {
        Place::Term(_, count) => count.value(),
        _ => None,
    }
}

/// A walk over the tokens of a formula, without recursion.
#[derive(Drop)]
pub(crate) struct Walk {
    mode: Mode,
    reader: FormReader,
    frames: Vec<Frame>,
    items: Vec<Item>,
    nodes: usize,
    depth: usize,
    affine: bool,
}

impl Walk {
    ghost use Rattle.crn_form_text.specs.Shown.{walk_of};
    ghost use Rattle.crn_form_text.specs.Reading.{walk_next, want_next, in_factor_next, in_form_next, having, comma, close, opened, with_item, with_leaf, walk_start};

    fn new(alloc: Global) -> Walk
        ensures { walk_of result ≡ walk_start }
    {
        Walk {
            mode: Mode::Want,
            reader: FormReader::new(),
            frames: Vec::new(alloc),
            items: Vec::new(alloc),
            nodes: 0,
            depth: 0,
            affine: false,
        }
    }

    // Goes on within an operator.
    fn open(&mut self, frame: Frame) -> Result<(), AllocError>
        ensures walk { OnOk result (walk_of self.new ≡ opened (walk_of self.old) frame) }
        ensures nodes { self.new.nodes ≤ self.old.nodes }
    {
        self.frames.push(frame)?;
        self.mode = Mode::Want;
        Ok(())
    }

    // Counts a node, which ends here, and keeps it where a function may have so many.
    fn end_node(&mut self, item: Item) -> Result<(), AllocError>
        requires { self.old.nodes < 2 ^ 63 }
        ensures walk { OnOk result (walk_of self.new ≡ with_item (walk_of self.old) item) }
        ensures nodes { self.new.nodes ≤ self.old.nodes + 1 }
    {
        self.nodes += 1;
        if self.items.len() < MOST_NODES {
            self.items.push(item)?;
        }
        self.mode = Mode::Have;
        Ok(())
    }

    // Counts a leaf, which ends here.
    fn end_leaf(&mut self, variables: usize, form: Form) -> Result<(), AllocError>
        requires columns { variables < length form }
        requires nodes { self.old.nodes < 2 ^ 63 }
        ensures walk { OnOk result (walk_of self.new ≡ with_leaf variables (walk_of self.old) form) }
        ensures nodes { self.new.nodes ≤ self.old.nodes + 1 }
    {
        self.depth = self.depth.max(self.frames.len() + 1);
        self.affine = has_constant(&form, variables) || self.affine;
        self.end_node(Item::Leaf(form))
    }

    // Ends the form, if one is being read, and tells whether a formula is whole.
    fn have(&mut self, variables: usize) -> Result<bool, AllocError>
        requires few { variables ≤ 8 }
        requires nodes { self.old.nodes < 2 ^ 63 }
        ensures walk { IfOk result (λ has. having variables (walk_of self.old).mode (walk_of self.old) ≡ (if has then Some (walk_of self.new) else None)) }
        ensures nodes { self.new.nodes ≤ self.old.nodes + 1 }
    {
        match self.mode {
            Mode::Have => Ok(true),
            Mode::InForm => {
                if !self.reader.close(variables) {
                    return Ok(false);
                }
                let form = self.reader.form(variables + 1);
                self.end_leaf(variables, form)?;
                Ok(true)
            }
            _ => Ok(false),
        }
    }

    // Goes on to the second operand.
    fn comma(&mut self) -> Result<bool, AllocError>
        ensures walk { IfOk result (λ ok. comma (walk_of self.old).frames (walk_of self.old) ≡ (if ok then Some (walk_of self.new) else None)) }
        ensures nodes { self.new.nodes ≤ self.old.nodes }
    {
        let Some(frame) = self.frames.pop() else {
            return Ok(false);
        };
        match frame {
            Frame::First(operator) => self.open(Frame::Second(operator))?,
            _ => return Ok(false),
        }
        Ok(true)
    }

    // Ends an operator.
    fn close(&mut self) -> Result<bool, AllocError>
        requires { self.old.nodes < 2 ^ 63 }
        ensures walk { IfOk result (λ ok. close (walk_of self.old).frames (walk_of self.old) ≡ (if ok then Some (walk_of self.new) else None)) }
        ensures nodes { self.new.nodes ≤ self.old.nodes + 1 }
    {
        let Some(frame) = self.frames.pop() else {
            return Ok(false);
        };
        match frame {
            Frame::First(_) => return Ok(false),
            Frame::Second(operator) => self.end_node(Item::Apply(operator))?,
            Frame::Times(factor) => self.end_node(Item::Scale(factor))?,
        }
        Ok(true)
    }

    // Takes a token, and tells whether it is allowed.
    fn take(&mut self, variables: usize, mark: Mark) -> Result<bool, AllocError>
        requires few { variables ≤ 8 }
        requires nodes { self.old.nodes + 1 < 2 ^ 63 }
        ensures walk { IfOk result (λ allowed. walk_next variables (walk_of self.old).mode (walk_of self.old) mark ≡ (if allowed then Some (walk_of self.new) else None)) }
        ensures nodes { self.new.nodes ≤ self.old.nodes + 2 }
    {
        match self.mode {
            Mode::Want => return Ok(self.take_first(variables, mark)),
            Mode::Opens(operator) => match mark {
                Mark::Left => self.open(Frame::First(operator))?,
                _ => return Ok(false),
            },
            Mode::Scales => match mark {
                Mark::Left => self.mode = Mode::InFactor(Place::Begin),
                _ => return Ok(false),
            },
            Mode::InFactor(place) => return self.take_in_factor(place, mark),
            _ => match mark {
                Mark::Comma => return Ok(self.have(variables)? && self.comma()?),
                Mark::Right => return Ok(self.have(variables)? && self.close()?),
                _ => return Ok(self.take_in_form(variables, mark)),
            },
        }
        Ok(true)
    }

    // Takes the first token of a formula.
    fn take_first(&mut self, variables: usize, mark: Mark) -> bool
        requires { variables ≤ 8 }
        ensures walk { want_next variables (walk_of self.old) mark ≡ (if result then Some (walk_of self.new) else None) }
        ensures nodes { self.new.nodes ≤ self.old.nodes }
    {
        match mark {
            Mark::Word(operator) => {
                self.mode = Mode::Opens(operator);
                true
            }
            Mark::Scale => {
                self.mode = Mode::Scales;
                true
            }
            _ => {
                self.reader = FormReader::new();
                self.mode = Mode::InForm;
                self.reader.take(variables, mark)
            }
        }
    }

    // Takes a token of the fraction of `scale`, or the `,` after it.
    fn take_in_factor(&mut self, place: Place, mark: Mark) -> Result<bool, AllocError>
        ensures walk { IfOk result (λ allowed. in_factor_next place (walk_of self.old) mark ≡ (if allowed then Some (walk_of self.new) else None)) }
        ensures nodes { self.new.nodes ≤ self.old.nodes }
    {
        match mark {
            Mark::Comma => match factor_value(place) {
                Some(factor) => self.open(Frame::Times(factor))?,
                None => return Ok(false),
            },
            _ => match factor_next(place, mark) {
                Some(next) => self.mode = Mode::InFactor(next),
                None => return Ok(false),
            },
        }
        Ok(true)
    }

    // Takes a token within a form.
    fn take_in_form(&mut self, variables: usize, mark: Mark) -> bool
        requires { variables ≤ 8 }
        ensures walk { in_form_next variables (walk_of self.old).mode (walk_of self.old) mark ≡ (if result then Some (walk_of self.new) else None) }
        ensures nodes { self.new.nodes ≤ self.old.nodes }
    {
        match self.mode {
            Mode::InForm => self.reader.take(variables, mark),
            _ => false,
        }
    }
}

// The walk over all tokens, if they are a formula.
fn walk_over(
    alloc: Global,
    bytes: &[u8],
    tokens: &[Token],
    variables: usize,
) -> Result<Option<Walk>, AllocError>
    requires { variables ≤ 8 }
    ensures { IfOk result (λ found. option_map shown.walk_of found ≡ whole_of (walks variables) (map mark_of (map (plain_token bytes.now) tokens.now))) }
{
    let mut walk = Walk::new(alloc);
    for token in tokens {
        if !walk.take(variables, mark_of(bytes, *token))? {
            return Ok(None);
        }
    }
    if walk.have(variables)? && walk.frames.is_empty() {
        Ok(Some(walk))
    } else {
        Ok(None)
    }
}

// The formula of the operands that an operator ends.
fn applied(alloc: Global, operator: Operator, a: Formula, b: Formula) -> Result<Formula, AllocError>
    ensures { IfOk result (λ e. plain_of e ≡ applied operator (plain_of a) (plain_of b)) }
{
    let left = Box::new(alloc, a)?;
    let right = Box::new(alloc, b)?;
    Ok(match operator {
        Operator::Add => Formula::Add(left, right),
        Operator::Sub => Formula::Sub(left, right),
        Operator::Min => Formula::Min(left, right),
        Operator::Max => Formula::Max(left, right),
    })
}

// Takes a node onto the formulas that are built, and tells whether its operands are there.
fn build_next(
    alloc: Global,
    built: &mut Vec<Formula>,
    item: &Item,
    columns: usize,
) -> Result<bool, AllocError>
    requires { 1 ≤ columns }
    ensures { IfOk result (λ ok. build_next columns (map plain_of (reverse built.old.items)) item.now ≡ (if ok then Some (map plain_of (reverse built.new.items)) else None)) }
{
    match item {
        Item::Leaf(form) => built.push(Formula::Lin(narrow(form, columns)))?,
        Item::Scale(factor) => {
            let Some(a) = built.pop() else {
                return Ok(false);
            };
            built.push(Formula::Scale(*factor, Box::new(alloc, a)?))?;
        }
        Item::Apply(operator) => {
            let Some(b) = built.pop() else {
                return Ok(false);
            };
            let Some(a) = built.pop() else {
                return Ok(false);
            };
            built.push(applied(alloc, *operator, a, b)?)?;
        }
    }
    Ok(true)
}

// The formula of these nodes, each after its operands, with so many columns in each form.
fn build(alloc: Global, items: &[Item], columns: usize) -> Result<Option<Formula>, AllocError>
    requires { 1 ≤ columns }
    ensures { IfOk result (λ found. option_map plain_of found ≡ whole_of (builds columns) items.now) }
{
    let mut built = Vec::new(alloc);
    for item in items {
        if !build_next(alloc, &mut built, item, columns)? {
            return Ok(None);
        }
    }
    let formula = built.pop();
    if built.is_empty() {
        Ok(formula)
    } else {
        Ok(None)
    }
}

/// The formula that tokens spell, or the limit that it passes.
#[derive(Debug, Drop)]
pub enum FormulaText {
    /// It has at most 2,048 nodes and a depth of at most 64. Its forms have a column for each variable, and one more for the constants
    /// exactly where some form has a constant other than 0.
    Within(Formula),
    /// It has so many nodes, more than 2,048.
    TooManyNodes(usize),
    /// It has no more nodes than that, and it is so deep, more than 64.
    TooDeep(usize),
}

// The walk over the tokens, if they are a formula.
fn formula_walk(
    alloc: Global,
    bytes: &[u8],
    tokens: &[Token],
    variables: usize,
) -> Result<Option<Walk>, AllocError>
    requires { variables ≤ 8 }
    ensures found { IfOk result (λ found. IfSome found (λ walk. (e : plain.Formula) × SpellsFormula variables e (map (plain_token bytes.now) tokens.now) × IsWalkOf variables e (shown.walk_of walk))) }
    ensures none { IfOk result (λ found. IfNone found ((e : plain.Formula) → ¬ SpellsFormula variables e (map (plain_token bytes.now) tokens.now))) }
{
    walk_over(alloc, bytes, tokens, variables)
}

// What is answered after a walk over a formula.
fn text_of(alloc: Global, walk: Walk, variables: usize) -> Result<FormulaText, AllocError>
    requires some { 1 ≤ variables }
    requires few { variables ≤ 8 }
    requires walk { (e : plain.Formula) × IsWalkOf variables e (shown.walk_of walk) }
    ensures { IfOk result (λ text. (e : plain.Formula) → IsWalkOf variables e (shown.walk_of walk) → IsReadAs variables e text) }
{
    if walk.nodes > MOST_NODES {
        return Ok(FormulaText::TooManyNodes(walk.nodes));
    }
    if walk.depth > MOST_DEPTH {
        return Ok(FormulaText::TooDeep(walk.depth));
    }
    let columns = if walk.affine {
        variables + 1
    } else {
        variables
    };
    let formula = build(alloc, walk.items.as_slice(), columns)?;
    Ok(FormulaText::Within(formula.unwrap()))
}

/// The formula over so many variables that the tokens spell, or `None` exactly where they spell none. Its nodes and its depth are counted
/// without recursion and before any tree is built, and a formula that passes a limit is never built.
pub fn read_formula(
    alloc: Global,
    bytes: &[u8],
    tokens: &[Token],
    variables: usize,
) -> Result<Option<FormulaText>, AllocError>
    requires some { 1 ≤ variables }
    requires few { variables ≤ 8 }
    ensures found { IfOk result (λ found. IfSome found (λ text. (e : plain.Formula) × SpellsFormula variables e (map (plain_token bytes.now) tokens.now) × IsReadAs variables e text)) }
    ensures none { IfOk result (λ found. IfNone found ((e : plain.Formula) → ¬ SpellsFormula variables e (map (plain_token bytes.now) tokens.now))) }
{
    match formula_walk(alloc, bytes, tokens, variables)? {
        Some(walk) => Ok(Some(text_of(alloc, walk, variables)?)),
        None => Ok(None),
    }
}
