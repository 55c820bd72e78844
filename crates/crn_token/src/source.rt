//! Sources of token lines: over lines that are in memory, and over the bytes of a text, a line at a time.

ghost use Rattle.std.specs.Prelude.{ℕ, List, Option, ◌≡◌, ◌+◌, ◌<◌, ◌≤◌, ◌==◌, ◌++◌, [], drop, length, vec_len, IfOk, option_copied, false};
ghost use Rattle.std.specs.List.{before_first};
ghost use Rattle.crn_token.specs.Lines.{AreLinesOf, physical_lines, token_lines_from, view};
ghost use Rattle.crn_token.specs.Plain.{PlainLine, plain_lines, end_of};
ghost use Rattle.crn_token.specs.Source.{IsRest, IsNext, read_if};

use crate::{Line, Lines, fill_line, first_line};
use std::alloc::{AllocError, Global};
use std::marker::Model;

/// The token lines of a text, one after another.
pub trait LineSource {
    /// The bytes of the text.
    ghost text: { Self → List ℕ };

    /// What the lines say that are left.
    ghost left: { Self → List PlainLine };

    /// The line that stands next, if there is one. Its spans are of the text.
    fn line(&self) -> Option<&Line>
        ensures { IsNext (text self.now) (left self.now) (option_copied result) };

    /// Goes past that line.
    fn advance(&mut self) -> Result<(), AllocError>
        ensures text { text self.new ≡ text self.old }
        ensures left { IfOk result (λ _. left self.new ≡ drop 1 (left self.old)) };

    /// The number of a line past the last of the text, where no line is left.
    fn end(&self) -> usize
        requires { left self.now ≡ [] }
        ensures { result ≡ end_of (text self.now) };
}

/// The lines of a text that are in memory, from one on.
#[derive(Drop)]
pub struct LinesFrom<'a> {
    bytes: &'a [u8],
    lines: &'a Lines,
    index: usize,
}

impl<'a> Model for LinesFrom<'a> {
    ghost use Rattle.std.specs.Prelude.{◌≤◌, vec_len};
    ghost use Rattle.crn_token.specs.Lines.{AreLinesOf};
    ghost use Rattle.crn_token.specs.Source.{LineIndex};

    ghost Value = { LineIndex };

    ghost view = { λ s. record { text = s.bytes.now; index = s.index } };

    ghost invariant = { λ s. AreLinesOf s.bytes.now s.lines.now × s.index ≤ vec_len s.lines.now.lines };
}

impl<'a> LinesFrom<'a> {
    /// From the line with this index on, counted from 0.
    pub fn new(bytes: &'a [u8], lines: &'a Lines, from: usize) -> LinesFrom<'a>
        requires lines { AreLinesOf bytes.now lines.now }
        requires from { from ≤ vec_len lines.now.lines }
        ensures text { result.text ≡ bytes.now }
        ensures index { result.index ≡ from }
    {
        LinesFrom {
            bytes,
            lines,
            index: from,
        }
    }

    /// The index of the line that stands next.
    pub fn index(&self) -> usize
        ensures value { result ≡ self.now.index }
        ensures within { result ≤ length (plain_lines self.now.text) }
    {
        self.index
    }
}

impl<'a> LineSource for LinesFrom<'a> {
    ghost text = { λ s. s.text };

    ghost left = { λ s. drop s.index (plain_lines s.text) };

    fn line(&self) -> Option<&Line>
        ensures { IsNext self.now.text (drop self.now.index (plain_lines self.now.text)) (option_copied result) }
    {
        if self.index < self.lines.lines.len() {
            Some(&self.lines.lines[self.index])
        } else {
            None
        }
    }

    fn advance(&mut self) -> Result<(), AllocError>
        ensures text { self.new.text ≡ self.old.text }
        ensures left { IfOk result (λ _. drop self.new.index (plain_lines self.new.text) ≡ drop 1 (drop self.old.index (plain_lines self.old.text))) }
    {
        if self.index < self.lines.lines.len() {
            self.index += 1;
        }
        Ok(())
    }

    fn end(&self) -> usize
        requires { drop self.now.index (plain_lines self.now.text) ≡ [] }
        ensures { result ≡ end_of self.now.text }
    {
        self.lines.count + 1
    }
}

/// Where the bytes of a text are cut next.
#[derive(Clone, Copy)]
pub struct Walk<'a> {
    bytes: &'a [u8],
    pub rest: &'a [u8],
    at: usize,
    /// How many physical lines stand before.
    pub count: usize,
    ghost place: { IsRest bytes.now rest.now at count },
}

impl<'a> Walk<'a> {
    /// From the first line on.
    pub fn new(bytes: &'a [u8]) -> Walk<'a>
        ensures bytes { result.bytes.now ≡ bytes.now }
        ensures rest { result.rest.now ≡ bytes.now }
        ensures at { result.at ≡ 0 }
        ensures count { result.count ≡ 0 }
    {
        Walk {
            bytes,
            rest: bytes,
            at: 0,
            count: 0,
        }
    }

    // The first of the physical lines, and the walk after it.
    fn cut(self) -> (&'a [u8], Walk<'a>)
        requires { 0 < length self.rest.now }
        ensures line { result.0.now ≡ before_first (λ b. b == 10) self.entry.rest.now }
        ensures bytes { result.1.bytes.now ≡ self.entry.bytes.now }
        ensures rest { result.1.rest.now ≡ drop (length result.0.now + 1) self.entry.rest.now }
        ensures at { result.1.at ≡ self.entry.at + (length result.0.now + 1) }
        ensures count { result.1.count ≡ self.entry.count + 1 }
        ensures fits { self.entry.at + length result.0.now ≤ length self.entry.bytes.now }
    {
        let (line, after) = first_line(self.rest);
        let next = Walk {
            bytes: self.bytes,
            rest: after,
            at: self.at + (line.len() + 1),
            count: self.count + 1,
        };
        (line, next)
    }
}

/// Fills the line with the next one that has a token or is bad, and says whether there was one.
pub fn next_line<'a>(line: &mut Line, from: Walk<'a>) -> Result<(bool, Walk<'a>), AllocError>
    ensures bytes { IfOk result (λ r. r.1.bytes.now ≡ from.entry.bytes.now) }
    ensures lines { IfOk result (λ r. read_if r.0 (view line.new) ++ token_lines_from (r.1.count + 1) r.1.at (physical_lines r.1.rest.now)
        ≡ token_lines_from (from.entry.count + 1) from.entry.at (physical_lines from.entry.rest.now)) }
    ensures ends { IfOk result (λ r. r.0 ≡ false → r.1.rest.now ≡ []) }
    ensures shorter { IfOk result (λ r. 0 < length from.entry.rest.now → length r.1.rest.now < length from.entry.rest.now) }
{
    let mut walk = from;
    'lines: while !walk.rest.is_empty() {
        let (text, after) = walk.cut();
        let kept = fill_line(line, after.count, walk.at, text)?;
        walk = after;
        if kept {
            return Ok((true, walk));
        }
    }
    Ok((false, walk))
}

/// The lines of a text, read from its bytes one at a time. The tokens of the line that stands next are all that is kept.
#[derive(Drop)]
pub struct TextLines<'a> {
    walk: Walk<'a>,
    some: bool,
    line: Line,
}

impl<'a> Model for TextLines<'a> {
    ghost use Rattle.std.specs.Prelude.{◌≡◌, ◌+◌, ◌++◌, [], false};
    ghost use Rattle.crn_token.specs.Lines.{physical_lines};
    ghost use Rattle.crn_token.specs.Plain.{plain_line, plain_lines_from};
    ghost use Rattle.crn_token.specs.Source.{LinesLeft, read_if};

    ghost Value = { LinesLeft };

    ghost view = { λ s. record { text = s.walk.bytes.now; left = read_if s.some (plain_line s.walk.bytes.now s.line) ++ plain_lines_from (s.walk.count + 1) (physical_lines s.walk.rest.now) } };

    ghost invariant = { λ s. s.some ≡ false → s.walk.rest.now ≡ [] };
}

impl<'a> TextLines<'a> {
    /// From the first line on.
    pub fn new(alloc: Global, bytes: &'a [u8]) -> Result<TextLines<'a>, AllocError>
        ensures text { IfOk result (λ s. s.text ≡ bytes.now) }
        ensures left { IfOk result (λ s. s.left ≡ plain_lines bytes.now) }
    {
        let mut line = Line {
            number: 0,
            bad: false,
            tokens: Vec::new(alloc),
        };
        let (some, walk) = next_line(&mut line, Walk::new(bytes))?;
        Ok(TextLines { walk, some, line })
    }
}

impl<'a> LineSource for TextLines<'a> {
    ghost text = { λ s. s.text };

    ghost left = { λ s. s.left };

    fn line(&self) -> Option<&Line>
        ensures { IsNext self.now.text self.now.left (option_copied result) }
    {
        if self.some { Some(&self.line) } else { None }
    }

    fn advance(&mut self) -> Result<(), AllocError>
        ensures text { self.new.text ≡ self.old.text }
        ensures left { IfOk result (λ _. self.new.left ≡ drop 1 self.old.left) }
    {
        let (some, walk) = next_line(&mut self.line, self.walk)?;
        self.some = some;
        self.walk = walk;
        Ok(())
    }

    fn end(&self) -> usize
        requires { self.now.left ≡ [] }
        ensures { result ≡ end_of self.now.text }
    {
        self.walk.count + 1
    }
}
