//! The text of a network: printed and read.
//!
//! `print_network` answers the text of `specs/NetworkText.antt`, and `read_network` the right answer for the table of lines of `specs/Grammar.antt`; the texts of the
//! table are the printed lines of networks, so a printed network reads back as itself.
#![tactic(auto)]

ghost use Rattle.std.specs.Prelude.{◌≡◌, ◌≤◌, List, vec_len, IfOk};
ghost use Rattle.crn_token.specs.Lines.{AreLinesOf};
ghost use Rattle.crn_token.specs.Plain.{PlainLine, plain_lines, line_number, end_of};
ghost use Rattle.crn_grammar.specs.Table.{IsText, PassesNone, IsAnswer};
ghost use Rattle.crn_grammar.specs.Table as table;
ghost use Rattle.crn_grammar.specs.Part.{IsPart, IsPartAnswer, Ends};
ghost use Rattle.crn_grammar.specs.Reading.{Gives, GivesPart, GivesUpTo, IsRight, IsRightPart, IsRightUpTo};
ghost use Rattle.crn_net.specs.Network as plain;
ghost use Rattle.crn_net.specs.Limits.{IsWithinLimits};
ghost use Rattle.crn_net_text.specs.Grammar.{IsNetworkText, network_table, goes_on, network_answer, network_part, part_of_lines};

use crn_grammar::TextError;
use crn_net::Network;
use crn_token::words::tokens_of;
use crn_token::{LineSource, Lines, LinesFrom, TextLines};
use place::Place;
use std::alloc::Global;

pub mod laws;
mod place;
mod print;
mod side;
mod words;

pub use print::print_network;
pub use side::species_at;

/// Why a text has no network that can be answered.
pub type NetTextError = TextError;

/// The network part that begins the lines, and the index of the first line after it: the part ends with the last reaction that its
/// line of reactions counts.
pub fn read_network_lines(
    alloc: Global,
    bytes: &[u8],
    lines: &Lines,
) -> Result<(Network, usize), NetTextError>
    requires lines { AreLinesOf bytes.now lines.now }
    ensures answer { GivesPart (λ n. n) (plain_lines bytes.now) result (network_part bytes.now) }
    // Each answer is the right one: the network of the part, the malformed line, or the first limit that is passed.
    ensures part { IsRightPart (λ n. n) (plain_lines bytes.now) result (IsPartAnswer network_table goes_on line_number (end_of bytes.now) (plain_lines bytes.now)) }
    // A part that passes no limit is read.
    ensures read { (net : plain.Network) (rest : List PlainLine) → IsPart network_table goes_on (plain_lines bytes.now) net rest
        → GivesPart (λ n. n) (plain_lines bytes.now) result (Ends net rest) }
    ensures next { IfOk result (λ r. r.1 ≤ vec_len lines.now.lines) }
{
    read_from(alloc, bytes, lines)
}

// The same, line by line.
fn read_from(alloc: Global, bytes: &[u8], lines: &Lines) -> Result<(Network, usize), NetTextError>
    requires lines { AreLinesOf bytes.now lines.now }
    ensures answer { GivesPart (λ n. n) (plain_lines bytes.now) result (network_part bytes.now) }
    ensures next { IfOk result (λ r. r.1 ≤ vec_len lines.now.lines) }
{
    let mut source = LinesFrom::new(bytes, lines, 0);
    let network = read_part(alloc, bytes, &mut source)?;
    Ok((network, source.index()))
}

/// The network part that begins at the line that stands next: it ends with the last reaction that its line of reactions counts, and the line after that stands next then.
pub fn read_network_part<S: LineSource>(
    alloc: Global,
    bytes: &[u8],
    source: &mut S,
) -> Result<Network, NetTextError>
    requires text { S.text source.old ≡ bytes.now }
    ensures answer { GivesUpTo (λ n. n) (S.left source.new) result (part_of_lines bytes.now (S.left source.old)) }
    // Each answer is the right one: the network of the part, the malformed line, or the first limit that is passed.
    ensures part { IsRightUpTo (λ n. n) (S.left source.new) result (IsPartAnswer network_table goes_on line_number (end_of bytes.now) (S.left source.old)) }
    // A part that passes no limit is read.
    ensures read { (net : plain.Network) (rest : List PlainLine) → IsPart network_table goes_on (S.left source.old) net rest
        → GivesUpTo (λ n. n) (S.left source.new) result (Ends net rest) }
    ensures same_text { S.text source.new ≡ S.text source.old }
{
    read_part(alloc, bytes, source)
}

// The network part, line by line.
fn read_part<S: LineSource>(
    alloc: Global,
    bytes: &[u8],
    source: &mut S,
) -> Result<Network, NetTextError>
    requires text { S.text source.old ≡ bytes.now }
    ensures answer { GivesUpTo (λ n. n) (S.left source.new) result (part_of_lines bytes.now (S.left source.old)) }
    ensures same_text { S.text source.new ≡ S.text source.old }
{
    let mut place = Place::Start;
    'lines: while let Some(line) = source.line() {
        if place.is_whole() {
            return place.network(alloc, line.number);
        }
        place = place.after(alloc, bytes, line.number, tokens_of(line))?;
        source.advance()?;
    }
    place.network(alloc, source.end())
}

/// The network of a text.
pub fn read_network(alloc: Global, bytes: &[u8]) -> Result<Network, NetTextError>
    // Each answer is the right one: the network of the text, the malformed line, or the first limit that is passed.
    ensures answer { IsRight (λ n. n) result (IsAnswer network_table line_number (end_of bytes.now) (plain_lines bytes.now)) }
    // A text that passes no limit is read.
    ensures read { (net : plain.Network) → IsText network_table (plain_lines bytes.now) net → PassesNone network_table (plain_lines bytes.now)
        → Gives (λ n. n) result (table.Read net) }
    // The lines of what is read are the printed lines of the network, and each text of such lines is read that is within the limits.
    ensures spelled { IfOk result (IsNetworkText (plain_lines bytes.now)) }
    ensures printed { (net : plain.Network) → IsNetworkText (plain_lines bytes.now) net → IsWithinLimits net → Gives (λ n. n) result (table.Read net) }
{
    read_text(alloc, bytes)
}

// The network of a text, line by line.
fn read_text(alloc: Global, bytes: &[u8]) -> Result<Network, NetTextError>
    ensures { Gives (λ n. n) result (network_answer bytes.now) }
{
    let mut source = TextLines::new(alloc, bytes)?;
    let network = read_part(alloc, bytes, &mut source)?;
    if let Some(line) = source.line() {
        return Err(NetTextError::Malformed { line: line.number });
    }
    Ok(network)
}
