//! Networks, printed line by line.

ghost use Rattle.std.specs.Prelude.{◌≡◌, ◌++◌, ◌∷◌, [], pos, ◌<ℤ◌, length, map, string_bytes, IfOk, OnOk, All};
ghost use Rattle.crn_net.specs.Network.{AreParts};
ghost use Rattle.crn_net.specs.Limits.{IsValid};
ghost use Rattle.crn_net.specs.Views.{part_of, parts_of, reaction_of, reactions_of};
ghost use Rattle.crn_token.specs.Plain.{plain_lines};
ghost use Rattle.crn_token.specs.Printed.{spelled, printed};
ghost use Rattle.crn_grammar.specs.Table.{IsText, PassesNone};
ghost use Rattle.crn_net_text.specs.Grammar.{network_table};
ghost use Rattle.crn_net_text.specs.NetworkText.{IsSmall, IsSmallReaction, HasSmallCounts, species_items, part_items, next_items, side_items, gives_items, reaction_items, ends_items, context_lines, header_lines, input_line, output_line, ends_lines, reaction_lines, network_text};

use crn_net::{Ends, Network, Part, Rails, Reaction};
use crn_token::print_number;
use std::alloc::{AllocError, Global};
use std::fmt::Write;

/// The text of a network, every line of it ended by a line feed. A network with a context is printed as version 2, and one without as version 1.
/// `read_network` refuses it for want of memory alone, and otherwise gives the network.
pub fn print_network(alloc: Global, network: &Network) -> Result<Vec<u8>, AllocError>
    ensures text { IfOk result (λ text. text.items ≡ network_text network.now) }
    // The text reads back as the network and passes no limit.
    ensures spells { IfOk result (λ text. IsText network_table (plain_lines text.items) network.now) }
    ensures limits { IfOk result (λ text. PassesNone network_table (plain_lines text.items)) }
    // No count in the text is above the greatest number that a text can have.
    ensures counts { IfOk result (λ text. HasSmallCounts network.now) }
{
    let mut out = String::new(alloc);
    write_header(&mut out, network)?;
    write_all_ends(&mut out, network)?;
    write_reactions(&mut out, network)?;
    Ok(out.into_bytes())
}

// The version with the rails, and the number of species.
fn write_header(out: &mut String, network: &Network) -> Result<(), AllocError>
    ensures text { OnOk result (string_bytes out.new ≡ string_bytes out.old ++ printed (header_lines network.now)) }
    ensures valid { IsValid network.now }
{
    let version = match network.context() {
        Some(_) => 2u32,
        None => 1,
    };
    let rails = match network.rails() {
        Rails::Dual => "dual",
        Rails::Direct => "direct",
    };
    let species = network.species();
    write!(out, "crn {version} {rails}\nspecies {species}\n")
}

// `Sa`.
fn write_species(out: &mut String, species: u32) -> Result<(), AllocError>
    ensures { OnOk result (string_bytes out.new ≡ string_bytes out.old ++ spelled (species_items species)) }
{
    out.push('S')?;
    print_number(out, u64::from(species))
}

// ` Sa Sb` of a pair, and ` Sa` of one.
fn write_ends(out: &mut String, ends: Ends) -> Result<(), AllocError>
    ensures { OnOk result (string_bytes out.new ≡ string_bytes out.old ++ spelled (ends_items ends)) }
{
    match ends {
        Ends::Pair(a, b) => {
            out.push(' ')?;
            write_species(out, a)?;
            out.push(' ')?;
            write_species(out, b)
        }
        Ends::One(a) => {
            out.push(' ')?;
            write_species(out, a)
        }
    }
}

fn write_input(out: &mut String, ends: Ends) -> Result<(), AllocError>
    ensures { OnOk result (string_bytes out.new ≡ string_bytes out.old ++ printed (input_line ends ∷ [])) }
{
    out.push_str("input")?;
    write_ends(out, ends)?;
    out.push('\n')
}

fn write_inputs(out: &mut String, inputs: &[Ends]) -> Result<(), AllocError>
    ensures { OnOk result (string_bytes out.new ≡ string_bytes out.old ++ printed (map input_line inputs.now)) }
{
    for ends in inputs {
        write_input(out, *ends)?;
    }
    Ok(())
}

fn write_context(out: &mut String, context: Option<u32>) -> Result<(), AllocError>
    ensures { OnOk result (string_bytes out.new ≡ string_bytes out.old ++ printed (context_lines context)) }
{
    if let Some(context) = context {
        write!(out, "context S{context}\n")?;
    }
    Ok(())
}

fn write_output(out: &mut String, ends: Ends) -> Result<(), AllocError>
    ensures { OnOk result (string_bytes out.new ≡ string_bytes out.old ++ printed (output_line ends ∷ [])) }
{
    out.push_str("output")?;
    write_ends(out, ends)?;
    out.push('\n')
}

// The inputs, the context where there is one, and the output.
fn write_all_ends(out: &mut String, network: &Network) -> Result<(), AllocError>
    ensures { OnOk result (string_bytes out.new ≡ string_bytes out.old ++ printed (ends_lines network.now)) }
{
    write_inputs(out, network.inputs())?;
    write_context(out, network.context())?;
    write_output(out, network.output())
}

// A count of 1 is not written.
fn write_part(out: &mut String, part: Part) -> Result<(), AllocError>
    requires { pos 0 <ℤ part.count }
    ensures text { OnOk result (string_bytes out.new ≡ string_bytes out.old ++ spelled (part_items (part_of part))) }
    ensures small { IsSmall (part_of part) }
{
    let Part { species, count } = part;
    if count != 1 {
        print_number(out, count.unsigned_abs())?;
        out.push(' ')?;
    }
    write_species(out, species)
}

// A part, with ` + ` before it where it is not the first.
fn write_next(out: &mut String, index: usize, part: Part) -> Result<(), AllocError>
    requires { pos 0 <ℤ part.count }
    ensures text { OnOk result (string_bytes out.new ≡ string_bytes out.old ++ spelled (next_items index (part_of part))) }
    ensures small { IsSmall (part_of part) }
{
    if index > 0 {
        out.push_str(" + ")?;
    }
    write_part(out, part)
}

// The parts, with ` + ` between two.
fn write_side(out: &mut String, parts: &[Part]) -> Result<(), AllocError>
    requires { All (λ p. pos 0 <ℤ p.count) parts.now }
    ensures text { OnOk result (string_bytes out.new ≡ string_bytes out.old ++ spelled (side_items (parts_of parts.now))) }
    ensures small { OnOk result (All IsSmall (parts_of parts.now)) }
{
    for (index, part) in parts.iter().enumerate() {
        write_next(out, index, *part)?;
    }
    Ok(())
}

// What a reaction gives, or `0`.
fn write_gives(out: &mut String, parts: &[Part]) -> Result<(), AllocError>
    requires { All (λ p. pos 0 <ℤ p.count) parts.now }
    ensures text { OnOk result (string_bytes out.new ≡ string_bytes out.old ++ spelled (gives_items (parts_of parts.now))) }
    ensures small { OnOk result (All IsSmall (parts_of parts.now)) }
{
    match parts {
        [] => out.push('0'),
        [_, ..] => write_side(out, parts),
    }
}

fn write_reaction(out: &mut String, reaction: &Reaction) -> Result<(), AllocError>
    requires takes { All (λ p. pos 0 <ℤ p.count) reaction.now.takes.items }
    requires gives { All (λ p. pos 0 <ℤ p.count) reaction.now.gives.items }
    ensures text { OnOk result (string_bytes out.new ≡ string_bytes out.old ++ printed (reaction_items (reaction_of reaction.now) ∷ [])) }
    ensures small { OnOk result (IsSmallReaction (reaction_of reaction.now)) }
{
    write_side(out, &reaction.takes)?;
    out.push_str(" -> ")?;
    write_gives(out, &reaction.gives)?;
    out.push('\n')
}

// How many reactions there are, and a line for each.
fn write_reactions(out: &mut String, network: &Network) -> Result<(), AllocError>
    ensures text { OnOk result (string_bytes out.new ≡ string_bytes out.old ++ printed (reaction_lines network.now)) }
    ensures small { OnOk result (HasSmallCounts network.now) }
{
    let count = network.reaction_count();
    write!(out, "reactions {count}\n")?;
    for index in 0..count {
        write_reaction(out, network.reaction(index + 1))?;
    }
    Ok(())
}
