//! What holds of network text. Each function here does nothing: its contract is a theorem about the definitions of `specs/`.

ghost use Rattle.std.specs.Prelude.{List, ◌≡◌, ◌<◌, ◌↔◌, length};
ghost use Rattle.crn_token.specs.Plain.{PlainLine, plain_lines, line_number, end_of};
ghost use Rattle.crn_token.specs.Printed.{AreLines, lines_read};
ghost use Rattle.crn_grammar.specs.Table.{CanEnd, IsText, PassesNone, IsAnswer, Read};
ghost use Rattle.crn_net.specs.Network.{Network, IsNetwork};
ghost use Rattle.crn_net.specs.Limits.{IsWithinLimits, IsValid};
ghost use Rattle.crn_net_text.specs.NetworkText.{network_lines, network_text, HasSmallCounts};
ghost use Rattle.crn_net_text.specs.Grammar.{IsNetworkText, network_table};

/// Wherever lines lead that begin a text, some lines more end one. So the answer line by line is the right one, and there is no other.
pub fn places_can_end()
    ensures { CanEnd network_table }
{}

/// Lines are a text of the table with a network exactly where they are the printed lines of this network, and it is well formed and has an
/// input.
pub fn texts_are_printed_lines()
    ensures text { (lines : List PlainLine) (net : Network) → IsNetworkText lines net → IsText network_table lines net }
    ensures lines { (lines : List PlainLine) (net : Network) → IsText network_table lines net → IsNetworkText lines net }
{}

/// A text passes no limit exactly where its network is within the limits of networks.
pub fn limits_are_those_of_networks()
    ensures { (lines : List PlainLine) (net : Network) → IsText network_table lines net → (PassesNone network_table lines ↔ IsWithinLimits net) }
{}

/// What is printed of a well formed network with an input reads as its text, where each line of it is made of tokens: no number in it is
/// above the greatest.
pub fn printed_text_is_read()
    ensures { (net : Network) → IsNetwork net → 0 < length net.inputs → AreLines (network_lines net) → IsText network_table (plain_lines (network_text net)) net }
{}

/// What is printed of a valid network, whose counts are numbers that a text can have, is lines of tokens, in which no number is above the
/// greatest. It reads as these lines, and the right answer to it is this network.
pub fn printed_reads_back()
    ensures tokens { (net : Network) → IsValid net → HasSmallCounts net → AreLines (network_lines net) }
    ensures lines { (net : Network) → IsValid net → HasSmallCounts net → plain_lines (network_text net) ≡ lines_read 1 (network_lines net) }
    ensures answer { (net : Network) → IsValid net → HasSmallCounts net
        → IsAnswer network_table line_number (end_of (network_text net)) (plain_lines (network_text net)) (Read net) }
{}
