//! Functions by pieces to direct networks, where they are superadditive and nowhere negative.

ghost use Rattle.std.specs.Prelude.{◌≡◌, false, IfOk, IfErr};
ghost use Rattle.crn_net.specs.Network.{IsFeedForward};
ghost use Rattle.crn_net.specs.Limits.{IsValid};
ghost use Rattle.crn_formula.specs.Functions.{IsGivenByPieces, is_affine};
ghost use Rattle.crn_formula.specs.Views.{kind_of};
ghost use Rattle.crn_compile.specs.Networks.{ComputesFunction};
ghost use Rattle.crn_compile.specs.DirectNetworks.{IsDirectNetworkOf};
ghost use Rattle.crn_compile.specs.DirectRefusals.{IsRefusedDirect, HasSmallMultiple};

use crate::CompileError;
use crn_direct::compile_direct;
use crn_formula::Function;
use crn_linear::Point;
use crn_net::Network;
use crn_pieces::{PiecesError, check_pieces};
use crn_superadd::{SuperError, superadd};
use std::alloc::{AllocError, Global};
use thiserror::Error;

/// Why a function by pieces has no direct network. It is dropped then.
#[derive(Debug, Drop, Error)]
pub enum DirectError {
    /// `compile` would refuse the pieces so if their domain were the orthant; the max-min formula is not made, so its nodes are no cause.
    #[error("{0}")]
    Compile(CompileError),
    /// The value at the sum of `times` times the first point and the second is less than the sum of the values at these two.
    #[error("the function is not superadditive")]
    NotSuperadditive {
        first: Point,
        times: u128,
        second: Point,
    },
    /// The function is superadditive, and this is the first unit point at which it is negative.
    #[error("the function is negative at a unit point")]
    Negative {
        point: Point,
    },
}

impl From<AllocError> for DirectError {
    ghost use Rattle.crn_compile.specs.declared.CompileError.TheVariants.{Memory};
    ghost use Rattle.crn_compile.specs.declared.direct.DirectError.TheVariants.{Compile};

    ghost from_gives = { λ _ e. e ≡ Compile Memory };

    fn from(_error: AllocError) -> DirectError {
        DirectError::Compile(CompileError::Memory)
    }
}

impl From<PiecesError> for DirectError {
    ghost use Rattle.crn_compile.specs.Refusals.{of_pieces};
    ghost use Rattle.crn_compile.specs.declared.direct.DirectError.TheVariants.{Compile};

    ghost from_gives = { λ p e. e ≡ Compile (of_pieces p) };

    fn from(error: PiecesError) -> DirectError {
        DirectError::Compile(CompileError::from(error))
    }
}

impl From<SuperError> for DirectError {
    ghost use Rattle.crn_compile.specs.DirectRefusals.{of_forms};

    ghost from_gives = { λ s e. e ≡ of_forms s };

    fn from(error: SuperError) -> DirectError {
        match error {
            SuperError::TooBig { system } => DirectError::Compile(CompileError::TooBig { system }),
            SuperError::TooManyRows { system } => {
                DirectError::Compile(CompileError::TooManyRows { system })
            }
            SuperError::TooManyCells { count } => {
                DirectError::Compile(CompileError::TooManyCells { count })
            }
            SuperError::NotSuperadditive {
                first,
                times,
                second,
            } => DirectError::NotSuperadditive {
                first,
                times,
                second,
            },
            SuperError::Negative { point } => DirectError::Negative { point },
            SuperError::Memory => DirectError::Compile(CompileError::Memory),
        }
    }
}

/// The direct network of a function by pieces, which stably computes it at amounts: the direct layout of the used forms of a superadditive function that is nowhere
/// negative. The pieces are looked at on the orthant, whatever the domain of the function is.
pub fn compile_superadditive(alloc: Global, function: Function) -> Result<Network, DirectError>
    requires pieces { IsGivenByPieces (kind_of function.kind) }
    requires linear { is_affine function.variables (kind_of function.kind) ≡ false }
    ensures network { IfOk result (IsDirectNetworkOf function.variables (kind_of function.kind)) }
    ensures valid { IfOk result IsValid }
    ensures feed_forward { IfOk result IsFeedForward }
    ensures computes { IfOk result (λ n. ComputesFunction n function.variables (kind_of function.kind)) }
    ensures refusal { IfErr result (IsRefusedDirect function.variables (kind_of function.kind)) }
    ensures multiple { IfErr result HasSmallMultiple }
{
    // Its clauses say that there are at most 8.
    let _variables = function.variables();
    let checked = check_pieces(alloc, function.on_orthant())?;
    let forms = superadd(alloc, &checked)?;
    Ok(compile_direct(alloc, &forms)?)
}
