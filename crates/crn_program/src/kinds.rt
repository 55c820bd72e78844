//! The kinds of functions, and what is answered where a command is for others.

ghost use Rattle.std.specs.Prelude.{◌≡◌, ◌↔◌, IfOk, IsTrue};
ghost use Rattle.crn_formula.specs.Functions.{IsGivenByPieces};
ghost use Rattle.crn_formula.specs.Views.{kind_of};
ghost use Rattle.crn_function_text.specs.Reading.{function_of};
ghost use Rattle.crn_same.specs.Functions.{IsComparable};
ghost use Rattle.crn_program.specs.Directly.{IsLinearPieces};
ghost use Rattle.crn_program.specs.Finding.{OtherKind, text_of_outcome};

use crate::reply::{Reply, refused};
use crate::status::Status;
use crn_formula::{Function, FunctionKind};
use std::alloc::{AllocError, Global};

/// Whether the function is given by pieces.
pub(crate) fn is_by_pieces(function: &Function) -> bool
    ensures { IsTrue result ↔ IsGivenByPieces (kind_of function.now.kind) }
{
    match function.kind() {
        FunctionKind::Formula(_) => false,
        FunctionKind::Pieces(_) => true,
        FunctionKind::Direct(_) => false,
    }
}

/// Whether it is given by pieces without a constant.
pub(crate) fn is_linear_pieces(function: &Function) -> bool
    ensures { IsTrue result ↔ IsLinearPieces (function_of function.now) }
{
    is_by_pieces(function) && !function.is_affine()
}

/// Whether it may be compared with others: it is not the least of forms.
pub(crate) fn is_comparable(function: &Function) -> bool
    ensures { IsTrue result ↔ IsComparable (kind_of function.now.kind) }
{
    match function.kind() {
        FunctionKind::Formula(_) => true,
        FunctionKind::Pieces(_) => true,
        FunctionKind::Direct(_) => false,
    }
}

/// What is answered where the command is for functions of another kind.
pub(crate) fn other_kind(alloc: Global) -> Result<Reply, AllocError>
    ensures { IfOk result (λ reply.
        (reply.status ≡ Status.WrongKind) × (reply.text.items ≡ text_of_outcome OtherKind)) }
{
    refused(alloc, Status::WrongKind, "wrong kind")
}
