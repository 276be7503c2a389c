// Unary nodes.
ghost use Rattle.std.specs.Prelude.{◌≡◌};
ghost use Rattle.operators.specs.Inside.UnaryRule.{unary_one, unary_ruled};
ghost use Rattle.question.specs.OperatorNumber.{unary_number};

use crate::operand::{is_logical, is_number};
use crate::ruled::{OneReport, Ruled, checked, clean, fails};
use area::{DiagnosticKind, Source};
use question::operator::UnOp;
use ty::{Kind, is_kind};

#[tactic(auto, unfolding(crate::specs::Inside::UnaryRule::unary_one, ty::specs::Choose::choose, question::specs::OperatorNumber::unary_number))]
fn unary(op: UnOp, t: &[u8]) -> OneReport
    ensures { result ≡ unary_one (unary_number op) t.now }
{
    if is_kind(t, Kind::Nullable) {
        return fails(DiagnosticKind::NullableUnary as u8);
    }
    match op {
        UnOp::Minus => checked(is_number(t), Source::First, DiagnosticKind::Minus as u8),
        UnOp::Not => checked(
            is_logical(t),
            Source::Kind(Kind::Boolean as u8),
            DiagnosticKind::Not as u8,
        ),
        UnOp::Increment | UnOp::Decrement => {
            checked(is_number(t), Source::First, DiagnosticKind::Step as u8)
        }
        UnOp::AddrOf => clean(Source::Pointer),
        UnOp::Dereference => {
            if is_kind(t, Kind::Pointer) {
                return clean(Source::Inner);
            }
            fails(DiagnosticKind::Dereference as u8)
        }
        UnOp::NotNull => fails(DiagnosticKind::NotNull as u8),
    }
}

// The type of an operator on an operand of the type t, and what is reported. A number of no operator, which no accepted question has, is ruled as NotNull.
#[tactic(auto, using(crate::proofs::PastLast::unary_read))]
pub fn check_unary(op: u8, t: &[u8]) -> Ruled
    ensures { result ≡ unary_ruled op t.now }
{
    unary(UnOp::try_from(op).unwrap_or(UnOp::NotNull), t).into()
}
