// Binary nodes. The operands' types are two parameters, lt and rt, as in `operand`.
ghost use Rattle.std.specs.Prelude.{◌≡◌};
ghost use Rattle.symbol.specs.Lookup.{symbols_of};
ghost use Rattle.operators.specs.Binary.{fractional as fractional_of, takes_nullable};
ghost use Rattle.operators.specs.Inside.BinaryRule.{add_ruled, arithmetic_ruled, equality_ruled, order_ruled, logical_ruled, bitwise_ruled};
ghost use Rattle.operators.specs.Inside.BinaryRule.{operator_ruled, builtin_ruled, binary_ruled};
ghost use Rattle.question.specs.OperatorNumber.{binary_number};

use crate::assign::can_assign_to;
use crate::method::method_return;
use crate::operand::{char_string, either, is_logical, numbers};
use crate::ruled::{OneReport, Ruled, checked, clean, fails, plain, unless};
use area::{DiagnosticKind, Source};
use below::above::Above;
use index::table::Table;
use question::operator::BinOp;
use ty::{Kind, NameId, is_kind};

// One of two numbers is a Float or a Double.
fn fractional(lt: &[u8], rt: &[u8]) -> bool
    ensures { result ≡ fractional_of lt.now rt.now }
{
    either(Kind::Float as u8, lt, rt) | either(Kind::Double as u8, lt, rt)
}

// Add.
#[tactic(auto, using(ty::proofs::Choice::chain), unfolding(crate::specs::Inside::BinaryRule::add_ruled))]
fn add(lt: &[u8], rt: &[u8]) -> OneReport
    ensures { result ≡ add_ruled lt.now rt.now }
{
    if ty::is_string(lt) & (ty::is_string(rt) | is_kind(rt, Kind::Any)) {
        return plain(Kind::String as u8);
    }
    if numbers(lt, rt) {
        if fractional(lt, rt) {
            return plain(Kind::Float as u8);
        }
        return plain(Kind::Int as u8); // of two Longs too
    }
    if either(Kind::String as u8, lt, rt) | either(Kind::Any as u8, lt, rt) {
        return plain(Kind::String as u8);
    }
    fails(DiagnosticKind::Plus as u8)
}

// Sub, Mul, Div, Mod.
#[tactic(auto, unfolding(crate::specs::Inside::BinaryRule::arithmetic_ruled, ty::specs::Choose::choose))]
fn arithmetic(lt: &[u8], rt: &[u8]) -> OneReport
    ensures { result ≡ arithmetic_ruled lt.now rt.now }
{
    if numbers(lt, rt) {
        if fractional(lt, rt) {
            return plain(Kind::Float as u8);
        }
        if either(Kind::Long as u8, lt, rt) {
            return plain(Kind::Long as u8);
        }
        return plain(Kind::Int as u8);
    }
    fails(DiagnosticKind::Numeric as u8)
}

// Eq, Ne.
#[tactic(auto, unfolding(crate::specs::Inside::BinaryRule::equality_ruled))]
fn equality(table: &Table<'_>, lt: &[u8], rt: &[u8]) -> OneReport
    ensures { result ≡ equality_ruled (symbols_of table.now) lt.now rt.now }
{
    let above = Above::none(table);
    checked(
        (can_assign_to(&above, lt, rt) || can_assign_to(&above, rt, lt))
            || (either(Kind::Any as u8, lt, rt) || char_string(lt, rt)),
        Source::Kind(Kind::Boolean as u8),
        DiagnosticKind::Unrelated as u8,
    )
}

// Lt, Gt, Le, Ge.
#[tactic(auto, unfolding(crate::specs::Inside::BinaryRule::order_ruled))]
fn order(lt: &[u8], rt: &[u8]) -> OneReport
    ensures { result ≡ order_ruled lt.now rt.now }
{
    checked(
        numbers(lt, rt)
            | (either(Kind::Any as u8, lt, rt) | (ty::same_bytes(lt, rt) | char_string(lt, rt))),
        Source::Kind(Kind::Boolean as u8),
        DiagnosticKind::NotComparable as u8,
    )
}

// And, Or: each operand is checked.
#[tactic(auto, unfolding(crate::specs::Inside::BinaryRule::logical_ruled))]
fn logical(lt: &[u8], rt: &[u8]) -> Ruled
    ensures { result ≡ logical_ruled lt.now rt.now }
{
    Ruled {
        source: Source::Kind(Kind::Boolean as u8),
        first: unless(is_logical(lt), DiagnosticKind::Logical as u8, 1),
        second: unless(is_logical(rt), DiagnosticKind::Logical as u8, 2),
    }
}

// BitAnd, BitOr, BitXor, Shl, Shr, UShr: the left type, reported or not.
#[tactic(auto, unfolding(crate::specs::Inside::BinaryRule::bitwise_ruled))]
fn bitwise(lt: &[u8], rt: &[u8]) -> OneReport
    ensures { result ≡ bitwise_ruled lt.now rt.now }
{
    checked(
        (ty::is_integer(lt) & ty::is_integer(rt)) | either(Kind::Any as u8, lt, rt),
        Source::First,
        DiagnosticKind::Bitwise as u8,
    )
}

// Every other operator reports a nullable operand.
#[tactic(auto, unfolding(question::specs::OperatorNumber::binary_number))]
fn takes_nullable(op: BinOp) -> bool
    ensures { result ≡ takes_nullable (binary_number op) }
{
    matches!(op, BinOp::Eq | BinOp::Ne | BinOp::And | BinOp::Or)
}

// The operator's own check.
#[tactic(auto, unfolding(crate::specs::Inside::BinaryRule::operator_ruled, ty::specs::Choose::choose, question::specs::OperatorNumber::binary_number))]
fn operator(table: &Table<'_>, op: BinOp, lt: &[u8], rt: &[u8]) -> Ruled
    ensures { result ≡ operator_ruled (symbols_of table.now) (binary_number op) lt.now rt.now }
{
    match op {
        BinOp::Add => add(lt, rt).into(),
        BinOp::Sub | BinOp::Mul | BinOp::Div | BinOp::Mod => arithmetic(lt, rt).into(),
        BinOp::Eq | BinOp::Ne => equality(table, lt, rt).into(),
        BinOp::Lt | BinOp::Gt | BinOp::Le | BinOp::Ge => order(lt, rt).into(),
        BinOp::And | BinOp::Or => logical(lt, rt),
        BinOp::BitAnd | BinOp::BitOr | BinOp::BitXor | BinOp::Shl | BinOp::Shr | BinOp::UShr =>
            bitwise(lt, rt).into(),
        BinOp::Assign | BinOp::As => clean(Source::Second).into(),
        BinOp::To => clean(Source::Name(NameId::PAIR)).into(),
        BinOp::Is => plain(Kind::Boolean as u8).into(),
    }
}

#[tactic(auto, using(ty::proofs::Choice::chain), unfolding(crate::specs::Inside::BinaryRule::builtin_ruled))]
fn builtin_binary(table: &Table<'_>, op: BinOp, lt: &[u8], rt: &[u8]) -> Ruled
    ensures { result ≡ builtin_ruled (symbols_of table.now) (binary_number op) lt.now rt.now }
{
    if (!takes_nullable(op)) & either(Kind::Nullable as u8, lt, rt) {
        return fails(DiagnosticKind::NullableOperands as u8).into();
    }
    operator(table, op, lt, rt)
}

// Error first and silently, then an operator method, then the built-in operators.
#[tactic(auto, using(ty::proofs::Choice::chain), unfolding(crate::specs::Inside::BinaryRule::binary_ruled, crate::specs::Inside::BinaryRule::method_ruled))]
fn binary(table: &Table<'_>, op: BinOp, lt: &[u8], rt: &[u8]) -> Ruled
    ensures { result ≡ binary_ruled table.now (binary_number op) lt.now rt.now }
{
    if either(Kind::Error as u8, lt, rt) {
        return plain(Kind::Error as u8).into();
    }
    let method = method_return(table, op, lt);
    match method {
        None => builtin_binary(table, op, lt, rt),
        Some(source) => clean(source).into(),
    }
}

// The type of an operator on operands of the types lt and rt, and what is reported. A number of no operator, which no accepted question has, is ruled as As.
#[tactic(auto, using(crate::proofs::PastLast::binary_read))]
pub fn check_binary(table: &Table<'_>, op: u8, lt: &[u8], rt: &[u8]) -> Ruled
    ensures { result ≡ binary_ruled table.now op lt.now rt.now }
{
    binary(table, BinOp::try_from(op).unwrap_or(BinOp::As), lt, rt)
}
