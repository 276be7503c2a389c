// Operator methods.
ghost use Rattle.std.specs.Prelude.{◌≡◌, ◌≤◌};
ghost use Rattle.operators.specs.OperatorMethod.{has_operator};
ghost use Rattle.question.specs.OperatorNumber.{binary_number};
ghost use Rattle.operators.specs.Inside.MethodPlace.{first_result_place, climb_place_from, operator_place};

use area::Source;
use index::table::Table;
use question::operator::BinOp;
use symbol::functions::read_function;
use symbol::lookups::{first_function, operators_of, superclass_of};
use ty::{Kind, NameId, is_kind, known_id};

// An operator set's mask has the operator's bit.
fn has_operator(mask: u16, op: BinOp) -> bool
    requires { binary_number op ≤ 10 }
    ensures { result ≡ has_operator mask (binary_number op) }
{
    (mask >> op.number()) % 2 == 1
}

// The result of the first function of a class and a name, and Any where there is none.
#[tactic(auto, unfolding(crate::specs::Inside::MethodPlace::first_result_place))]
fn first_result(table: &Table<'_>, class: u16, name: u16) -> Source
    ensures { result ≡ first_result_place table.now class name }
{
    match first_function(table, Some(class), name) {
        None => Source::Kind(Kind::Any as u8),
        Some(place) => Source::Part(read_function(table.bytes(), place).result),
    }
}

// The climb from a class, as long as there are operator sets.
#[tactic(auto, using(crate::proofs::Climbs::climb_steps))]
fn climb(table: &Table<'_>, op: BinOp, class: u16) -> Option<Source>
    requires { binary_number op ≤ 10 }
    ensures { result ≡ climb_place_from table.now (binary_number op) class }
{
    let mut at = known_id(class);
    while let Some(id) = at {
        let mask = operators_of(table, id)?;
        if has_operator(mask, op) {
            return Some(first_result(table, id, NameId::PLUS + op.number() as u16));
        }
        at = superclass_of(table, id);
    }
    None
}

// What operator_overload_return says of an operator.
#[tactic(auto, using(ty::proofs::Choice::chain), unfolding(crate::specs::Inside::MethodPlace::operator_place, question::specs::OperatorNumber::binary_number))]
pub(crate) fn method_return(table: &Table<'_>, op: BinOp, lt: &[u8]) -> Option<Source>
    ensures { result ≡ operator_place table.now (binary_number op) lt.now }
{
    // An `if`, no `then` or `and_then`: with the climb in a closure it is no plainer.
    if (op.number() <= BinOp::Ge.number()) & is_kind(lt, Kind::Named) {
        return climb(table, op, ty::name_of(lt));
    }
    None
}

// Where the type lies that an operator method gives, if there is one. A number of no operator has none.
#[tactic(auto, using(crate::proofs::PastLast::method_read, crate::proofs::PastLast::no_method))]
pub fn operator_overload_return(table: &Table<'_>, op: u8, lt: &[u8]) -> Option<Source>
    ensures { result ≡ operator_place table.now op lt.now }
{
    let op = BinOp::try_from(op).ok()?;
    method_return(table, op, lt)
}
