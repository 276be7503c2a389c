// Assignability.
ghost use Rattle.std.specs.Prelude.{◌≡◌};
ghost use Rattle.symbol.specs.Lookup.{symbols_of};
ghost use Rattle.operators.specs.Assign.{is_named, is_growing, is_list_name, assigns_at_once, assign_step, assigns};
ghost use Rattle.operators.specs.Inside.Core.{goes_inside, core_of};
ghost use Rattle.operators.specs.Inside.Nullables.{nullables as nullables_of};

use crate::operand::numbers;
use below::above::Above;
use ty::{Kind, NameId, is_kind};

// What one look at two types says: yes, no, or it goes by the type inside the left one, inside the right one, or inside both, or by the classes of two
// Named types. The definition has this step apart, too, so that the recursion is in one place (specs/Assign.antt).
#[derive(Clone, Copy)]
pub enum Next {
    Yes,
    No,
    Left,
    Right,
    Both,
    Classes,
}

// A Named of a name.
fn is_named(id: u16, t: &[u8]) -> bool
    ensures { result ≡ is_named id t.now }
{
    is_kind(t, Kind::Named) & (ty::name_of(t) == id)
}

// ArrayList or MutableList, as names.
fn is_growing(t: &[u8]) -> bool
    ensures { result ≡ is_growing t.now }
{
    is_named(NameId::ARRAY_LIST, t) | is_named(NameId::MUTABLE_LIST, t)
}

// List, ArrayList or MutableList, as names.
fn is_list_name(t: &[u8]) -> bool
    ensures { result ≡ is_list_name t.now }
{
    is_named(NameId::LIST, t) | is_growing(t)
}

// The checks that come first and all say yes: tests in order by kinds that are read once, no match, as Any and Error of one type say yes whatever the other is.
// The bytes are compared last, which takes the longest.
#[tactic(auto, using(crate::proofs::Assigns::either_way))]
fn assigns_at_once(a: &[u8], b: &[u8]) -> bool
    ensures { result ≡ assigns_at_once a.now b.now }
{
    let k = ty::kind_of(a);
    let m = ty::kind_of(b);
    if ((m == Kind::Any.number()) | ((m == Kind::Error.number()) | (k == Kind::Error.number())))
        | ((k == Kind::Any.number())
            | (numbers(a, b) | ((k == Kind::List.number()) & (m == Kind::List.number()))))
    {
        return true;
    }
    ty::same_bytes(a, b)
}

// One look at two types. Tests in order by kinds that are read once, no match: three of them ask for names and stand between tests of the kinds.
#[tactic(auto, using(ty::proofs::Choice::chain), unfolding(crate::specs::Assign::assign_step))]
fn step(a: &[u8], b: &[u8]) -> Next
    ensures { result ≡ assign_step a.now b.now }
{
    if assigns_at_once(a, b) {
        return Next::Yes;
    }
    let k = ty::kind_of(a);
    let m = ty::kind_of(b);
    let list = is_list_name(b);
    let array = ty::is_array_kind(m);
    if (k == Kind::List.number()) & array {
        return Next::Both;
    }
    if is_growing(a) & array {
        return Next::Yes;
    }
    if ty::is_array_kind(k) & array {
        return Next::Both;
    }
    if is_list_name(a) & ((m == Kind::List.number()) | list) {
        return Next::Yes;
    }
    if (k == Kind::List.number()) & list {
        return Next::Yes;
    }
    if m == Kind::Nullable.number() {
        return Next::Right;
    }
    if k == Kind::Nullable.number() {
        return Next::Left;
    }
    if k == Kind::Nothing.number() {
        return Next::Yes;
    }
    if (k == Kind::Named.number()) & (m == Kind::Named.number()) {
        return Next::Classes;
    }
    Next::No
}

// How many Nullables a type begins with.
#[tactic(auto, unfolding(crate::specs::Inside::Nullables::nullables))]
fn nullables(t: &[u8]) -> usize
    ensures { result ≡ nullables_of t.now }
{
    t.iter().take_while(|k| **k == Kind::Nullable as u8).count()
}

// Whether the type a assigns to the type b. Nullables are opened together, so that a type of 192 bytes takes no 192 calls.
#[tactic(auto, using(crate::proofs::NullablesOpened::assign_steps))]
pub fn can_assign_to(above: &Above<'_>, a: &[u8], b: &[u8]) -> bool
    ensures { result ≡ assigns (symbols_of above.now) a.now b.now }
{
    let next = step(a, b);
    match next {
        Next::Yes => true,
        Next::No => false,
        Next::Left => can_assign_to(above, ty::tail(a, nullables(a)), b),
        Next::Right => can_assign_to(above, a, ty::tail(b, nullables(b))),
        Next::Both => can_assign_to(above, ty::inner(a), ty::inner(b)),
        Next::Classes => above.is_below(ty::name_of(a), ty::name_of(b)),
    }
}

// A kind of a left type that assignability goes inside: Array, Nullable, List.
fn goes_inside(k: u8) -> bool
    ensures { result ≡ goes_inside k }
{
    ty::is_array_kind(k) | ((k == Kind::Nullable as u8) | (k == Kind::List as u8))
}

// The name of the Named that a type comes to inside Arrays, Nullables and Lists, and NameId::NONE where it comes to none. Of the classes above others,
// assignability from the type asks only for those above this one.
pub fn core_of(t: &[u8]) -> u16
    ensures { result ≡ core_of t.now }
{
    let mut at = t;
    while goes_inside(ty::kind_of(at)) {
        at = ty::inner(at);
    }
    if is_kind(at, Kind::Named) {
        return ty::name_of(at);
    }
    NameId::NONE
}
