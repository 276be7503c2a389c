// Tests on operands' types. Each is the definition of its name, in a line: one function with a kind as parameter would take these names from the rules.
// Two operands are lt and rt here and in the rules, as in checker.rs: a struct of both would be made at each call and taken apart in each test.
ghost use Rattle.std.specs.Prelude.{◌≡◌};
ghost use Rattle.operators.specs.Operand.{is_number, is_logical, numbers as numbers_of, either as either_of, char_string};

use ty::{Kind, is_kind};

// A number, or Any.
pub fn is_number(t: &[u8]) -> bool
    ensures { result ≡ is_number t.now }
{
    ty::is_numeric(t) | is_kind(t, Kind::Any)
}

// A Boolean, or Any.
pub fn is_logical(t: &[u8]) -> bool
    ensures { result ≡ is_logical t.now }
{
    ty::is_boolean(t) | is_kind(t, Kind::Any)
}

// Both are numeric.
pub fn numbers(lt: &[u8], rt: &[u8]) -> bool
    ensures { result ≡ numbers_of lt.now rt.now }
{
    ty::is_numeric(lt) & ty::is_numeric(rt)
}

// One of them is of the kind that a byte stands for.
pub fn either(kind: u8, lt: &[u8], rt: &[u8]) -> bool
    ensures { result ≡ either_of kind lt.now rt.now }
{
    (ty::kind_of(lt) == kind) | (ty::kind_of(rt) == kind)
}

// A Char and a String, in either order.
pub fn char_string(lt: &[u8], rt: &[u8]) -> bool
    ensures { result ≡ char_string lt.now rt.now }
{
    (is_kind(lt, Kind::Char) & is_kind(rt, Kind::String))
        | (is_kind(lt, Kind::String) & is_kind(rt, Kind::Char))
}
