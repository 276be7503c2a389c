// Whether a parameter takes an argument.
ghost use Rattle.std.specs.Prelude.{◌≡◌};
ghost use Rattle.symbol.specs.Lookup.{symbols_of};
ghost use Rattle.rules.specs.Accept.{is_variable_name, is_type_variable, param_accepts};

use below::above::Above;
use index::table::Table;
use operators::assign::can_assign_to;
use symbol::lookups::{in_types, is_capital};
use ty::{Kind, is_kind};

// A name of one capital letter that is not in `types`.
pub fn is_variable_name(table: &Table<'_>, id: u16) -> bool
    ensures { result ≡ is_variable_name (symbols_of table.now) id }
{
    is_capital(table, id) && !in_types(table, id)
}

// Whether a type is a Named of such a name.
pub fn is_type_variable(table: &Table<'_>, t: &[u8]) -> bool
    ensures { result ≡ is_type_variable (symbols_of table.now) t.now }
{
    is_kind(t, Kind::Named) && is_variable_name(table, ty::name_of(t))
}

// Whether a parameter of the type p, vararg or not, takes an argument of the type x.
#[tactic(auto, unfolding(crate::specs::Accept::param_accepts))]
pub fn param_accepts(above: &Above<'_>, p: &[u8], x: &[u8], vararg: bool) -> bool
    ensures { result ≡ param_accepts (symbols_of above.now) p.now x.now vararg }
{
    ty::same_bytes(x, p)
        || can_assign_to(above, x, p)
        || is_type_variable(above.table(), p)
        || vararg
        || is_kind(p, Kind::Any)
}
