// The climb along superclasses.
ghost use Rattle.std.specs.Prelude.{◌≡◌};
ghost use Rattle.symbol.specs.Lookup.{symbols_of};
ghost use Rattle.symbol.specs.Subclass.{is_subclass};

use crate::lookups::superclass_of;
use index::table::Table;

// Whether one class is met on the way up from another.
pub fn is_subclass(table: &Table<'_>, class: u16, above: u16) -> bool
    ensures { result ≡ is_subclass (symbols_of table.now) class above }
{
    let mut at = superclass_of(table, class);
    while let Some(id) = at {
        if id == above {
            return true;
        }
        at = superclass_of(table, id);
    }
    false
}
