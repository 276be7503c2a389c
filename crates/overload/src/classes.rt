// The classes that the arguments of a call come to. What is above these is asked once a call, and not anew for each overload.
ghost use Rattle.std.specs.Prelude.{◌++◌, ◌∷◌, [], ◌<◌, ◌≤◌, ◌≡◌, length};
ghost use Rattle.scoring.specs.Inside.Args.{args_in};
ghost use Rattle.overload.specs.Inside.Classes.{class_of, classes_of};

use area::types::{Slot, type_of};
use operators::assign::core_of;
use scoring::args::Args;
use std::marker::Model;
use ty::NameId;

// At most one for each of 16 arguments, each place behind them 0; a twin of symbol's Params, for the reason that stands there.
#[derive(Clone, Copy)]
pub struct Classes {
    items: [u16; 16],
    count: usize,
}

impl Model for Classes {
    ghost use Rattle.std.specs.Prelude.{ℕ, List, length, take};
    ghost use Rattle.symbol.specs.Inside.Occupied.{Occupied, with_blanks, occupied_all, occupied_length};

    ghost Value = { List ℕ };

    ghost view = { λ s. take s.count s.items };

    ghost invariant = { λ s. Occupied 0 s.count s.items };

    ghost inverse = { λ xs. record { items = with_blanks 0 xs; count = length xs } };

    ghost inverse_ok = { λ s h i. record { items = occupied_all h i; count = occupied_length h i } };
}

impl Classes {
    // No classes.
    pub fn new() -> Classes
        ensures { result ≡ [] }
    {
        Classes {
            items: [0; 16],
            count: 0,
        }
    }

    // The classes, one behind another.
    pub fn as_slice(&self) -> &[u16]
        ensures value { result.now ≡ self.now }
        ensures fits { length result.now ≤ 16 }
    {
        &self.items[..self.count]
    }

    // One class more.
    pub fn push(&mut self, class: u16)
        requires { length self.old < 16 }
        ensures { self.new ≡ self.old ++ class ∷ [] }
    {
        self.items[self.count] = class;
        self.count += 1;
    }
}

// One argument more, of the type x.
fn gather(x: &[u8], classes: &mut Classes)
    requires { length classes.old < 16 }
    ensures { classes.new ≡ classes.old ++ class_of x.now }
{
    let class = core_of(x);
    if class != NameId::NONE {
        classes.push(class);
    }
}

// The classes that assignability from the arguments asks about.
pub fn classes_of<const N: usize>(slots: &[Slot<N>], args: &Args) -> Classes
    ensures { result ≡ classes_of (args_in slots.now args.now) }
{
    let mut classes = Classes::new();
    for a in args.as_slice() {
        gather(type_of(slots, a.node), &mut classes);
    }
    classes
}
