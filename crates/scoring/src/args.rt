// A call's arguments.
ghost use Rattle.std.specs.Prelude.{◌≡◌, ◌++◌, ◌∷◌, [], ◌<◌, ◌≤◌, length};

use std::marker::Model;

// An argument: its node, and its name where it has one. Its type lies in the node's slot.
#[derive(Clone, Copy, Default)]
pub struct Arg {
    pub node: usize,
    pub name: Option<u16>,
}

// At most 16 of them, each place behind them blank; a twin of symbol's Params, for the reason that stands there.
#[derive(Clone, Copy)]
pub struct Args {
    items: [Arg; 16],
    count: usize,
}

impl Model for Args {
    ghost use Rattle.std.specs.Prelude.{List, length, take};
    ghost use Rattle.symbol.specs.Inside.Occupied.{Occupied, with_blanks, occupied_all, occupied_length};
    ghost use Rattle.scoring.specs.declared.args.Arg.{Arg};
    ghost use Rattle.scoring.specs.Inside.NoArg.{no_arg};

    ghost Value = { List Arg };

    ghost view = { λ s. take s.count s.items };

    ghost invariant = { λ s. Occupied no_arg s.count s.items };

    ghost inverse = { λ xs. record { items = with_blanks no_arg xs; count = length xs } };

    ghost inverse_ok = { λ s h i. record { items = occupied_all h i; count = occupied_length h i } };
}

impl Args {
    // No arguments.
    pub fn new() -> Args
        ensures { result ≡ [] }
    {
        Args {
            items: [Arg::default(); 16],
            count: 0,
        }
    }

    // How many there are.
    pub fn len(&self) -> usize
        ensures value { result ≡ length self.now }
        ensures fits { result ≤ 16 }
    {
        self.count
    }

    // The arguments, one behind another.
    pub fn as_slice(&self) -> &[Arg]
        ensures value { result.now ≡ self.now }
        ensures fits { length result.now ≤ 16 }
    {
        &self.items[..self.count]
    }

    // One argument more.
    pub fn push(&mut self, x: Arg)
        requires { length self.old < 16 }
        ensures { self.new ≡ self.old ++ x ∷ [] }
    {
        self.items[self.count] = x;
        self.count += 1;
    }
}
