// Which parameter an argument gets: that of its name, or the next that no argument names.
ghost use Rattle.std.specs.Prelude.{ℕ, ◌≡◌, List};
ghost use Rattle.symbol.specs.Inside.LookupAnswer.{optional, params_in};
ghost use Rattle.std.proofs.Math.Option.{none, some};
ghost use Rattle.scoring.specs.Inside.Params.{param_at, named_place};
ghost use Rattle.scoring.specs.Inside.Passes.{mark_one};
ghost use Rattle.scoring.specs.Inside.Received.{ReceivedIs};

use symbol::functions::Param;

// The parameter that an argument gets, if any, and the place from which on parameters are left to the unnamed arguments behind it.
#[derive(Clone, Copy)]
pub struct Received {
    pub param: Option<Param>,
    pub next: usize,
}

// The place of the first parameter of a name.
pub fn named_place(params: &[Param], id: u16) -> Option<usize>
    ensures { (t : List ℕ) → result ≡ named_place t params.now id }
{
    params.iter().position(|p| p.name == id)
}

// The parameter at a place, if there is one.
pub(crate) fn at_place(params: &[Param], place: Option<usize>) -> Option<Param>
    ensures { result ≡ param_at params.now place }
{
    params.get(place?).copied()
}

// The marks once each parameter of a name is marked. They stand beside the parameters, which are only lent, and go on by value: document 01 asks for a mark
// per parameter. By their places, here and below: of a zip with `iter_mut` a proof knows nothing behind the loop.
pub(crate) fn mark(params: &[Param], id: u16, mut marks: [bool; 16]) -> [bool; 16]
    ensures { (t : List ℕ) → result ≡ mark_one (params_in t params.now) (some id) marks }
{
    for j in 0..params.len().min(16) {
        marks[j] |= id == params[j].name;
    }
    marks
}

// What an unnamed argument gets: the first parameter without a mark, from a place on.
pub(crate) fn next_unmarked(params: &[Param], marks: [bool; 16], from: usize) -> Received
    ensures { (t : List ℕ) → ReceivedIs t params.now marks from none result }
{
    for j in from..params.len().min(16) {
        if !marks[j] {
            return Received {
                param: Some(params[j]),
                next: j + 1,
            };
        }
    }
    Received {
        param: None,
        next: from,
    }
}

// What an argument gets, with a name or without. The marks are those of all arguments.
pub fn parameter_for(
    params: &[Param],
    marks: [bool; 16],
    from: usize,
    name: Option<u16>,
) -> Received
    ensures { (t : List ℕ) → ReceivedIs t params.now marks from (optional name) result }
{
    match name {
        None => next_unmarked(params, marks, from),
        Some(id) => Received {
            param: at_place(params, named_place(params, id)),
            next: from,
        },
    }
}
