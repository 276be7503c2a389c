// An overload's score for a call's arguments.
ghost use Rattle.std.specs.Prelude.{◌≤◌, ◌≡◌};
ghost use Rattle.symbol.specs.Lookup.{symbols_of};
ghost use Rattle.symbol.specs.Inside.LookupAnswer.{optional};
ghost use Rattle.scoring.specs.Score.{plus};
ghost use Rattle.scoring.specs.Inside.Args.{args_in};
ghost use Rattle.scoring.specs.Inside.Params.{param_here};
ghost use Rattle.scoring.specs.Inside.Scored.{score_of, as_score, points_of, compared_or, named_more, named_in, TakenOne, positional_in, score_in};

use crate::args::Args;
use crate::parameter::{at_place, mark, named_place, next_unmarked};
use area::types::{Slot, type_of};
use below::above::Above;
use rules::accept::param_accepts;
use symbol::functions::{Function, Param};

// The score of arguments that match.
#[derive(Clone, Copy)]
pub struct Score {
    pub points: usize,
}

// What the named pass hands on: its score, None where an argument does not match, and a mark for each parameter that an argument names.
#[derive(Clone, Copy)]
pub struct NamedPass {
    pub score: Option<Score>,
    pub marks: [bool; 16],
}

// What the positional pass keeps: its score, and the place from which on parameters are left.
#[derive(Clone, Copy)]
pub struct PositionalPass {
    pub score: Option<Score>,
    pub next: usize,
}

// A sum of scores, None where one of them is.
#[tactic(auto, unfolding(crate::specs::Score::plus))]
fn add(a: Option<Score>, b: Option<Score>) -> Option<Score>
    requires { (points_of a ≤ 64) × (points_of b ≤ 64) }
    ensures { result ≡ as_score (plus (score_of a) (score_of b)) }
{
    Some(Score {
        points: a?.points + b?.points,
    })
}

// An argument of the type x against a parameter, and `otherwise` where there is none.
#[tactic(auto, using(crate::proofs::Scores::comparison))]
fn compare(
    above: &Above<'_>,
    param: Option<Param>,
    otherwise: Option<Score>,
    x: &[u8],
) -> Option<Score>
    ensures { result ≡ as_score (compared_or (symbols_of above.now) (score_of otherwise) (param_here above.now param) x.now) }
{
    let Some(p) = param else {
        return otherwise;
    };
    let t = area::part(above.table().bytes(), p.part);
    if ty::same_bytes(x, t) {
        return Some(Score { points: 2 });
    }
    if param_accepts(above, t, x, p.vararg) {
        return Some(Score { points: 1 });
    }
    None
}

// One argument more in the named pass: a named one is compared with the parameter of its name, which it marks.
#[tactic(auto, using(crate::proofs::Scores::named_one_more))]
fn named_turn(
    above: &Above<'_>,
    params: &[Param],
    name: Option<u16>,
    x: &[u8],
    m: NamedPass,
) -> NamedPass
    requires { points_of m.score ≤ 64 }
    ensures { result ≡ named_more above.now params.now (optional name) x.now m }
{
    match name {
        None => m,
        Some(id) => {
            let place = named_place(params, id);
            let score = add(m.score, compare(above, at_place(params, place), None, x));
            let marks = mark(params, id, m.marks);
            NamedPass { score, marks }
        }
    }
}

// The named pass. What is above, slots and arguments apart, here and below: a struct of the three would be taken apart in each function that it comes to.
#[tactic(auto, using(crate::proofs::Scores::named_whole))]
pub fn named_pass<const N: usize>(
    above: &Above<'_>,
    params: &[Param],
    slots: &[Slot<N>],
    args: &Args,
) -> NamedPass
    ensures is { result ≡ named_in above.now params.now (args_in slots.now args.now) }
    ensures few { points_of result.score ≤ 64 }
{
    let mut m = NamedPass {
        score: Some(Score { points: 0 }),
        marks: [false; 16],
    };
    for a in args.as_slice() {
        m = named_turn(above, params, a.name, type_of(slots, a.node), m);
    }
    m
}

// One argument more in the positional pass: an unnamed one is compared with the next parameter that is left, and scores 1 where none is.
fn unnamed_turn(
    above: &Above<'_>,
    params: &[Param],
    marks: [bool; 16],
    name: Option<u16>,
    x: &[u8],
    w: PositionalPass,
) -> PositionalPass
    requires { points_of w.score ≤ 64 }
    ensures { TakenOne above.now params.now marks (optional name) x.now w result }
{
    if name.is_some() {
        return w;
    }
    let own = next_unmarked(params, marks, w.next);
    let one = compare(above, own.param, Some(Score { points: 1 }), x);
    PositionalPass {
        score: add(w.score, one),
        next: own.next,
    }
}

// The positional pass.
#[tactic(auto, using(crate::proofs::Scores::unnamed_whole))]
fn positional_pass<const N: usize>(
    above: &Above<'_>,
    params: &[Param],
    marks: [bool; 16],
    slots: &[Slot<N>],
    args: &Args,
) -> Option<Score>
    ensures is { result ≡ as_score (positional_in above.now params.now marks (args_in slots.now args.now)) }
    ensures few { points_of result ≤ 64 }
{
    let mut w = PositionalPass {
        score: Some(Score { points: 0 }),
        next: 0,
    };
    for a in args.as_slice() {
        w = unnamed_turn(above, params, marks, a.name, type_of(slots, a.node), w);
    }
    w.score
}

// The score of an overload, and none where an argument does not match.
pub fn score_function<const N: usize>(
    above: &Above<'_>,
    f: &Function,
    slots: &[Slot<N>],
    args: &Args,
) -> Option<Score>
    ensures { result ≡ as_score (score_in above.now f.now (args_in slots.now args.now)) }
{
    let params = f.params.as_slice();
    let named = named_pass(above, params, slots, args);
    let score = positional_pass(above, params, named.marks, slots, args);
    add(named.score, score)
}
