// Whether an overload fits a number of arguments.
ghost use Rattle.std.specs.Prelude.{ℕ, ◌≡◌, List};
ghost use Rattle.symbol.specs.Inside.LookupAnswer.{params_in, overload_in};
ghost use Rattle.scoring.specs.Arity.{required as required_of, last_vararg, fits};

use symbol::functions::{Function, Params};

// How many parameters have no default and are not vararg.
#[tactic(auto, using(crate::proofs::Arities::required_counted))]
fn required(params: &Params) -> usize
    ensures { (t : List ℕ) → result ≡ required_of (params_in t params.now) }
{
    params
        .as_slice()
        .iter()
        .filter(|p| !(p.default || p.vararg))
        .count()
}

// Whether the last parameter is vararg.
#[tactic(auto, using(crate::proofs::Arities::last_some, crate::proofs::Arities::last_none))]
fn last_vararg(params: &Params) -> bool
    ensures { (t : List ℕ) → result ≡ last_vararg (params_in t params.now) }
{
    params.as_slice().last().is_some_and(|p| p.vararg)
}

// Whether n arguments are enough and not too many.
#[tactic(auto, using(crate::proofs::ParamsAndArgsLeft::params_length), unfolding(crate::specs::Arity::fits))]
pub fn viable(f: &Function, n: usize) -> bool
    ensures { (t : List ℕ) → result ≡ fits n (overload_in t f.now) }
{
    let params = &f.params;
    required(params) <= n && (last_vararg(params) || n <= params.len())
}
