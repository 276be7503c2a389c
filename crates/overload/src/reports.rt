// What is reported at single arguments.
ghost use Rattle.std.specs.Prelude.{ℕ, ◌+◌, ◌≤◌, ◌<◌, ◌≡◌, List};
ghost use Rattle.area.specs.Diagnostic.{count_limit};
ghost use Rattle.area.specs.DiagnosticKind.{diagnostic_number};
ghost use Rattle.area.specs.Reported.{reported};
ghost use Rattle.symbol.specs.Lookup.{symbols_of};
ghost use Rattle.symbol.specs.Inside.LookupAnswer.{optional, params_in};
ghost use Rattle.overload.specs.Reports.{unknowns, suits, mismatches};
ghost use Rattle.scoring.specs.WithParams.{with_params};
ghost use Rattle.scoring.specs.Inside.Args.{args_in};
ghost use Rattle.scoring.specs.Inside.Params.{param_here};
ghost use Rattle.overload.specs.Inside.DiagIf.{diag_if, unknown, suits_param};
ghost use Rattle.ty.specs.Bytes.{Ty};

use area::DiagnosticKind;
use area::reports::Reports;
use area::types::{Slot, type_of};
use below::above::Above;
use rules::accept::param_accepts;
use scoring::args::Args;
use scoring::parameter::{named_place, parameter_for};
use scoring::score::named_pass;
use symbol::functions::{Param, Params};
use ty::Kind;

// A diagnostic, where a test holds. The test stands beside what it reports: an Option of that would be made from the test and opened at once. Room is asked,
// here and below, since the bound of what is reported goes by the number of nodes, which no type here knows.
#[tactic(auto, using(crate::proofs::ArgumentReports::reported_yes, crate::proofs::ArgumentReports::reported_no))]
pub fn report_if(
    test: bool,
    kind: DiagnosticKind,
    node: usize,
    number: usize,
    reports: &mut Reports<'_>,
)
    requires { reports.old.count < count_limit }
    ensures { reports.new ≡ reported reports.old (diag_if test (diagnostic_number kind) node number) }
{
    if test {
        reports.report(kind.number(), node, number);
    }
}

// Whether an argument has a name that no parameter has.
fn unknown(params: &Params, name: Option<u16>) -> bool
    ensures { (t : List ℕ) → result ≡ unknown (optional name) (params_in t params.now) }
{
    name.is_some_and(|id| named_place(params.as_slice(), id).is_none())
}

// The unknown names among a call's arguments.
pub fn unknown_names(params: &Params, args: &Args, reports: &mut Reports<'_>)
    requires { reports.old.count + 16 ≤ count_limit }
    ensures { (t : List ℕ) (ts : List Ty) → reports.new ≡ reported reports.old (unknowns (params_in t params.now) 1 (args_in ts args.now)) }
{
    for (i, x) in args.as_slice().iter().enumerate() {
        let test = unknown(params, x.name);
        report_if(test, DiagnosticKind::UnknownName, x.node, i + 1, reports);
    }
}

// Whether an argument of the type x suits a parameter of the type p.
fn suits(above: &Above<'_>, p: &[u8], x: &[u8], vararg: bool) -> bool
    ensures { result ≡ suits (symbols_of above.now) p.now x.now vararg }
{
    param_accepts(above, p, x, vararg)
        || ty::is_kind(p, Kind::Any)
        || ty::is_kind(x, Kind::Error)
        || ty::is_kind(x, Kind::Any)
}

// The same for the parameter that it gets, if any.
#[tactic(auto, using(crate::proofs::SingleReports::suits_told))]
fn suits_param(above: &Above<'_>, param: Option<Param>, x: &[u8]) -> bool
    ensures { result ≡ suits_param (symbols_of above.now) (param_here above.now param) x.now }
{
    let Some(p) = param else {
        return true;
    };
    let t = area::part(above.table().bytes(), p.part);
    suits(above, t, x, p.vararg)
}

// The check of a single overload that does not match, in argument order: each argument against the parameter that it gets. For above, slots and args apart see
// calls.rt.
pub fn mismatches<const N: usize>(
    above: &Above<'_>,
    params: &Params,
    slots: &[Slot<N>],
    args: &Args,
    reports: &mut Reports<'_>,
)
    requires { reports.old.count + 16 ≤ count_limit }
    ensures { reports.new ≡ reported reports.old
        (mismatches (symbols_of above.now) 1 (with_params (params_in above.now params.now) (args_in slots.now args.now))) }
{
    let params = params.as_slice();
    let marks = named_pass(above, params, slots, args).marks;
    let mut next = 0;
    for (i, x) in args.as_slice().iter().enumerate() {
        let own = parameter_for(params, marks, next, x.name);
        next = own.next;
        let fine = suits_param(above, own.param, type_of(slots, x.node));
        report_if(!fine, DiagnosticKind::Mismatch, x.node, i + 1, reports);
    }
}
