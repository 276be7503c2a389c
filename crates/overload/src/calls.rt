// A call of a list of functions.
ghost use Rattle.std.specs.Prelude.{◌+◌, ◌≤◌, ◌<◌, ◌≡◌, length};
ghost use Rattle.area.specs.Diagnostic.{count_limit};
ghost use Rattle.area.specs.Reported.{reported};
ghost use Rattle.index.specs.Inside.Found.{FunctionAt};
ghost use Rattle.record.specs.TableRefused.{table_fault};
ghost use Rattle.symbol.specs.Lookup.{symbols_of};
ghost use Rattle.symbol.specs.Inside.FunctionFields.{function_at};
ghost use Rattle.scoring.specs.Arity.{any_own};
ghost use Rattle.scoring.specs.Inside.Args.{args_in};
ghost use Rattle.scoring.specs.Inside.Scored.{score_of};
ghost use Rattle.ty.specs.Name.{id_number};
ghost use Rattle.overload.specs.Resolve.{none_fits};
ghost use Rattle.overload.specs.Inside.Picked.{taken, picked_in};
ghost use Rattle.overload.specs.Inside.BestPlace.{error_source};
ghost use Rattle.overload.specs.Inside.Tally.{many_of, higher_with, unknowns_at, all_unknown_at, tally_with, tally_more, tally_of, most_diagnostics, Room};
ghost use Rattle.overload.specs.Inside.CallSource.{settled_source, settled_diags, call_at, call_source};

use crate::classes::classes_of;
use crate::reports::{mismatches, report_if, unknown_names};
use area::reports::Reports;
use area::types::Slot;
use area::{DiagnosticKind, Source};
use below::above::{Above, IDS};
use below::marks::{any_parent, mark_above};
use index::index::Place;
use index::table::Table;
use scoring::args::Args;
use scoring::arity::viable;
use scoring::score::{Score, score_function};
use symbol::functions::{Function, is_builtin_function, read_function};
use symbol::lookups::Functions;
use ty::{Kind, Part};

// The highest score so far: how many have it, and where the result of the first of them lies in the table.
#[derive(Clone, Copy)]
pub struct Highest {
    pub score: usize,
    pub many: usize,
    pub result: Part,
}

// What the walk over a function list keeps: the first overload that fits in number, how many fit, and the highest score, if anything matches.
#[derive(Clone, Copy)]
pub struct Tally {
    pub first: Option<Place>,
    pub fitting: usize,
    pub highest: Option<Highest>,
}

// Whether a function of the list is not a builtin.
#[tactic(auto, using(crate::proofs::FunctionListWalk::own_start, crate::proofs::FunctionListWalk::own_on))]
fn any_own(table: &Table<'_>, owner: Option<u16>, id: u16) -> bool
    ensures { result ≡ any_own ((symbols_of table.now).functions_of (id_number owner) id) }
{
    let bytes = table.bytes();
    let mut c = Functions::first(table, owner, id);
    while let Some(p) = c.found() {
        if !is_builtin_function(bytes, p) {
            return true;
        }
        c = c.next(table);
    }
    false
}

// The highest score once one more overload has its score, if it matches. Its result lies in the table.
#[tactic(auto, using(crate::proofs::OverloadFold::higher_by_test))]
fn higher(h: Option<Highest>, found: Part, s: Option<Score>) -> Option<Highest>
    requires { many_of h ≤ 60000 }
    ensures { result ≡ higher_with found (score_of s) h }
{
    let Some(s) = s else {
        return h;
    };
    let first = Some(Highest {
        score: s.points,
        many: 1,
        result: found,
    });
    let Some(best) = h else {
        return first;
    };
    if best.score < s.points {
        return first;
    }
    if best.score == s.points {
        return Some(Highest {
            many: best.many + 1,
            ..best
        });
    }
    h
}

// What is asked here and below is in no type: that a function stands at p, since a place by itself is of no table; and room for what is reported, since its
// bound goes by the number of nodes. above, slots and args stand apart, as scoring takes them: a struct of the three would be made once, and opened in each
// function.

// One more overload, which fits: its unknown names are reported, and it is scored.
fn take_one<const N: usize>(
    above: &Above<'_>,
    p: Place,
    f: &Function,
    slots: &[Slot<N>],
    args: &Args,
    w: Tally,
    reports: &mut Reports<'_>,
) -> Tally
    requires { FunctionAt above.now p × (f.now ≡ function_at above.now p) × Room w reports.old }
    ensures tally { result ≡ tally_with above.now (args_in slots.now args.now) w p }
    ensures reports { reports.new ≡ reported reports.old (unknowns_at above.now p (args_in slots.now args.now)) }
{
    unknown_names(&f.params, args, reports);
    let score = score_function(above, f, slots, args);
    Tally {
        first: w.first.or(Some(p)),
        fitting: w.fitting + 1,
        highest: higher(w.highest, f.result, score),
    }
}

// One more function of the list. own: builtins drop out; a flag, as walk says below.
#[tactic(auto, using(crate::proofs::Tallies::turned))]
fn turn<const N: usize>(
    above: &Above<'_>,
    own: bool,
    p: Place,
    f: &Function,
    slots: &[Slot<N>],
    args: &Args,
    w: Tally,
    reports: &mut Reports<'_>,
) -> Tally
    requires { FunctionAt above.now p × (f.now ≡ function_at above.now p) × Room w reports.old }
    ensures tally { result ≡ tally_more above.now (args_in slots.now args.now) w (taken above.now own (length args.now) p) }
    ensures reports { reports.new ≡ reported reports.old
        (all_unknown_at above.now (taken above.now own (length args.now) p) (args_in slots.now args.now)) }
{
    if (own & f.builtin) || !viable(f, args.len()) {
        return w;
    }
    take_one(above, p, f, slots, args, w, reports)
}

// The walk over the list. own goes down the walk as a flag: a test handed on as a closure would hold it too.
// That there are at most 16 arguments is asked, as only a call of `len` tells it. clean: Table's own invariant, which the caller knows by no other call.
#[tactic(auto, using(crate::proofs::FunctionListWalk::walk_start, crate::proofs::FunctionListWalk::walk_on))]
fn walk<const N: usize>(
    above: &Above<'_>,
    own: bool,
    owner: Option<u16>,
    id: u16,
    slots: &[Slot<N>],
    args: &Args,
    reports: &mut Reports<'_>,
) -> Tally
    requires { (length args.now ≤ 16) × (reports.old.count + most_diagnostics ≤ count_limit) }
    ensures tally { result ≡ tally_of above.now (args_in slots.now args.now) (picked_in above.now own (length args.now) (id_number owner) id) }
    ensures reports { reports.new ≡ reported reports.old
        (all_unknown_at above.now (picked_in above.now own (length args.now) (id_number owner) id) (args_in slots.now args.now)) }
    ensures room { Room result reports.new }
    ensures clean { table_fault above.now ≡ 0 }
{
    let table = above.table();
    let bytes = table.bytes();
    let mut c = Functions::first(table, owner, id);
    let mut w = Tally {
        first: None,
        fitting: 0,
        highest: None,
    };
    while let Some(p) = c.found() {
        let f = read_function(bytes, p);
        w = turn(above, own, p, &f, slots, args, w, reports);
        c = c.next(table);
    }
    w
}

// A call of functions of which none fits in number.
#[tactic(auto, unfolding(crate::specs::Inside::DiagIf::diag_if, crate::specs::Resolve::none_fits))]
fn none_fits(own: bool, node: usize, n: usize, reports: &mut Reports<'_>) -> Source
    requires { reports.old.count < count_limit }
    ensures source { result ≡ error_source }
    ensures reports { reports.new ≡ reported reports.old (none_fits own node n).diags }
{
    report_if(own, DiagnosticKind::ArgumentCount, node, n, reports);
    Source::Kind(Kind::Error as u8)
}

// A call of functions of which at least one fits in number, the first of them being at p.
#[tactic(auto, using(crate::proofs::CallAnswers::settled), unfolding(crate::specs::Inside::DiagIf::diag_if, crate::specs::Resolve::tie_report))]
fn settle<const N: usize>(
    above: &Above<'_>,
    p: Place,
    node: usize,
    slots: &[Slot<N>],
    args: &Args,
    w: Tally,
    reports: &mut Reports<'_>,
) -> Source
    requires { FunctionAt above.now p × Room w reports.old }
    ensures source { result ≡ settled_source above.now p w }
    ensures reports { reports.new ≡ reported reports.old (settled_diags above.now p node (args_in slots.now args.now) w) }
{
    if let Some(best) = w.highest {
        report_if(1 < best.many, DiagnosticKind::Tie, node, best.many, reports);
        return Source::Part(best.result);
    }
    if w.fitting == 1 {
        let f = read_function(above.table().bytes(), p);
        mismatches(above, &f.params, slots, args, reports);
        return Source::Part(f.result);
    }
    // Every diagnostic of an answer has a number: 0 where its kind has nothing to count.
    reports.report(DiagnosticKind::NoMatch.number(), node, 0);
    Source::Kind(Kind::Error as u8)
}

// A call with what is above some classes.
fn resolve<const N: usize>(
    above: &Above<'_>,
    owner: Option<u16>,
    id: u16,
    node: usize,
    slots: &[Slot<N>],
    args: &Args,
    reports: &mut Reports<'_>,
) -> Source
    requires { reports.old.count + most_diagnostics ≤ count_limit }
    ensures source { result ≡ call_source above.now (id_number owner) id (args_in slots.now args.now) }
    ensures reports { reports.new ≡ reported reports.old (call_at above.now (id_number owner) id node slots.now args.now).diags }
{
    let own = any_own(above.table(), owner, id);
    let n = args.len();
    let w = walk(above, own, owner, id, slots, args, reports);
    match w.first {
        None => none_fits(own, node, n, reports),
        Some(p) => settle(above, p, node, slots, args, w, reports),
    }
}

// The same where what is above the arguments' classes is marked first, once for all overloads. Not inlined, as the judge recurses: the marks have 4.7 KB.
#[inline(never)]
fn resolve_marked<const N: usize>(
    table: &Table<'_>,
    classes: &[u16],
    owner: Option<u16>,
    id: u16,
    node: usize,
    slots: &[Slot<N>],
    args: &Args,
    reports: &mut Reports<'_>,
) -> Source
    requires { (length classes.now ≤ 16) × (reports.old.count + most_diagnostics ≤ count_limit) }
    ensures source { result ≡ call_source table.now (id_number owner) id (args_in slots.now args.now) }
    ensures reports { reports.new ≡ reported reports.old (call_at table.now (id_number owner) id node slots.now args.now).diags }
{
    let mut marks = [0u16; IDS];
    mark_above(table, classes, &mut marks);
    let above = Above::of(table, classes, &marks);
    resolve(&above, owner, id, node, slots, args, reports)
}

// The call at a node of the functions of an owner, if there is one, and a name, once its arguments are judged: where its type comes from. The types of the
// arguments lie in their slots. Above a class without parents there is nothing, so that where none has one there is nothing to mark.
pub fn check_call_args<const N: usize>(
    table: &Table<'_>,
    owner: Option<u16>,
    id: u16,
    node: usize,
    slots: &[Slot<N>],
    args: &Args,
    reports: &mut Reports<'_>,
) -> Source
    requires { reports.old.count + most_diagnostics ≤ count_limit }
    ensures source { result ≡ call_source table.now (id_number owner) id (args_in slots.now args.now) }
    ensures reports { reports.new ≡ reported reports.old (call_at table.now (id_number owner) id node slots.now args.now).diags }
{
    let classes = classes_of(slots, args);
    let classes = classes.as_slice();
    if any_parent(table, classes) {
        return resolve_marked(table, classes, owner, id, node, slots, args, reports);
    }
    let above = Above::of(table, classes, &[]);
    resolve(&above, owner, id, node, slots, args, reports)
}
