// What a call reports before its arguments are visited.
ghost use Rattle.std.specs.Prelude.{◌+◌, ◌≤◌, ◌<◌, ◌≡◌, not};
ghost use Rattle.area.specs.Diagnostic.{count_limit};
ghost use Rattle.area.specs.Reported.{reported};
ghost use Rattle.symbol.specs.Lookup.{symbols_of};
ghost use Rattle.ty.specs.Name.{id_number};
ghost use Rattle.operators.specs.Diag.{reported_at as at_node};
ghost use Rattle.overload.specs.Before.{suspend_allowed, suspend_report, call_reports, method_reports};

use crate::reports::report_if;
use area::DiagnosticKind;
use area::reports::Reports;
use index::table::Table;
use question::Header;
use rules::access::check_access;
use symbol::lookups::is_suspend;

// Whether a suspend function is called from outside of one.
fn suspends(table: &Table<'_>, header: Header, owner: Option<u16>, id: u16) -> bool
    ensures { result ≡ not (suspend_allowed (symbols_of table.now) header (id_number owner) id) }
{
    !header.suspend && is_suspend(table, owner, id)
}

// table, header, id, node and reports stand apart, here and below, and vis and owner below: a struct of them would be made for each call, and opened here. Room
// is asked, since the bound of what is reported goes by the number of nodes, which no type here knows.
#[tactic(auto, using(crate::proofs::SingleReports::suspend_reported))]
fn report_suspend(
    table: &Table<'_>,
    header: Header,
    owner: Option<u16>,
    id: u16,
    node: usize,
    reports: &mut Reports<'_>,
)
    requires { reports.old.count < count_limit }
    ensures { reports.new ≡ reported reports.old (at_node node (suspend_report (symbols_of table.now) header (id_number owner) id)) }
{
    let outside = suspends(table, header, owner, id);
    // Every diagnostic of an answer has a number: 0 where its kind has nothing to count.
    report_if(outside, DiagnosticKind::Suspend, node, 0, reports);
}

// What a call of an ownerless function reports before its arguments are visited.
pub fn before_call(
    table: &Table<'_>,
    header: Header,
    id: u16,
    node: usize,
    reports: &mut Reports<'_>,
)
    requires { reports.old.count < count_limit }
    ensures { reports.new ≡ reported reports.old (at_node node (call_reports (symbols_of table.now) header id)) }
{
    report_suspend(table, header, None, id, node, reports);
}

// What a method call reports before its arguments are visited, `vis` being the visibility byte of the list's first function. It stands apart from before_call:
// there is an owner, and access is looked at too.
#[tactic(auto, using(crate::proofs::SingleReports::method_reported))]
pub fn before_method(
    table: &Table<'_>,
    header: Header,
    vis: u8,
    owner: u16,
    id: u16,
    node: usize,
    reports: &mut Reports<'_>,
)
    requires { reports.old.count + 2 ≤ count_limit }
    ensures { reports.new ≡ reported reports.old (at_node node (method_reports (symbols_of table.now) header vis owner id)) }
{
    let blocked = check_access(table, header, vis, owner);
    report_if(blocked, DiagnosticKind::Access, node, vis as usize, reports);
    report_suspend(table, header, Some(owner), id, node, reports);
}
