// Access to members.
ghost use Rattle.std.specs.Prelude.{◌≡◌, ℕ};
ghost use Rattle.symbol.specs.Lookup.{symbols_of};
ghost use Rattle.symbol.specs.Visibility.{visibility_number};
ghost use Rattle.rules.specs.Access.{other_package, blocked};
ghost use Rattle.rules.specs.Inside.AccessRule.{access_ruled};
ghost use Rattle.ty.specs.Name.{known_id};

use area::DiagnosticKind;
use index::table::Table;
use operators::ruled::Diagnostic;
use question::Header;
use symbol::lookups::package_of;
use symbol::subclass::is_subclass;
use symbol::visibility::Visibility;
use ty::known_id;

// Both packages are known, and they differ.
#[tactic(auto, using(crate::proofs::Packages::packages))]
fn other_package(a: Option<u16>, b: Option<u16>) -> bool
    ensures { (x y : ℕ) → a ≡ known_id x → b ≡ known_id y → result ≡ other_package x y }
{
    match (a, b) {
        (Some(a), Some(b)) => a != b,
        _ => false,
    }
}

// What check_access says of a visibility.
#[tactic(auto, using(crate::proofs::Owners::owners), unfolding(crate::specs::Access::blocked))]
fn is_blocked(table: &Table<'_>, header: Header, vis: Visibility, owner: u16) -> bool
    ensures { result ≡ blocked (symbols_of table.now) header (visibility_number vis) owner }
{
    let Some(owner) = known_id(owner) else {
        return false;
    };
    let current = header.current;
    match vis {
        Visibility::Public => false,
        Visibility::Private => current != owner,
        Visibility::Protected => !((current == owner) | is_subclass(table, current, owner)),
        Visibility::Internal => other_package(known_id(header.pkg), package_of(table, owner)),
    }
}

// Whether a member of an owner, of a visibility, is blocked where the script stands. A visibility past Private, which no accepted table has, is ruled as
// Internal. An owner that is none, NameId::NONE, blocks nothing: it is a number, no Option, as the callers read it off a Named type, and the definition
// `blocked` asks of each number whether it is none. Header, visibility and owner apart, here and below: they are the Rust's parameters.
#[tactic(auto, using(crate::proofs::PastPrivate::access_read))]
pub fn check_access(table: &Table<'_>, header: Header, vis: u8, owner: u16) -> bool
    ensures { result ≡ blocked (symbols_of table.now) header vis owner }
{
    let vis = Visibility::try_from(vis).unwrap_or(Visibility::Internal);
    is_blocked(table, header, vis, owner)
}

// What is reported of such a member: the visibility as it was given.
#[tactic(auto, unfolding(crate::specs::Inside::AccessRule::access_ruled, ty::specs::Choose::choose))]
pub fn access_report(table: &Table<'_>, header: Header, vis: u8, owner: u16) -> Option<Diagnostic>
    ensures { result ≡ access_ruled (symbols_of table.now) header vis owner }
{
    check_access(table, header, vis, owner).then_some(Diagnostic {
        kind: DiagnosticKind::Access as u8,
        number: vis,
    })
}
