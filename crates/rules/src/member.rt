// Member nodes. Table, owner and id are parameters apart, as in the Rust: structs of owner and name were tried here and not taken over
// (docs/DECISIONS.md, 36).
ghost use Rattle.std.specs.Prelude.{◌≡◌};
ghost use Rattle.symbol.specs.Lookup.{symbols_of};
ghost use Rattle.rules.specs.Member.{is_nullable_object};
ghost use Rattle.rules.specs.Inside.AccessRule.{owner_ruled, base_ruled};
ghost use Rattle.rules.specs.Inside.MemberRule.{variable_ruled, pair_ruled, collection_ruled, string_ruled, element_ruled, map_ruled};
ghost use Rattle.rules.specs.Inside.MemberRule.{class_ruled, named_ruled, kind_ruled, member_ruled};
ghost use Rattle.rules.specs.Inside.Variable.{function_place, variable_place};

use crate::accept::is_variable_name;
use crate::access::access_report;
use area::{DiagnosticKind, Source};
use index::table::Table;
use operators::ruled::{Diagnostic, OneReport, Ruled, clean, fails, plain, report_before};
use question::Header;
use symbol::functions::read_function;
use symbol::lookups::{field_of, first_function, in_types, is_variant, visibility_of};
use ty::{Kind, NameId, is_kind};

// The members that need no table, in six tables of a match each: their rows differ, and what one of them answers goes by the object. One table would
// have a column more, with the six in it, in each of its rows.

// A type variable's members.
#[tactic(auto, using(ty::proofs::Choice::chain), unfolding(crate::specs::Inside::MemberRule::variable_ruled))]
fn variable_member(id: u16) -> OneReport
    ensures { result ≡ variable_ruled id }
{
    match id {
        NameId::TO_STRING => plain(Kind::String as u8),
        NameId::HASH_CODE => plain(Kind::Int as u8),
        NameId::EQUALS => plain(Kind::Boolean as u8),
        _ => plain(Kind::Any as u8),
    }
}

// Pair's.
#[tactic(auto, using(std::proofs::lemmas::Bool::Decides::nat_tests), unfolding(crate::specs::Inside::MemberRule::pair_ruled, ty::specs::Choose::choose))]
fn pair_member(id: u16) -> OneReport
    ensures { result ≡ pair_ruled id }
{
    match id {
        NameId::FIRST | NameId::SECOND => plain(Kind::Any as u8),
        NameId::TO_STRING => plain(Kind::String as u8),
        _ => fails(DiagnosticKind::Unresolved as u8),
    }
}

// Those of the classes List, ArrayList, MutableList, Array and Set, as names.
#[tactic(auto, using(std::proofs::lemmas::Bool::Decides::nat_tests), unfolding(crate::specs::Inside::MemberRule::collection_ruled, ty::specs::Choose::choose))]
fn collection_member(id: u16) -> OneReport
    ensures { result ≡ collection_ruled id }
{
    match id {
        NameId::SIZE | NameId::COUNT | NameId::INDEX_OF => plain(Kind::Int as u8),
        NameId::IS_EMPTY | NameId::CONTAINS => plain(Kind::Boolean as u8),
        NameId::FIRST | NameId::LAST | NameId::GET | NameId::GET_AT => plain(Kind::Any as u8),
        NameId::SET | NameId::ADD | NameId::PUSH | NameId::APPEND => plain(Kind::Unit as u8),
        _ => fails(DiagnosticKind::Unresolved as u8),
    }
}

// String's.
#[tactic(auto, using(std::proofs::lemmas::Bool::Decides::nat_tests), unfolding(crate::specs::Inside::MemberRule::string_ruled, ty::specs::Choose::choose))]
fn string_member(id: u16) -> OneReport
    ensures { result ≡ string_ruled id }
{
    match id {
        NameId::LENGTH | NameId::SIZE => plain(Kind::Int as u8),
        NameId::IS_EMPTY | NameId::IS_NOT_EMPTY => plain(Kind::Boolean as u8),
        NameId::TRIM | NameId::LOWERCASE | NameId::UPPERCASE => plain(Kind::String as u8),
        _ => fails(DiagnosticKind::Unresolved as u8),
    }
}

// A List's or an Array's.
#[tactic(auto, using(std::proofs::lemmas::Bool::Decides::nat_tests), unfolding(crate::specs::Inside::MemberRule::element_ruled, ty::specs::Choose::choose))]
fn element_member(id: u16) -> OneReport
    ensures { result ≡ element_ruled id }
{
    match id {
        NameId::SIZE | NameId::COUNT => plain(Kind::Int as u8),
        NameId::IS_EMPTY => plain(Kind::Boolean as u8),
        NameId::FIRST | NameId::LAST | NameId::GET | NameId::GET_AT => clean(Source::Inner),
        NameId::SET => plain(Kind::Unit as u8),
        _ => fails(DiagnosticKind::Unresolved as u8),
    }
}

// A Map's.
#[tactic(auto, using(ty::proofs::Choice::chain), unfolding(crate::specs::Inside::MemberRule::map_ruled))]
fn map_member(id: u16) -> OneReport
    ensures { result ≡ map_ruled id }
{
    match id {
        NameId::SIZE => plain(Kind::Int as u8),
        NameId::KEYS => clean(Source::ListOf(Kind::Any as u8)),
        _ => fails(DiagnosticKind::Unresolved as u8),
    }
}

// A class's function of a name: its type is a Function with the first one's result.
#[tactic(auto, unfolding(crate::specs::Inside::Variable::function_place))]
fn lookup_function(table: &Table<'_>, owner: u16, id: u16) -> Option<Source>
    ensures { result ≡ function_place table.now owner id }
{
    let place = first_function(table, Some(owner), id)?;
    let f = read_function(table.bytes(), place);
    Some(Source::Function(f.result))
}

// A class's field of a name, or else its function: where its type lies, if there is one.
#[tactic(auto, unfolding(crate::specs::Inside::Variable::variable_place))]
fn lookup_var_ty(table: &Table<'_>, owner: u16, id: u16) -> Option<Source>
    ensures { result ≡ variable_place table.now owner id }
{
    match field_of(table, owner, id) {
        Some(part) => Some(Source::Part(part)),
        None => lookup_function(table, owner, id),
    }
}

// The members that the table gives a class: a field, else a function, else a variant (which has the enum's type). Any other name is unresolved where the class
// is in `types`, and Error without a report where it is not.
#[tactic(auto, using(ty::proofs::Choice::chain), unfolding(crate::specs::Inside::MemberRule::class_ruled, crate::specs::Inside::MemberRule::variable_or))]
fn class_member(table: &Table<'_>, owner: u16, id: u16) -> OneReport
    ensures { result ≡ class_ruled table.now owner id }
{
    if let Some(variable) = lookup_var_ty(table, owner, id) {
        return clean(variable);
    }
    if is_variant(table, owner, id) {
        return clean(Source::Name(owner));
    }
    if in_types(table, owner) {
        return fails(DiagnosticKind::Unresolved as u8);
    }
    plain(Kind::Error as u8)
}

// A Named base's, by its name.
#[tactic(auto, using(ty::proofs::Choice::chain), unfolding(crate::specs::Inside::MemberRule::named_ruled))]
fn named_member(table: &Table<'_>, owner: u16, id: u16) -> OneReport
    ensures { result ≡ named_ruled table.now owner id }
{
    if is_variable_name(table, owner) {
        return variable_member(id);
    }
    match owner {
        NameId::PAIR => pair_member(id),
        NameId::LIST..=NameId::SET_CLASS => collection_member(id),
        _ => class_member(table, owner, id),
    }
}

// A base's, by its kind. By numbers, as the kind is read once; a match would need a Kind, which is read from a byte by no function, as most bytes are none.
// What the elements of a List or an Array are is read off the object.
#[tactic(auto, using(ty::proofs::Choice::chain), unfolding(crate::specs::Inside::MemberRule::kind_ruled))]
fn kind_member(table: &Table<'_>, base: &[u8], id: u16) -> OneReport
    ensures { result ≡ kind_ruled table.now base.now id }
{
    let kind = ty::kind_of(base);
    if kind == Kind::Named.number() {
        return named_member(table, ty::name_of(base), id);
    }
    if kind == Kind::String.number() {
        return string_member(id);
    }
    if (kind == Kind::List.number()) | ty::is_array_kind(kind) {
        return element_member(id);
    }
    if kind == Kind::Map.number() {
        return map_member(id);
    }
    if kind == Kind::Any.number() {
        return plain(Kind::Any as u8);
    }
    fails(DiagnosticKind::NoMembers as u8)
}

// The access check of a member that has a visibility.
#[tactic(auto, unfolding(crate::specs::Inside::AccessRule::visibility_ruled))]
fn visibility_report(table: &Table<'_>, header: Header, owner: u16, id: u16) -> Option<Diagnostic>
    ensures { result ≡ owner_ruled (symbols_of table.now) header owner id }
{
    let vis = visibility_of(table, owner, id)?;
    access_report(table, header, vis.number(), owner)
}

// The access check of a base's member: only a Named base has an owner.
#[tactic(auto, using(ty::proofs::Choice::chain), unfolding(crate::specs::Inside::AccessRule::base_ruled))]
fn member_report(table: &Table<'_>, header: Header, base: &[u8], id: u16) -> Option<Diagnostic>
    ensures { result ≡ base_ruled (symbols_of table.now) header base.now id }
{
    if is_kind(base, Kind::Named) {
        return visibility_report(table, header, ty::name_of(base), id);
    }
    None
}

// Nullable, and not because it is unknown.
fn is_nullable_object(t: &[u8]) -> bool
    ensures { result ≡ is_nullable_object t.now }
{
    let inside = ty::non_null(t);
    ty::is_nullable(t) & !(is_kind(inside, Kind::Any) | is_kind(inside, Kind::Error))
}

// The type of a member of an object, and what is reported.
#[tactic(auto, using(ty::proofs::Choice::chain), unfolding(crate::specs::Inside::MemberRule::member_ruled))]
pub fn check_member(table: &Table<'_>, header: Header, id: u16, object: &[u8]) -> Ruled
    ensures { result ≡ member_ruled table.now header id object.now }
{
    if is_nullable_object(object) {
        return fails(DiagnosticKind::NullableMember as u8).into();
    }
    let base = ty::non_null(object);
    if is_kind(base, Kind::Module) {
        return plain(Kind::Any as u8).into();
    }
    let first = member_report(table, header, base, id);
    report_before(first, kind_member(table, base, id))
}
