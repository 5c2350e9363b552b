// What names stand for in a session's tables.
#![tactic(auto)]

ghost use Rattle.std.specs.Prelude.{◌≡◌};
ghost use Rattle.tables.specs.Views.{record_of};
ghost use Rattle.terms.specs.Scoping.{scope_of, number_in, function_names, head_of, is_bool_name, sort_named, is_kept, free_sort, free_function};
ghost use Rattle.terms.specs.Sorting.{rank_of, width_found, bits_at};
ghost use Rattle.theory.specs.Ranks.{bits_of};

use crate::rows::{declared_rank, number_of};
use tables::store::Tables;
use terms::SortFault;
use theory::names::operator_of;
use theory::ranks::{bits_of, rank};
use theory::{Head, Logic, RankFault, Sort};

mod rows;

// The tables and a name stay two parameters: methods would need a trait, since the tables' type belongs to a crate below.

// The logic of the session: QF_UF until another is set.
#[tactic(auto, using(crate::proofs::Shown::logic_shown, crate::proofs::Shown::logic_or_is))]
pub fn logic_of(tables: &Tables) -> Logic
    ensures { result ≡ (scope_of (record_of tables.now)).logic }
{
    tables.logic().unwrap_or(Logic::QfUf)
}

// The number of the sort of this name among those that are declared.
#[tactic(auto, using(crate::proofs::Shown::sorts_shown))]
pub fn sort_number(tables: &Tables, name: &[u8]) -> Option<u8>
    ensures { result ≡ number_in (scope_of (record_of tables.now)).sorts name.now }
{
    number_of(tables.sorts(), name)
}

// The number of the function of this name among those that are declared.
#[tactic(auto, using(crate::proofs::Shown::functions_shown, crate::proofs::Names::names_shown))]
pub fn function_number(tables: &Tables, name: &[u8]) -> Option<u8>
    ensures { result ≡ number_in (function_names (scope_of (record_of tables.now)).functions) name.now }
{
    number_of(tables.functions(), name)
}

// What a name stands for as a function: first those of the theories, then the declared ones.
pub fn head_of(tables: &Tables, name: &[u8]) -> Option<Head>
    ensures { result ≡ head_of (scope_of (record_of tables.now)) name.now }
{
    operator_of(logic_of(tables), name)
        .map(Head::Theory)
        .or_else(|| function_number(tables, name).map(Head::Declared))
}

// This is how the sort of truth values is written.
#[tactic(auto, using(words::proofs::Found::same_is), unfolding(terms::specs::Scoping::is_bool_name))]
fn is_bool_name(name: &[u8]) -> bool
    ensures { result ≡ is_bool_name name.now }
{
    name == b"Bool".as_slice()
}

// The sort of a name: Bool, or a declared one.
pub fn sort_named(tables: &Tables, name: &[u8]) -> Option<Sort>
    ensures { result ≡ sort_named (scope_of (record_of tables.now)) name.now }
{
    if is_bool_name(name) {
        return Some(Sort::Bool);
    }
    sort_number(tables, name).map(Sort::Declared)
}

// The sort of an application of the head to parts of these sorts.
#[tactic(auto, using(crate::proofs::Shown::functions_shown))]
pub fn rank_of(tables: &Tables, head: Head, parts: &[Sort]) -> Result<Sort, RankFault>
    ensures { result ≡ rank_of (scope_of (record_of tables.now)) head parts.now }
{
    match head {
        Head::Theory(operator) => rank(logic_of(tables), operator, parts),
        Head::Declared(number) => declared_rank(tables.functions(), number, parts),
    }
}

// The sort of bit-vectors of this width, if it is one of 1 to 16.
fn width_at(width: usize, place: usize) -> Result<Sort, SortFault>
    ensures { result ≡ width_found (bits_of width) place }
{
    u16::try_from(width)
        .ok()
        .and_then(bits_of)
        .ok_or(SortFault::Width(place))
}

// The sort of bit-vectors of this width, or the fault at this place.
pub fn bits_at(tables: &Tables, width: usize, place: usize) -> Result<Sort, SortFault>
    ensures { result ≡ bits_at (scope_of (record_of tables.now)).logic width place }
{
    match logic_of(tables) {
        Logic::QfUf => Err(SortFault::Unknown(place)),
        Logic::QfBv => width_at(width, place),
    }
}

// Names that begin so are kept for solvers.
fn is_kept(name: &[u8]) -> bool
    ensures { result ≡ is_kept name.now }
{
    matches!(name, [b'@' | b'.', ..])
}

// The name may be declared as a sort.
pub fn is_free_sort(tables: &Tables, name: &[u8]) -> bool
    ensures { result ≡ free_sort (scope_of (record_of tables.now)) name.now }
{
    !is_kept(name) && sort_named(tables, name).is_none()
}

// The name may be declared as a function.
pub fn is_free_function(tables: &Tables, name: &[u8]) -> bool
    ensures { result ≡ free_function (scope_of (record_of tables.now)) name.now }
{
    !is_kept(name) && head_of(tables, name).is_none()
}
