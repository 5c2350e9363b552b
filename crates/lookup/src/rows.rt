// Look-ups in the rows of the tables.
ghost use Rattle.std.specs.Prelude.{◌≡◌, ◌≤◌, map, length, position, slice_index_or};
ghost use Rattle.std.specs.Str.{bytes_eq};
ghost use Rattle.tables.specs.Stores.{function_in};
ghost use Rattle.terms.specs.Scoping.{number_in};
ghost use Rattle.terms.specs.Sorting.{no_function};
ghost use Rattle.theory.specs.Ranks.{same_sorts, given};

use tables::named::Named;
use tables::rows::FunctionRow;
use theory::ranks::same_sorts;
use theory::{RankFault, Sort};

// The place of the first of the rows that has this name.
fn place_of<R: Named>(rows: &[R], name: &[u8]) -> Option<usize>
    ensures { result ≡ position (λ row. bytes_eq (R.name row) name.now) rows.now }
{
    rows.iter().position(|row| row.name() == name)
}

// The number of the first of the rows that has this name.
#[tactic(auto, using(crate::proofs::Names::number_is))]
pub fn number_of<R: Named>(rows: &[R], name: &[u8]) -> Option<u8>
    requires { length rows.now ≤ 256 }
    ensures { result ≡ number_in (map R.name rows.now) name.now }
{
    let place = place_of(rows, name)?;
    Some(place as u8)
}

// The sort of an application of the function with this number to parts of these sorts. Past the last function the definition has a constant of sort Bool.
pub fn declared_rank(rows: &[FunctionRow], number: u8, parts: &[Sort]) -> Result<Sort, RankFault>
    ensures { result ≡ given (same_sorts (slice_index_or (map function_in rows.now) number no_function).arguments parts.now) (slice_index_or (map function_in rows.now) number no_function).result }
{
    match rows.get(usize::from(number)) {
        Some(row) if same_sorts(row.arguments.as_slice(), parts) => Ok(row.result),
        None if parts.is_empty() => Ok(Sort::Bool),
        _ => Err(RankFault::Mismatch),
    }
}
