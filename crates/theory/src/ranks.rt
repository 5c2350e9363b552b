// Which parts a function of the theories takes, and the sort of its result.
ghost use Rattle.std.specs.Prelude.{◌≡◌};
ghost use Rattle.theory.specs.Ranks.{same_sort, same_sorts, all_are, part, given, several_of, branches, chosen, one_bits, two_bits, joined, operation_rank, rank, bits_of, TellsSorts};

use crate::{Logic, Operator, RankFault, Sort};
use bitvec::Operation;

// The two sorts are the same one: what `==` tells, with its law in a clause.
pub fn same_sort(a: Sort, b: Sort) -> bool
    ensures value { result ≡ same_sort a b }
    ensures law { TellsSorts a b result }
{
    a == b
}

// The same sorts in the same order: what `==` tells, in the words of the ranks, which its callers' contracts use.
#[tactic(auto, using(crate::proofs::Sorts::sorts_eq_is))]
pub fn same_sorts(left: &[Sort], right: &[Sort]) -> bool
    ensures { result ≡ same_sorts left.now right.now }
{
    left == right
}

// Each of them is this sort.
#[tactic(auto, using(crate::proofs::Sorts::all_eq_is))]
fn all_are(sort: Sort, parts: &[Sort]) -> bool
    ensures { result ≡ all_are sort parts.now }
{
    parts.iter().all(|part| sort == *part)
}

// Two parts or more, all of this sort; the result is Bool.
fn several_of(sort: Sort, parts: &[Sort]) -> Result<Sort, RankFault>
    ensures { result ≡ several_of sort parts.now }
{
    if parts.len() >= 2 && all_are(sort, parts) {
        Ok(Sort::Bool)
    } else {
        Err(RankFault::Mismatch)
    }
}

// In QF_UF the branches of `ite` are Bool.
fn branches(logic: Logic, sort: Sort) -> bool
    ensures { result ≡ branches logic sort }
{
    logic == Logic::QfBv || sort == Sort::Bool
}

// `ite`: a condition, and two branches of one sort, which is the result's.
fn chosen(logic: Logic, parts: &[Sort]) -> Result<Sort, RankFault>
    ensures { result ≡ chosen logic parts.now }
{
    match *parts {
        [Sort::Bool, s, t] if s == t && branches(logic, s) => Ok(s),
        _ => Err(RankFault::Mismatch),
    }
}

// One bit-vector; the result is of its sort.
fn one_bits(parts: &[Sort]) -> Result<Sort, RankFault>
    ensures { result ≡ given (one_bits parts.now) (part parts.now 0) }
{
    match *parts {
        [Sort::Bits(w)] => Ok(Sort::Bits(w)),
        _ => Err(RankFault::Mismatch),
    }
}

// Two bit-vectors of one width; the result is of their sort.
fn two_bits(parts: &[Sort]) -> Result<Sort, RankFault>
    ensures { result ≡ given (two_bits parts.now) (part parts.now 0) }
{
    match *parts {
        [Sort::Bits(v), Sort::Bits(w)] if v == w => Ok(Sort::Bits(v)),
        _ => Err(RankFault::Mismatch),
    }
}

// Two bit-vectors of any widths, which are added.
fn joined(parts: &[Sort]) -> Result<Sort, RankFault>
    ensures { result ≡ operation_rank Operation.Concat parts.now }
{
    match *parts {
        [Sort::Bits(v), Sort::Bits(w)] => match v.checked_add(w) {
            Some(wide) if wide <= 16 => Ok(Sort::Bits(wide)),
            _ => Err(RankFault::Width),
        },
        _ => Err(RankFault::Mismatch),
    }
}

// One arm for operations of one rank, as in `rank`.
fn operation_rank(operation: Operation, parts: &[Sort]) -> Result<Sort, RankFault>
    ensures { result ≡ operation_rank operation parts.now }
{
    match operation {
        Operation::Not | Operation::Neg => one_bits(parts),
        Operation::Ult | Operation::Ule | Operation::Slt | Operation::Sle => {
            two_bits(parts)?;
            Ok(Sort::Bool)
        }
        Operation::Concat => joined(parts),
        _ => two_bits(parts),
    }
}

// The sort of an application of the function to parts of these sorts: one arm for functions of one rank, so that the match is the table of ranks.
#[tactic(auto, unfolding(crate::specs::Ranks::rank))]
pub fn rank(logic: Logic, operator: Operator, parts: &[Sort]) -> Result<Sort, RankFault>
    ensures { result ≡ rank logic operator parts.now }
{
    match (operator, parts) {
        (Operator::True | Operator::False, []) => Ok(Sort::Bool),
        (Operator::Not, [Sort::Bool]) => Ok(Sort::Bool),
        (Operator::Ite, _) => chosen(logic, parts),
        (Operator::And | Operator::Or | Operator::Xor | Operator::Implies, _) => several_of(
            Sort::Bool,
            parts,
        ),
        (Operator::Equal | Operator::Distinct, [first, ..]) => several_of(*first, parts),
        (Operator::Bits(operation), _) => operation_rank(operation, parts),
        _ => Err(RankFault::Mismatch),
    }
}

// The sort of bit-vectors of this width, if it is one of 1 to 16.
pub fn bits_of(width: u16) -> Option<Sort>
    ensures { result ≡ bits_of width }
{
    match width {
        1..=16 => Some(Sort::Bits(width as u8)),
        _ => None,
    }
}
