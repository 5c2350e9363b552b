// The theories: logics, sorts, the functions that they name, and which parts each function takes.
#![tactic(auto)]

pub mod names;
pub mod ranks;

use bitvec::Operation;

#[derive(Clone, Copy, Debug, PartialEq, Eq)]
pub enum Logic {
    QfUf,
    QfBv,
}

#[derive(Clone, Copy, Debug, PartialEq, Eq)]
pub enum Sort {
    Bool,
    // bit-vectors of this width
    Bits(u8),
    // a declared sort, by its number among those that stand
    Declared(u8),
}

// A function of the theories.
#[derive(Clone, Copy, Debug, PartialEq, Eq)]
pub enum Operator {
    True,
    False,
    Not,
    Ite,
    And,
    Or,
    Xor,
    Implies,
    Equal,
    Distinct,
    Bits(Operation),
}

// What an application applies: a function of the theories, or a declared one by its number among those that stand.
#[derive(Clone, Copy, Debug, PartialEq, Eq)]
pub enum Head {
    Theory(Operator),
    Declared(u8),
}

// Why an application has no sort.
#[derive(Clone, Copy, Debug, PartialEq, Eq)]
pub enum RankFault {
    // a wrong number of parts, or parts of wrong sorts
    Mismatch,
    // the result would be wider than 16 bits
    Width,
}
