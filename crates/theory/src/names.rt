// The functions of the theories by their names.
ghost use Rattle.std.specs.Prelude.{◌≡◌};
ghost use Rattle.theory.specs.Names.{logic_spelling, spelling, operators, operator_of, Named};

use crate::{Logic, Operator};
use bitvec::Operation;
use words::spelled::{Spelled, first};

impl Logic {
    // How it is written.
    pub fn spelling(&self) -> &'static [u8]
        ensures { result.now ≡ logic_spelling self.now }
    {
        match *self {
            Logic::QfUf => b"QF_UF",
            Logic::QfBv => b"QF_BV",
        }
    }
}

impl Spelled for Logic {
    ghost written = { logic_spelling };

    #[tactic(auto, using(words::proofs::Found::same_is))]
    fn spells(&self, name: &[u8]) -> bool {
        name == self.spelling()
    }
}

impl Operator {
    // How it is written.
    pub fn spelling(&self) -> &'static [u8]
        ensures { result.now ≡ spelling self.now }
    {
        match *self {
            Operator::True => b"true",
            Operator::False => b"false",
            Operator::Not => b"not",
            Operator::Ite => b"ite",
            Operator::And => b"and",
            Operator::Or => b"or",
            Operator::Xor => b"xor",
            Operator::Implies => b"=>",
            Operator::Equal => b"=",
            Operator::Distinct => b"distinct",
            Operator::Bits(operation) => operation.name().as_bytes(),
        }
    }
}

impl Spelled for Operator {
    ghost written = { spelling };

    // An operation is compared by its own name in an arm of its own: one table of spellings inside the other makes a look-up dearer.
    #[tactic(auto, using(words::proofs::Found::same_is))]
    fn spells(&self, name: &[u8]) -> bool {
        match *self {
            Operator::Bits(operation) => name == operation.name().as_bytes(),
            _ => name == self.spelling(),
        }
    }
}

// Those of QF_UF come first.
static OPERATORS: [Operator; 27] = [
    Operator::True,
    Operator::False,
    Operator::Not,
    Operator::Ite,
    Operator::And,
    Operator::Or,
    Operator::Xor,
    Operator::Implies,
    Operator::Equal,
    Operator::Distinct,
    Operator::Bits(Operation::Not),
    Operator::Bits(Operation::Neg),
    Operator::Bits(Operation::Add),
    Operator::Bits(Operation::Sub),
    Operator::Bits(Operation::Mul),
    Operator::Bits(Operation::Udiv),
    Operator::Bits(Operation::Urem),
    Operator::Bits(Operation::And),
    Operator::Bits(Operation::Or),
    Operator::Bits(Operation::Xor),
    Operator::Bits(Operation::Shl),
    Operator::Bits(Operation::Lshr),
    Operator::Bits(Operation::Ult),
    Operator::Bits(Operation::Ule),
    Operator::Bits(Operation::Slt),
    Operator::Bits(Operation::Sle),
    Operator::Bits(Operation::Concat),
];

// The functions of the logic.
fn operators(logic: Logic) -> &'static [Operator]
    ensures { result.now ≡ operators logic }
{
    match logic {
        Logic::QfUf => &OPERATORS[..10],
        Logic::QfBv => &OPERATORS,
    }
}

// The function of this name in the logic, if one stands there.
#[tactic(auto, unfolding(crate::specs::Names::operator_of))]
pub fn operator_of(logic: Logic, name: &[u8]) -> Option<Operator>
    ensures value { result ≡ operator_of logic name.now }
    ensures law { Named logic name.now result }
{
    first(operators(logic), name)
}
