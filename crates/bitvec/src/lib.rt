// Bit-vector operations on widths up to 16. `apply` computes one of them, for any width and any operands.
#![tactic(auto)]

ghost use Rattle.std.specs.Prelude.{◌≡◌, ◌%◌, ◌^◌, ◌≤◌};
ghost use Rattle.bitvec.specs.Arithmetic.{signed};
ghost use Rattle.bitvec.specs.Examples.{Worked};
ghost use Rattle.bitvec.specs.Laws.{Lawful};
ghost use Rattle.bitvec.specs.Names.{operation_spelling};
ghost use Rattle.bitvec.specs.Table.{applied, joined, Fitting};

// The operations of the theory of bit-vectors: `Not` is its `bvnot`, and so on, and `Concat` its `concat`.
#[derive(Clone, Copy, Debug, PartialEq, Eq)]
pub enum Operation {
    Not,
    Neg,
    Add,
    Sub,
    Mul,
    Udiv,
    Urem,
    And,
    Or,
    Xor,
    Shl,
    Lshr,
    Ult,
    Ule,
    Slt,
    Sle,
    Concat,
}

impl Operation {
    // How the theory writes the operation.
    pub fn name(self) -> &'static str
        ensures { result.now ≡ operation_spelling self }
    {
        match self {
            Operation::Not => "bvnot",
            Operation::Neg => "bvneg",
            Operation::Add => "bvadd",
            Operation::Sub => "bvsub",
            Operation::Mul => "bvmul",
            Operation::Udiv => "bvudiv",
            Operation::Urem => "bvurem",
            Operation::And => "bvand",
            Operation::Or => "bvor",
            Operation::Xor => "bvxor",
            Operation::Shl => "bvshl",
            Operation::Lshr => "bvlshr",
            Operation::Ult => "bvult",
            Operation::Ule => "bvule",
            Operation::Slt => "bvslt",
            Operation::Sle => "bvsle",
            Operation::Concat => "concat",
        }
    }
}

// The sort of an answer: a truth value, with the number 0 or 1, or a bit-vector of so many bits. Sort and number are a pair, a rule of the project.
#[derive(Clone, Copy, Debug, PartialEq, Eq)]
pub enum Sort {
    Bool,
    Bits(u8),
}

// The lowest bits of a number. The bound on the width is a clause of two functions here and of one that prints literals, which shares no type with this crate.
#[tactic(auto, using(crate::proofs::Masks::mask))]
fn masked(n: u16, width: u8) -> u16
    requires { width ≤ 16 }
    ensures { result ≡ n % 2 ^ width }
{
    n & ((1u32 << width) - 1) as u16
}

// The signed value: the upper half of the numbers stands for the negative ones.
fn signed_of(n: u16, width: u8) -> i32
    requires { width ≤ 16 }
    ensures { result ≡ signed width n }
{
    let size = 1i32 << width;
    let value = i32::from(n);
    if value < size / 2 {
        value
    } else {
        value - size
    }
}

// The first number above the second; bits past the sixteenth are dropped.
#[tactic(auto, using(crate::proofs::Masks::joining))]
fn join(width: u8, low: u8, a: u16, b: u16) -> (Sort, u16)
    ensures joined { result ≡ joined width low a b }
    ensures fits { Fitting result }
{
    let v = low.min(16);
    let w = width.min(16 - v);
    let upper = u32::from(masked(a, w)) << v;
    let lower = u32::from(masked(b, v));
    (Sort::Bits(w + v), (upper | lower) as u16)
}

// One operation at a width, on the lowest bits of both operands; a width above 16 counts as 16.
// `low` is the width of the second operand of `Concat`; no other operation reads it.
#[tactic(auto, using(crate::proofs::Masks::wraps, crate::proofs::Bitwise::bits, crate::proofs::Laws::lawful, crate::proofs::Laws::worked))]
pub fn apply(op: Operation, width: u8, low: u8, a: u16, b: u16) -> (Sort, u16)
    ensures defined { result ≡ applied op width low a b }
    ensures fits { Fitting result }
    ensures laws { Lawful }
    ensures examples { Worked }
{
    let w = width.min(16);
    let x = masked(a, w);
    let y = masked(b, w);
    match op {
        Operation::Not => (Sort::Bits(w), masked(!x, w)),
        Operation::Neg => (Sort::Bits(w), masked(0u16.wrapping_sub(x), w)),
        Operation::Add => (Sort::Bits(w), masked(x.wrapping_add(y), w)),
        Operation::Sub => (Sort::Bits(w), masked(x.wrapping_sub(y), w)),
        Operation::Mul => (Sort::Bits(w), masked(x.wrapping_mul(y), w)),
        Operation::Udiv if y == 0 => (Sort::Bits(w), masked(u16::MAX, w)),
        Operation::Udiv => (Sort::Bits(w), x / y),
        Operation::Urem if y == 0 => (Sort::Bits(w), x),
        Operation::Urem => (Sort::Bits(w), x % y),
        Operation::And => (Sort::Bits(w), x & y),
        Operation::Or => (Sort::Bits(w), x | y),
        Operation::Xor => (Sort::Bits(w), x ^ y),
        Operation::Shl if u16::from(w) <= y => (Sort::Bits(w), 0),
        Operation::Shl => (Sort::Bits(w), masked(x << y, w)),
        Operation::Lshr if u16::from(w) <= y => (Sort::Bits(w), 0),
        Operation::Lshr => (Sort::Bits(w), x >> y),
        Operation::Ult => (Sort::Bool, u16::from(x < y)),
        Operation::Ule => (Sort::Bool, u16::from(x <= y)),
        Operation::Slt => (Sort::Bool, u16::from(signed_of(x, w) < signed_of(y, w))),
        Operation::Sle => (Sort::Bool, u16::from(signed_of(x, w) <= signed_of(y, w))),
        Operation::Concat => join(width, low, a, b),
    }
}
