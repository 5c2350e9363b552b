// Prints what `bitvec::apply` answers: for all operands at widths 1 to 4, and for operands at the edges at 8, 15 and 16.
// The file `stdout` beside this crate has what another solver answers, made by tools/bitvec-values.
#![tactic(auto)]

use bitvec::{Operation, Sort, apply};
use std::io;

static OPERATIONS: [Operation; 16] = [
    Operation::Not,
    Operation::Neg,
    Operation::Add,
    Operation::Sub,
    Operation::Mul,
    Operation::Udiv,
    Operation::Urem,
    Operation::And,
    Operation::Or,
    Operation::Xor,
    Operation::Shl,
    Operation::Lshr,
    Operation::Ult,
    Operation::Ule,
    Operation::Slt,
    Operation::Sle,
];

static WIDTHS: [u8; 7] = [1, 2, 3, 4, 8, 15, 16];

static PAIRS: [(u8, u8); 19] = [
    (1, 1),
    (1, 2),
    (1, 3),
    (1, 4),
    (2, 1),
    (2, 2),
    (2, 3),
    (2, 4),
    (3, 1),
    (3, 2),
    (3, 3),
    (3, 4),
    (4, 1),
    (4, 2),
    (4, 3),
    (4, 4),
    (8, 8),
    (1, 15),
    (15, 1),
];

static ALL: [u16; 16] = [0, 1, 2, 3, 4, 5, 6, 7, 8, 9, 10, 11, 12, 13, 14, 15];

static EDGES_8: [u16; 12] = [0, 1, 2, 7, 8, 9, 85, 127, 128, 129, 254, 255];

static EDGES_15: [u16; 12] = [
    0, 1, 2, 14, 15, 16, 16383, 16384, 16385, 21845, 32766, 32767,
];

static EDGES_16: [u16; 12] = [
    0, 1, 2, 15, 16, 17, 21845, 32767, 32768, 32769, 65534, 65535,
];

fn operands(width: u8) -> &'static [u16] {
    match width {
        1 => &ALL[0..2],
        2 => &ALL[0..4],
        3 => &ALL[0..8],
        4 => &ALL[0..16],
        8 => &EDGES_8,
        15 => &EDGES_15,
        _ => &EDGES_16,
    }
}

// One line: the name, the widths and a first operand, then for each second operand the answer's width and number.
// A truth value has the width 0.
fn line(rt: &HostRuntime, op: Operation, width: u8, low: u8, a: u16) -> io::Result<()> {
    let name = op.name();
    print!(rt; "{name} {width} {low} {a:x}:")?;
    for b in operands(low) {
        match apply(op, width, low, a, *b) {
            (Sort::Bool, n) => print!(rt; " 0.{n:x}")?,
            (Sort::Bits(w), n) => print!(rt; " {w}.{n:x}")?,
        }
    }
    println!(rt; "")
}

fn lines(rt: &HostRuntime, op: Operation, width: u8, low: u8) -> io::Result<()> {
    for a in operands(width) {
        line(rt, op, width, low, *a)?;
    }
    Ok(())
}

fn main(rt: HostRuntime) -> io::Result<()> {
    for op in OPERATIONS {
        for width in WIDTHS {
            lines(&rt, op, width, width)?;
        }
    }
    for (width, low) in PAIRS {
        lines(&rt, Operation::Concat, width, low)?;
    }
    Ok(())
}
