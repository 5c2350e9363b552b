// The rows of the tables.
ghost use Rattle.std.specs.Prelude.{◌≡◌};
ghost use Rattle.tables.specs.Stores.{name_in};

use crate::named::Named;
use crate::short::Short;
use theory::{Head, Sort};

// A name of at most 64 bytes.
#[derive(Clone, Copy)]
pub struct Name {
    pub(crate) bytes: Short<u8, 64>,
}

impl Name {
    pub fn bytes(&self) -> &[u8]
        ensures { result.now ≡ name_in self.now }
    {
        self.bytes.as_slice()
    }
}

impl Named for Name {
    ghost name = { name_in };

    fn name(&self) -> &[u8] {
        self.bytes()
    }
}

// A declared function: its name, the sorts of its arguments, and the sort of its result.
#[derive(Clone, Copy)]
pub struct FunctionRow {
    pub name: Name,
    pub arguments: Short<Sort, 4>,
    pub result: Sort,
}

impl Named for FunctionRow {
    ghost name = { λ row. name_in row.name };

    fn name(&self) -> &[u8] {
        self.name.bytes()
    }
}

// A bit-vector by its width and number, or an application.
#[derive(Clone, Copy, Debug, PartialEq, Eq)]
pub enum Node {
    Literal(u8, u16),
    Apply(Head),
}

// A term, with the place of its parts in the table of parts, and their number.
#[derive(Clone, Copy, Debug, PartialEq, Eq)]
pub struct TermRow {
    pub(crate) node: Node,
    pub(crate) first: usize,
    pub(crate) count: usize,
}

// How many rows each table has.
#[derive(Clone, Copy, Debug, PartialEq, Eq)]
pub struct Counts {
    pub(crate) sorts: usize,
    pub(crate) functions: usize,
    pub(crate) terms: usize,
    pub(crate) parts: usize,
    pub(crate) assertions: usize,
}
