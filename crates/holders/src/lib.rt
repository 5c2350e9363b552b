// How the scoped stack is used: by a holder of tables, and over tables of which nothing is known. No program needs this crate. It keeps proved what docs/SCOPES.md tells those who use the stack, with no proof file.
#![tactic(auto)]

ghost use Rattle.std.specs.Prelude.{◌≡◌, [], length, Ok};
ghost use Rattle.scopes.specs.Stacks.{Sound, view, added, opened, closed};

use scopes::table::Table;
use scopes::{NoRoom, ScopedStack, TooMany};

// Tables of its own, lent to the stack for one call. Each method keeps them sound, and asks that they are.
#[derive(Drop)]
pub struct Holder {
    rows: [u8; 32],
    count: usize,
    levels: [usize; 63],
    depth: usize,
}

impl Holder {
    // A holder of nothing.
    pub fn new() -> Self
        ensures view { view result.rows result.count result.levels result.depth ≡ record { rows = []; levels = [] } }
        ensures sound { Sound result.rows result.count result.levels result.depth }
    {
        Holder {
            rows: [0; 32],
            count: 0,
            levels: [0; 63],
            depth: 0,
        }
    }

    // Adds a row to the newest level.
    pub fn add(&mut self, row: u8) -> Result<(), NoRoom>
        requires { Sound self.old.rows self.old.count self.old.levels self.old.depth }
        ensures view { (view self.new.rows self.new.count self.new.levels self.new.depth, result) ≡ added 32 (view self.old.rows self.old.count self.old.levels self.old.depth) row }
        ensures sound { Sound self.new.rows self.new.count self.new.levels self.new.depth }
    {
        ScopedStack {
            rows: &mut self.rows,
            count: &mut self.count,
            levels: &mut self.levels,
            depth: &mut self.depth,
        }
        .add(row)
    }

    // Opens a level.
    pub fn open(&mut self) -> Result<(), NoRoom>
        requires { Sound self.old.rows self.old.count self.old.levels self.old.depth }
        ensures view { (view self.new.rows self.new.count self.new.levels self.new.depth, result) ≡ opened 63 (view self.old.rows self.old.count self.old.levels self.old.depth) }
        ensures sound { Sound self.new.rows self.new.count self.new.levels self.new.depth }
    {
        ScopedStack {
            rows: &mut self.rows,
            count: &mut self.count,
            levels: &mut self.levels,
            depth: &mut self.depth,
        }
        .open()
    }

    // Closes the newest `n` levels.
    pub fn close(&mut self, n: usize) -> Result<(), TooMany>
        requires { Sound self.old.rows self.old.count self.old.levels self.old.depth }
        ensures view { (view self.new.rows self.new.count self.new.levels self.new.depth, result) ≡ closed (view self.old.rows self.old.count self.old.levels self.old.depth) n }
        ensures sound { Sound self.new.rows self.new.count self.new.levels self.new.depth }
    {
        ScopedStack {
            rows: &mut self.rows,
            count: &mut self.count,
            levels: &mut self.levels,
            depth: &mut self.depth,
        }
        .close(n)
    }
}

// Tables of which nothing is known, emptied through the stack before its first call: a level is opened if there is room for one.
pub fn emptied(
    rows: &mut [u8],
    count: &mut usize,
    levels: &mut [usize],
    depth: &mut usize,
) -> Result<(), NoRoom>
    ensures view { (view rows.new count.new levels.new depth.new, result) ≡ opened (length levels.old) (record { rows = []; levels = [] }) }
    ensures sound { Sound rows.new count.new levels.new depth.new }
{
    let mut stack = ScopedStack {
        rows,
        count,
        levels,
        depth,
    };
    *stack.count = 0;
    *stack.depth = 0;
    stack.open()
}

// The same with a table built from parts, which has room for 63 levels.
pub fn cleared(rows: [u8; 4], count: usize, levels: [usize; 63], depth: usize) -> Result<(), NoRoom>
    ensures { result ≡ Ok tt }
{
    let mut table: Table<u8, 4> = Table {
        rows,
        count,
        levels,
        depth,
    };
    table.count = 0;
    table.depth = 0;
    scopes::stack!(table).open()
}
