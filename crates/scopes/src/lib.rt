// The scoped stack: rows in levels, kept in tables that the caller lends for one call.
#![tactic(auto)]

ghost use Rattle.std.specs.Prelude.{◌≡◌};
ghost use Rattle.scopes.specs.Stacks.{added, opened, closed};
ghost use Rattle.scopes.specs.Lent.{held, Good, room, deepest, Same, AddCounts, OpenCounts, CloseCounts};
ghost use Rattle.scopes.specs.Histories.{Restores};
ghost use Rattle.scopes.specs.Depths.{deep, AddDepths, CloseDepths};

pub mod table;

// The scoped stack over a table of its holder. No method of the table: the check's rules for borrows don't cover a function that puts a lent array, whose length is a parameter, into a struct.
#[macro_export]
macro_rules! stack {
    ($t:expr) => {
        $crate::ScopedStack { rows: &mut $t.rows, count: &mut $t.count, levels: &mut $t.levels, depth: &mut $t.depth }
    };
}

// Every row, or every level, is in use.
#[derive(Clone, Copy, Debug, PartialEq, Eq)]
pub struct NoRoom;

// More levels were to be closed than are open.
#[derive(Clone, Copy, Debug, PartialEq, Eq)]
pub struct TooMany;

// The first `count` rows stand. The first `depth` levels are open: each says how many rows stood when it was opened.
// With a lifetime for each field, one function can lend several tables of one row type in turn.
// A struct over lent slices, a rule of the project: the tables and their counts belong to the holder.
// The methods ask that the tables are sound, and the struct doesn't: it may be made over any tables, and emptied before the first call.
#[derive(Drop)]
pub struct ScopedStack<'a, 'b, 'c, 'd, T: Copy> {
    pub rows: &'a mut [T],
    pub count: &'b mut usize,
    pub levels: &'c mut [usize],
    pub depth: &'d mut usize,
}

impl<'a, 'b, 'c, 'd, T: Copy> ScopedStack<'a, 'b, 'c, 'd, T> {
    // Adds a row to the newest level.
    // `same` stands in each method's contract, since it speaks of before and after, which no field can.
    #[tactic(auto, using(crate::proofs::Depths::add_deep))]
    pub fn add(&mut self, row: T) -> Result<(), NoRoom>
        requires { Good self.old }
        ensures view { (held self.new, result) ≡ added (room self.old) (held self.old) row }
        ensures depths { AddDepths (held self.old) row (held self.new) result }
        ensures counts { AddCounts self.old self.new result }
        ensures sound { Good self.new }
        ensures same { Same self.old self.new }
    {
        if *self.count >= self.rows.len() {
            return Err(NoRoom);
        }
        self.rows[*self.count] = row;
        *self.count += 1;
        Ok(())
    }

    // Opens a level.
    #[tactic(auto, using(crate::proofs::Depths::open_deep))]
    pub fn open(&mut self) -> Result<(), NoRoom>
        requires { Good self.old }
        ensures view { (held self.new, result) ≡ opened (deepest self.old) (held self.old) }
        ensures depths { deep (held self.new) ≡ deep (held self.old) }
        ensures counts { OpenCounts self.old self.new result }
        ensures sound { Good self.new }
        ensures same { Same self.old self.new }
    {
        if *self.depth >= self.levels.len() {
            return Err(NoRoom);
        }
        self.levels[*self.depth] = *self.count;
        *self.depth += 1;
        Ok(())
    }

    // Closes the newest `n` levels and drops their rows.
    #[tactic(auto, using(crate::proofs::Closing::close_view, crate::proofs::Depths::close_deep, crate::proofs::Restoring::restores))]
    pub fn close(&mut self, n: usize) -> Result<(), TooMany>
        requires { Good self.old }
        ensures view { (held self.new, result) ≡ closed (held self.old) n }
        ensures depths { CloseDepths (held self.old) n (held self.new) result }
        ensures counts { CloseCounts self.old n self.new result }
        ensures law { Restores (held self.old) n (held self.new) result }
        ensures sound { Good self.new }
        ensures same { Same self.old self.new }
    {
        if n > *self.depth {
            return Err(TooMany);
        }
        if n == 0 {
            return Ok(());
        }
        *self.depth -= n;
        *self.count = self.levels[*self.depth];
        Ok(())
    }
}
