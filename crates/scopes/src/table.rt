// A table of fixed size with room for 63 levels, lent to the scoped stack by its holder.
ghost use Rattle.std.specs.Prelude.{◌≡◌, ◌≤◌, [], length};
ghost use Rattle.scopes.specs.Tables.{shown, Tidy};

// Arrays with counts beside them, since the stack lends slices and nothing below the script takes memory from a heap. A table may be built of any parts; the stack's methods ask that it is sound.
#[derive(Drop)]
pub struct Table<T: Copy, const N: usize> {
    pub rows: [T; N],
    pub count: usize,
    pub levels: [usize; 63],
    pub depth: usize,
}

impl<T: Copy, const N: usize> Table<T, N> {
    // A table in which nothing stands.
    pub fn new(blank: T) -> Self
        ensures view { shown result ≡ record { rows = []; levels = [] } }
        ensures sound { Tidy result }
    {
        Table {
            rows: [blank; N],
            count: 0,
            levels: [0; 63],
            depth: 0,
        }
    }

    // The rows that stand: the first `count`, or all where a table built from parts has a count past its end.
    pub fn as_slice(&self) -> &[T]
        ensures rows { result.now ≡ (shown self.now).rows }
        ensures few { length result.now ≤ N }
    {
        &self.rows[..self.count.min(N)]
    }
}
