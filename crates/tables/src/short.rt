// A list kept in place. The kit's `ArrayVec` is no `Copy`, as rows have to be, and writes a blank for each item that it clears.
ghost use Rattle.std.specs.Prelude.{◌≡◌, ◌++◌, ◌<◌, ◌≤◌, [], ◌∷◌, cond, length, nat_le, Some, None, ⊤};
ghost use Rattle.std.specs.Option.{option_map};

use std::alloc::AllocError;

// At most N items; the places behind the first `count` hold nothing that is read.
pub struct Short<T: Copy, const N: usize> {
    items: [T; N],
    count: usize,
    pub ghost few: { count ≤ N },
}

// By hand: no derive makes a `Clone` for a generic struct with a ghost field.
impl<T: Copy, const N: usize> Clone for Short<T, N> {
    ghost is_clone = { λ x y. y ≡ x };

    ghost is_infallible = { λ _. ⊤ };

    fn clone(&self) -> Result<Self, AllocError> {
        Ok(*self)
    }
}

impl<T: Copy, const N: usize> Copy for Short<T, N> {}

impl<T: Copy, const N: usize> Short<T, N> {
    ghost use Rattle.tables.specs.Shorts.{items_in};

    // The empty list. The blank fills the places.
    pub fn new(blank: T) -> Self
        ensures { items_in result ≡ [] }
    {
        Short {
            items: [blank; N],
            count: 0,
        }
    }

    // The list of these items, if there are so few.
    pub fn of(blank: T, items: &[T]) -> Option<Self>
        ensures { option_map items_in result ≡ cond (nat_le (length items.now) N) (Some items.now) None }
    {
        if items.len() > N {
            return None;
        }
        let mut list = Short::new(blank);
        for item in items {
            list.push(*item);
        }
        Some(list)
    }

    pub fn as_slice(&self) -> &[T]
        ensures { result.now ≡ items_in self.now }
    {
        &self.items[..self.count]
    }

    pub fn clear(&mut self)
        ensures { items_in self.new ≡ [] }
    {
        self.count = 0;
    }

    pub fn push(&mut self, item: T)
        requires { length (items_in self.old) < N }
        ensures { items_in self.new ≡ items_in self.old ++ item ∷ [] }
    {
        self.items[self.count] = item;
        self.count += 1;
    }
}
