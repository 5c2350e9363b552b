// What stands in a session: declared sorts and functions, terms and assertions, in tables of fixed size.
#![tactic(auto)]

ghost use Rattle.std.specs.Prelude.{◌≡◌, ◌≤◌, length};
ghost use Rattle.tables.specs.Views.{stored_in, Tidy};

use crate::rows::{FunctionRow, Name};
use crate::store::Tables;
use theory::Logic;

pub mod named;
pub mod rows;
pub mod short;
pub mod store;

impl Tables {
    pub fn logic(&self) -> Option<Logic>
        ensures value { result ≡ (stored_in self.now).logic }
        ensures tidy { Tidy self.now }
    {
        self.logic
    }

    // The names of the declared sorts, at most 32.
    pub fn sorts(&self) -> &[Name]
        ensures rows { result.now ≡ (stored_in self.now).sorts.rows }
        ensures few { length result.now ≤ 32 }
    {
        self.sorts.as_slice()
    }

    // The declared functions, at most 256.
    pub fn functions(&self) -> &[FunctionRow]
        ensures rows { result.now ≡ (stored_in self.now).functions.rows }
        ensures few { length result.now ≤ 256 }
    {
        self.functions.as_slice()
    }
}
