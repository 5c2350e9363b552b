// The sorts of a declared function, read token by token.
#![tactic(auto)]

ghost use Rattle.std.specs.Prelude.{◌≡◌, ◌+◌, ◌<◌, ◌≤◌, [], length, None};
ghost use Rattle.std.specs.Option.{option_map};
ghost use Rattle.grammar.specs.Marks.{mark_of, marks};
ghost use Rattle.terms.specs.Scoping.{scope_of, sort_named};
ghost use Rattle.terms.specs.Sorting.{found};
ghost use Rattle.tables.specs.Shorts.{items_in};
ghost use Rattle.tables.specs.Stores.{name_in};
ghost use Rattle.tables.specs.Stores.{function_in as row_function};
ghost use Rattle.tables.specs.Views.{record_of};
ghost use Rattle.signatures.specs.Steps.{listed, checked, added, closed, stepped, read};
ghost use Rattle.signatures.specs.Views.{listed_in, placed, function_in, few_arguments, Follows};

use crate::reader::Signature;
use lookup::{bits_at, sort_named};
use tables::rows::{FunctionRow, Name};
use tables::short::Short;
use tables::store::Tables;
use terms::SortFault;
use theory::Sort;
use tokens::text::Tokens;
use tokens::{Kind, Token, bytes_of};

pub mod reader;

// An argument is not Bool; the result may be.
fn checked(arity: Option<usize>, place: usize, sort: Sort) -> Result<Sort, SortFault>
    ensures { result ≡ checked arity place sort }
{
    match (arity, sort) {
        (None, Sort::Bool) => Err(SortFault::Mismatch(place)),
        _ => Ok(sort),
    }
}

// The sort of a name.
fn found_sort(tables: &Tables, name: &[u8], place: usize) -> Result<Sort, SortFault>
    ensures { result ≡ found (sort_named (scope_of (record_of tables.now)) name.now) place }
{
    sort_named(tables, name).ok_or(SortFault::Unknown(place))
}

impl Signature {
    // A reader that has read nothing.
    pub fn new() -> Signature
        ensures { listed_in result ≡ listed [] None None }
    {
        Signature {
            sorts: Short::new(Sort::Bool),
            bits: None,
            arity: None,
        }
    }

    // One sort more.
    fn add(&mut self, place: usize, sort: Sort) -> Result<(), SortFault>
        requires { length (items_in self.old.sorts) < 4096 }
        ensures value { added (listed_in self.old) place sort ≡ placed result (listed_in self.new) }
        ensures few { length (items_in self.new.sorts) ≤ length (items_in self.old.sorts) + 1 }
    {
        self.sorts.push(checked(self.arity, place, sort)?);
        Ok(())
    }

    // A closing parenthesis: of `(_ BitVec w)`, of the arguments, or of the command.
    fn close(&mut self)
        ensures { listed_in self.new ≡ closed (listed_in self.old) self.old.bits }
    {
        match (self.bits, self.arity) {
            (Some(_), _) => self.bits = None,
            (None, None) => self.arity = Some(self.sorts.as_slice().len()),
            (None, Some(_)) => {}
        }
    }

    // One token. A symbol is a sort, or the name in `(_ BitVec w)`; a numeral is its width.
    #[tactic(auto, using(crate::proofs::Names::name_says))]
    fn step(&mut self, tables: &Tables, text: &[u8], token: Token) -> Result<(), SortFault>
        requires { length (items_in self.old.sorts) < 4096 }
        ensures value { stepped (scope_of (record_of tables.now)) (listed_in self.old) (mark_of text.now token) ≡ placed result (listed_in self.new) }
        ensures few { length (items_in self.new.sorts) ≤ length (items_in self.old.sorts) + 1 }
    {
        match (token.kind, self.bits) {
            (Kind::Opening, _) => self.bits = Some(token.from),
            (Kind::Closing, _) => self.close(),
            (Kind::Name, None) => {
                let sort = found_sort(tables, bytes_of(text, token), token.from)?;
                self.add(token.from, sort)?;
            }
            (Kind::Numeral(width), Some(open)) => {
                let sort = bits_at(tables, usize::from(width), open)?;
                self.add(open, sort)?;
            }
            _ => {}
        }
        Ok(())
    }

    // A method of its own, since the law of `read` stays open where its loop stands in it.
    fn follow(&mut self, tables: &Tables, tokens: Tokens<'_>) -> Result<(), SortFault>
        requires { items_in self.old.sorts ≡ [] }
        ensures { read (scope_of (record_of tables.now)) (listed_in self.old) (marks tokens.entry.text.now tokens.entry.rows.now) ≡ placed result (listed_in self.new) }
    {
        for token in tokens.rows {
            self.step(tables, tokens.text, *token)?;
        }
        Ok(())
    }

    // Reads the sorts that the tokens spell: of a function behind the parenthesis that opens its arguments, with no arity given, or of a constant behind its name, with arity 0.
    #[tactic(auto, using(crate::proofs::Follows::follows))]
    pub fn read(
        &mut self,
        tables: &Tables,
        tokens: Tokens<'_>,
        arity: Option<usize>,
    ) -> Result<(), SortFault>
        ensures value { read (scope_of (record_of tables.now)) (listed [] None arity) (marks tokens.entry.text.now tokens.entry.rows.now) ≡ placed result (listed_in self.new) }
        ensures law { Follows (scope_of (record_of tables.now)) (marks tokens.entry.text.now tokens.entry.rows.now) arity result (listed_in self.new) }
    {
        self.sorts.clear();
        self.bits = None;
        self.arity = arity;
        self.follow(tables, tokens)
    }

    // The function whose sorts were read, with its name; none if it has more than four arguments.
    pub fn row(&self, name: Name) -> Option<FunctionRow>
        ensures { option_map row_function result ≡ few_arguments (function_in (name_in name) (listed_in self.now)) }
    {
        // the definition takes no arguments before their list was closed, and Bool where no sort follows them
        let arity = self.arity.unwrap_or(0);
        let sorts = self.sorts.as_slice();
        let arguments = Short::of(Sort::Bool, &sorts[..arity.min(sorts.len())])?;
        let result = sorts.get(arity).copied().unwrap_or(Sort::Bool);
        Some(FunctionRow {
            name,
            arguments,
            result,
        })
    }
}
