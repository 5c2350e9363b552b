// The tables of a session.
ghost use Rattle.scopes.specs.Tables.{Tidy};

use crate::rows::{FunctionRow, Name, TermRow};
use scopes::table::Table;
use theory::Logic;

// Terms lie so that each stands behind its parts. At most 1,024 of them stand; there is room for those of one command more, which has at most 4,096 tokens, so that reading a command never depends on room.
// Parts and assertions are told by the numbers of their terms: there is no heap to hold trees.
// Each table is sound, a fact of this type, so that no look-up asks for it; whoever makes or changes the tables shows it.
#[derive(Drop)]
pub struct Tables {
    pub(crate) logic: Option<Logic>,
    pub(crate) sorts: Table<Name, 32>,
    pub(crate) functions: Table<FunctionRow, 256>,
    pub(crate) terms: Table<TermRow, 5120>,
    pub(crate) parts: Table<u16, 5120>,
    pub(crate) assertions: Table<u16, 256>,
    pub ghost sorts_tidy: { Tidy sorts },
    pub ghost functions_tidy: { Tidy functions },
    pub ghost terms_tidy: { Tidy terms },
    pub ghost parts_tidy: { Tidy parts },
    pub ghost assertions_tidy: { Tidy assertions },
}
