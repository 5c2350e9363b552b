// What a form expects next, and how tokens can miss it.
ghost use Rattle.std.specs.Prelude.{◌≡◌};
ghost use Rattle.grammar.specs.Machine.{place_of};

#[derive(Clone, Copy, Debug, PartialEq, Eq)]
pub enum Item {
    OpenList,
    CloseList,
    // the word of a command, or another symbol
    Command,
    AName,
    AKeyword,
    ANumeral,
    AZero,
    ASort,
    // sorts up to the closing parenthesis
    Sorts,
    ATerm,
    // terms up to the closing parenthesis
    Terms,
    // assumptions up to the closing parenthesis
    Assumptions,
    AnUnderscore,
    ABitVec,
    ANot,
    // anything up to the closing parenthesis
    Anything,
}

// Why tokens aren't what is expected.
#[derive(Clone, Copy, Debug, PartialEq, Eq)]
pub enum Misfit {
    // the place of the first token that doesn't fit
    Wrong(usize),
    // the tokens end too early
    Short,
}

impl Misfit {
    // Where a text of so many bytes is at fault.
    pub fn place(self, size: usize) -> usize
        ensures { result ≡ place_of self size }
    {
        match self {
            Misfit::Wrong(place) => place,
            Misfit::Short => size,
        }
    }
}
