// The reserved words of command texts.
#![tactic(auto)]

pub mod spelled;

ghost use Rattle.std.specs.Prelude.{◌≡◌};
ghost use Rattle.words.specs.Words.{spelling, word_of, Told};

use spelled::{Spelled, first};

// The words of the thirteen commands first, then the others that no symbol may be.
#[derive(Clone, Copy, Debug, PartialEq, Eq)]
pub enum Word {
    Push,
    Pop,
    Assert,
    CheckSat,
    DeclareConst,
    DeclareFun,
    DeclareSort,
    CheckSatAssuming,
    GetValue,
    GetInfo,
    SetLogic,
    Reset,
    Exit,
    Underscore,
    Bang,
    As,
    Let,
    Exists,
    Forall,
    Match,
    Par,
    Binary,
    Decimal,
    Hexadecimal,
    Numerals,
    Strings,
}

impl Word {
    // How it is written.
    pub fn spelling(&self) -> &'static [u8]
        ensures { result.now ≡ spelling self.now }
    {
        match *self {
            Word::Push => b"push",
            Word::Pop => b"pop",
            Word::Assert => b"assert",
            Word::CheckSat => b"check-sat",
            Word::DeclareConst => b"declare-const",
            Word::DeclareFun => b"declare-fun",
            Word::DeclareSort => b"declare-sort",
            Word::CheckSatAssuming => b"check-sat-assuming",
            Word::GetValue => b"get-value",
            Word::GetInfo => b"get-info",
            Word::SetLogic => b"set-logic",
            Word::Reset => b"reset",
            Word::Exit => b"exit",
            Word::Underscore => b"_",
            Word::Bang => b"!",
            Word::As => b"as",
            Word::Let => b"let",
            Word::Exists => b"exists",
            Word::Forall => b"forall",
            Word::Match => b"match",
            Word::Par => b"par",
            Word::Binary => b"BINARY",
            Word::Decimal => b"DECIMAL",
            Word::Hexadecimal => b"HEXADECIMAL",
            Word::Numerals => b"NUMERAL",
            Word::Strings => b"STRING",
        }
    }
}

impl Spelled for Word {
    ghost written = { spelling };

    #[tactic(auto, using(crate::proofs::Found::same_is))]
    fn spells(&self, name: &[u8]) -> bool {
        name == self.spelling()
    }
}

static WORDS: [Word; 26] = [
    Word::Push,
    Word::Pop,
    Word::Assert,
    Word::CheckSat,
    Word::DeclareConst,
    Word::DeclareFun,
    Word::DeclareSort,
    Word::CheckSatAssuming,
    Word::GetValue,
    Word::GetInfo,
    Word::SetLogic,
    Word::Reset,
    Word::Exit,
    Word::Underscore,
    Word::Bang,
    Word::As,
    Word::Let,
    Word::Exists,
    Word::Forall,
    Word::Match,
    Word::Par,
    Word::Binary,
    Word::Decimal,
    Word::Hexadecimal,
    Word::Numerals,
    Word::Strings,
];

// The reserved word that the name is, if any.
#[tactic(auto, unfolding(crate::specs::Words::word_of))]
pub fn word_of(name: &[u8]) -> Option<Word>
    ensures value { result ≡ word_of name.now }
    ensures law { Told name.now result }
{
    first(&WORDS, name)
}
