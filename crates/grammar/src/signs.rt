// What the forms see of a token.
ghost use Rattle.std.specs.Prelude.{◌≡◌};
ghost use Rattle.tokens.specs.Lexing.{bytes_of};
ghost use Rattle.words.specs.Words.{word_of};
ghost use Rattle.grammar.specs.Marks.{lexeme_of, sign, symbol_or};

use tokens::{Kind, Token, bytes_of};
use words::{Word, word_of};

#[derive(Clone, Copy, Debug, PartialEq, Eq)]
pub enum Sign {
    Open,
    Close,
    Reserved(Word),
    // a symbol that no form names
    Symbol,
    BitVec,
    Not,
    Key,
    Number(u16),
    Constant,
}

#[tactic(auto, using(words::proofs::Found::same_is))]
fn name_sign(name: &[u8]) -> Sign
    ensures { result ≡ sign (symbol_or (word_of name.now) name.now) }
{
    match word_of(name) {
        Some(word) => Sign::Reserved(word),
        None if name == b"BitVec".as_slice() => Sign::BitVec,
        None if name == b"not".as_slice() => Sign::Not,
        None => Sign::Symbol,
    }
}

// What a token is to the forms.
pub fn sign_of(text: &[u8], token: Token) -> Sign
    ensures { result ≡ sign (lexeme_of token.kind (bytes_of text.now token)) }
{
    match token.kind {
        Kind::Opening => Sign::Open,
        Kind::Closing => Sign::Close,
        Kind::Name => name_sign(bytes_of(text, token)),
        Kind::Keyword => Sign::Key,
        Kind::Numeral(value) => Sign::Number(value),
        Kind::Literal(_, _) => Sign::Constant,
    }
}
