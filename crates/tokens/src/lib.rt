// The tokens of a command text, read into a table of fixed size.
#![tactic(auto)]

ghost use Rattle.std.specs.Prelude.{◌≡◌, ℕ, ◌+◌, ◌-◌, ◌<◌, ◌≤◌, length, IfOk, MatchResult, IfSome, slice_index};
ghost use Rattle.chars.specs.Classes.{class_of};
ghost use Rattle.chars.specs.Runs.{gap, run};
ghost use Rattle.chars.specs.declared.Class.TheVariants.{Hash, Colon, Digit, Symbol};
ghost use Rattle.tokens.specs.Lexing.{named, starts_symbol, next, tokens, Rows, bytes_of};
ghost use Rattle.tokens.specs.Reads.{lexeme_at, EndsInside, EndsBehind, rows_in};
ghost use Rattle.tokens.specs.Spelling.{LexLaw};

mod numbers;
pub mod text;

use crate::numbers::{literal, numeral};
use crate::text::{Place, Text, Tokens};
use chars::{Class, class_of, skip_gap, skip_run};

#[derive(Clone, Copy, Debug, PartialEq, Eq)]
pub enum Kind {
    Opening,
    Closing,
    Name,
    Keyword,
    // a numeral's value
    Numeral(u16),
    // a literal's width, and the lowest 16 bits of its value
    Literal(usize, u16),
}

// A token is of a kind, and has its bytes from a place of the text up to another.
#[derive(Clone, Copy, Debug, PartialEq, Eq)]
pub struct Token {
    pub kind: Kind,
    pub from: usize,
    pub end: usize,
}

// Each fault has its place.
#[derive(Clone, Copy, Debug, PartialEq, Eq)]
pub enum TokenFault {
    // a byte that no token may hold there
    Unexpected(usize),
    // a numeral or literal that breaks its rule
    Malformed(usize),
    // a symbol or keyword of more than 64 bytes
    TooLong(usize),
}

// A symbol may begin with this byte.
fn starts_symbol(byte: u8) -> bool
    ensures { result ≡ starts_symbol (class_of byte) }
{
    matches!(class_of(byte), Class::Symbol)
}

// A symbol or keyword has at most 64 bytes.
fn named(kind: Kind, from: usize, end: usize) -> Result<Token, TokenFault>
    requires { from ≤ end }
    ensures value { result ≡ named kind (end - from) from }
    ensures end { IfOk result (λ t. t.end ≡ end) }
{
    if end - from > 64 {
        return Err(TokenFault::TooLong(from));
    }
    Ok(Token { kind, from, end })
}

// Where a token ends is a clause of each method, since it speaks of the result, and of the place only beside it.
impl Place<'_> {
    fn name(self) -> Result<Token, TokenFault>
        ensures value { result ≡ lexeme_at Symbol self.entry }
        ensures within { EndsInside self.entry result }
    {
        let Place { text, from } = self;
        let end = skip_run(text.bytes, from);
        named(Kind::Name, from, end)
    }

    fn numeral(self) -> Result<Token, TokenFault>
        ensures value { result ≡ lexeme_at Digit self.entry }
        ensures within { EndsInside self.entry result }
    {
        let Place { text, from } = self;
        let end = skip_run(text.bytes, from);
        let value = numeral(&text.bytes[from..end]).ok_or(TokenFault::Malformed(from))?;
        Ok(Token {
            kind: Kind::Numeral(value),
            from,
            end,
        })
    }

    fn literal(self) -> Result<Token, TokenFault>
        ensures value { result ≡ lexeme_at Hash self.entry }
        ensures within { EndsBehind self.entry result }
    {
        let Place { text, from } = self;
        let end = skip_run(text.bytes, from + 1);
        let (width, value) = literal(&text.bytes[from..end]).ok_or(TokenFault::Malformed(from))?;
        Ok(Token {
            kind: Kind::Literal(width, value),
            from,
            end,
        })
    }

    fn keyword(self) -> Result<Token, TokenFault>
        ensures value { result ≡ lexeme_at Colon self.entry }
        ensures within { EndsBehind self.entry result }
    {
        let Place { text, from } = self;
        if text.bytes.len() - from < 2 || !starts_symbol(text.bytes[from + 1]) {
            return Err(TokenFault::Unexpected(from));
        }
        let end = skip_run(text.bytes, from + 1);
        named(Kind::Keyword, from, end)
    }

    // The token that begins here: one class an arm, as the rules list them.
    fn token(self) -> Result<Token, TokenFault>
        ensures value { result ≡ lexeme_at (class_of (slice_index self.entry.text.bytes.now self.entry.from)) self.entry }
        ensures within { EndsBehind self.entry result }
    {
        let Place { text, from } = self;
        let end = from + 1;
        match class_of(text.bytes[from]) {
            Class::Open => Ok(Token {
                kind: Kind::Opening,
                from,
                end,
            }),
            Class::Close => Ok(Token {
                kind: Kind::Closing,
                from,
                end,
            }),
            Class::Hash => self.literal(),
            Class::Colon => self.keyword(),
            Class::Digit => self.numeral(),
            Class::Symbol => self.name(),
            Class::Blank | Class::Semicolon | Class::Stray => Err(TokenFault::Unexpected(from)),
        }
    }
}

// The next token at or behind `at`, if there is one. Text and place are two parameters, since the answer has places in the whole text.
fn next_token(text: Text<'_>, at: usize) -> Result<Option<Token>, TokenFault>
    requires { at ≤ length text.bytes.now }
    ensures value { result ≡ next text.entry.bytes.now at }
    ensures within { MatchResult result (λ o. IfSome o (λ t. (at < t.end) × (t.end ≤ length text.entry.bytes.now))) (λ _. at < length text.entry.bytes.now) }
{
    let from = skip_gap(text.bytes, at);
    if from == text.bytes.len() {
        return Ok(None);
    }
    Ok(Some(Place { text, from }.token()?))
}

// Reads the tokens of the text into the table, and says how many they are: the filled rows are counted, since the table is fixed memory.
pub fn lex(text: Text<'_>, table: &mut [Token; 4096]) -> Result<usize, TokenFault>
    ensures rows { Rows (tokens text.entry.bytes.now) table.new result }
    ensures few { IfOk result (λ n. n ≤ 4096) }
    ensures law { LexLaw text.entry.bytes.now (tokens text.entry.bytes.now) }
{
    let mut at = 0;
    let mut count = 0;
    while let Some(token) = next_token(text, at)? {
        table[count] = token;
        count += 1;
        at = token.end;
    }
    Ok(count)
}

// The tokens of the text with the text itself; the table keeps them.
pub fn read<'a>(text: Text<'a>, table: &'a mut [Token; 4096]) -> Result<Tokens<'a>, TokenFault>
    ensures rows { rows_in result ≡ tokens text.entry.bytes.now }
    ensures text { IfOk result (λ ts. ts.text.now ≡ text.entry.bytes.now) }
{
    let count = lex(text, table)?;
    Ok(Tokens {
        text: text.bytes,
        rows: &table[..count],
    })
}

// The bytes of a token; as many of them as the text has. Text and token are two parameters, since a text has many tokens.
pub fn bytes_of<'a>(text: &'a [u8], token: Token) -> &'a [u8]
    ensures { result.now ≡ bytes_of text.now token }
{
    let end = token.end.min(text.len());
    let from = token.from.min(end);
    &text[from..end]
}
