// The characters of a script: the class of each byte, and the runs that blanks, comments and words make.
#![tactic(auto)]

ghost use Rattle.std.specs.Prelude.{◌≡◌, ◌+◌, ◌≤◌, false, length, drop};
ghost use Rattle.std.specs.List.{prefix_len};
ghost use Rattle.chars.specs.Classes.{class_of, is_mark, is_blank, is_word, Exactly};
ghost use Rattle.chars.specs.Runs.{gap, run};
ghost use Rattle.chars.specs.Gaps.{Skipped};

#[derive(Clone, Copy, Debug, PartialEq, Eq)]
pub enum Class {
    Blank,
    Open,
    Close,
    Semicolon,
    Hash,
    Colon,
    Digit,
    // a character that may stand anywhere in a symbol: letters and some marks
    Symbol,
    // any other byte: it may stand in comments only
    Stray,
}

fn is_mark(c: char) -> bool
    ensures { result ≡ is_mark c }
{
    matches!(
        c,
        '~' | '!'
            | '@'
            | '$'
            | '%'
            | '^'
            | '&'
            | '*'
            | '_'
            | '-'
            | '+'
            | '='
            | '<'
            | '>'
            | '.'
            | '?'
            | '/'
    )
}

// The one class of a byte.
#[tactic(auto, unfolding(crate::specs::Classes::class_of), using(crate::proofs::Exact::exactly_by))]
pub fn class_of(byte: u8) -> Class
    ensures value { result ≡ class_of byte }
    ensures law { Exactly byte result }
{
    match char::from(byte) {
        '\t' | '\n' | '\r' | ' ' => Class::Blank,
        '(' => Class::Open,
        ')' => Class::Close,
        ';' => Class::Semicolon,
        '#' => Class::Hash,
        ':' => Class::Colon,
        '0'..='9' => Class::Digit,
        'a'..='z' | 'A'..='Z' => Class::Symbol,
        c if is_mark(c) => Class::Symbol,
        _ => Class::Stray,
    }
}

pub fn is_blank(byte: u8) -> bool
    ensures { result ≡ is_blank byte }
{
    matches!(char::from(byte), '\t' | '\n' | '\r' | ' ')
}

// A symbol character or a digit.
pub fn is_word(byte: u8) -> bool
    ensures { result ≡ is_word byte }
{
    match char::from(byte) {
        'a'..='z' | 'A'..='Z' | '0'..='9' => true,
        c => is_mark(c),
    }
}

// The end of the blanks and comments that stand at `at`.
// That an end or a length lies within the text, and the place within it, are clauses of each function, since they speak of the text beside a number.
pub fn skip_gap(text: &[u8], at: usize) -> usize
    requires { at ≤ length text.now }
    ensures end { result ≡ at + gap false (drop at text.now) }
    ensures within { result ≤ length text.now }
    ensures law { Skipped text.now at result }
{
    // a flag: whether a comment is open is all the state that there is
    let mut comment = false;
    for (i, &byte) in text[at..].iter().enumerate() {
        match char::from(byte) {
            c if comment => comment = c != '\n' && c != '\r',
            ';' => comment = true,
            _ if is_blank(byte) => {}
            _ => return at + i,
        }
    }
    text.len()
}

// How many symbol characters and digits stand at the front.
fn word_len(text: &[u8]) -> usize
    ensures value { result ≡ prefix_len is_word text.now }
    ensures within { result ≤ length text.now }
{
    text.iter().take_while(|&&byte| is_word(byte)).count()
}

// The end of the symbol characters and digits that stand at `at`.
#[tactic(auto, using(crate::proofs::Counted::run_from))]
pub fn skip_run(text: &[u8], at: usize) -> usize
    requires { at ≤ length text.now }
    ensures end { result ≡ at + run (drop at text.now) }
    ensures within { result ≤ length text.now }
{
    at + word_len(&text[at..])
}
