// Cutting a script into pieces: lists with their closing parentheses, stray closing parentheses, and atoms.
#![tactic(auto)]

ghost use Rattle.std.specs.Prelude.{◌≡◌, ℕ, ◌≤◌, false, not, List, length};
ghost use Rattle.std.specs.List.{prefix_len};
ghost use Rattle.std.specs.Iterator.{YieldsFirstRef, item_count};
ghost use Rattle.pieces.specs.Cuts.{ends_atom, list_length, piece_length, piece, pieces, Within, Next};
ghost use Rattle.pieces.specs.Laws.{OnlyCut};

use std::marker::Model;

// A piece of a script: from its first byte to the end behind its last.
#[derive(Clone, Copy, Debug, PartialEq, Eq)]
pub struct Piece {
    pub from: usize,
    pub end: usize,
}

fn ends_atom(byte: u8) -> bool
    ensures { result ≡ ends_atom byte }
{
    matches!(char::from(byte), '\t' | '\n' | '\r' | ' ' | '(' | ')' | ';')
}

// How many bytes at the front belong to an atom. As in the crate of characters, each length is told to lie within the text.
fn atom_len(text: &[u8]) -> usize
    ensures value { result ≡ prefix_len (λ b. not (ends_atom b)) text.now }
    ensures within { result ≤ length text.now }
{
    text.iter().take_while(|&&byte| !ends_atom(byte)).count()
}

// How many bytes there are behind an opening parenthesis, up to and with the one that closes it, or to the end.
fn list_len(text: &[u8]) -> usize
    ensures value { result ≡ list_length 1 false text.now }
    ensures within { result ≤ length text.now }
{
    // The flag stays beside the depth, which a comment leaves as it is: no variant would own it.
    let mut comment = false;
    let mut depth: usize = 1;
    for (i, &byte) in text.iter().enumerate() {
        match char::from(byte) {
            c if comment => comment = c != '\n' && c != '\r',
            ';' => comment = true,
            '(' => depth += 1,
            ')' if depth == 1 => return i + 1,
            ')' => depth -= 1,
            _ => {}
        }
    }
    text.len()
}

// How long the piece at the front is.
#[tactic(auto, using(crate::proofs::Counted::atom_counted))]
fn piece_len(text: &[u8]) -> usize
    ensures value { result ≡ piece_length text.now }
    ensures within { result ≤ length text.now }
{
    match text {
        [b'(', rest @ ..] => 1 + list_len(rest),
        [b')', ..] => 1,
        _ => atom_len(text),
    }
}

// The next piece at or behind `at`; none if only blanks and comments are left. Text and place are two parameters, since the answer has places in the whole text.
pub fn next_piece(script: &[u8], at: usize) -> Option<Piece>
    requires { at ≤ length script.now }
    ensures result { result ≡ piece script.now at }
    ensures within { Within script.now at result }
    ensures next { Next script.now at result }
    ensures law { OnlyCut script.now }
{
    let from = chars::skip_gap(script, at);
    if from == script.len() {
        return None;
    }
    Some(Piece {
        from,
        end: from + piece_len(&script[from..]),
    })
}

// The pieces that are left of a script, one after the other.
#[derive(Drop)]
pub struct Pieces<'a> {
    rest: &'a [u8],
}

impl<'a> Model for Pieces<'a> {
    ghost Value = { List (List ℕ) };

    ghost view = { λ s. pieces s.rest.now };
}

// Cuts a script into its pieces.
pub fn cut(script: &[u8]) -> Pieces<'_>
    ensures value { result ≡ pieces script.now }
    ensures law { OnlyCut script.now }
{
    Pieces { rest: script }
}

impl<'a> Iterator for Pieces<'a> {
    type Item = &'a [u8];

    ghost next_gives = { YieldsFirstRef (λ left. left) };

    ghost remaining = { item_count (λ left. left) };

    fn next(&mut self) -> Option<&'a [u8]> {
        let script = self.rest;
        let piece = next_piece(script, 0)?;
        self.rest = &script[piece.end..];
        Some(&script[piece.from..piece.end])
    }
}
