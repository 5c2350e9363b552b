// Reading a command's form off its tokens.
#![tactic(auto)]

ghost use Rattle.std.specs.Prelude.{◌≡◌, ◌+◌, ◌<◌, ◌≤◌, length, drop, IfSome};
ghost use Rattle.std.specs.Option.{option_map};
ghost use Rattle.grammar.specs.Machine.{step};
ghost use Rattle.forms.specs.Forms.{open_behind, closed_list, deepest, number_of, word_command, headed, sign_in, fitted, formed};
ghost use Rattle.forms.specs.Laws.{Reading};

use grammar::items::{Item, Misfit};
use grammar::machine::replacement;
use grammar::signs::{Sign, sign_of};
use tokens::text::Tokens;
use tokens::{Kind, Token};
use words::Word;

// A command in form. Logic and keyword are told by their token, a numeral by its value and place: two numbers, since just two commands have one.
#[derive(Clone, Copy, Debug, PartialEq, Eq)]
pub enum Command {
    SetLogic(Token),
    DeclareSort,
    DeclareFun,
    DeclareConst,
    Assert,
    Push(u16, usize),
    Pop(u16, usize),
    CheckSat,
    CheckSatAssuming,
    GetValue,
    GetInfo(Token),
    Reset,
    Exit,
    // a list headed by another symbol
    Other,
}

// Each fault has its place.
#[derive(Clone, Copy, Debug, PartialEq, Eq)]
pub enum FormFault {
    // the tokens aren't one closed list
    Unclosed(usize),
    // lists are nested deeper than 64
    Nested(usize),
    // a token outside the command's form
    Outside(usize),
}

// How many lists are open behind a token.
fn open_behind(kind: Kind, depth: usize) -> usize
    requires { depth ≤ 4096 }
    ensures value { result ≡ open_behind kind depth }
    ensures bound { result ≤ depth + 1 }
{
    match kind {
        Kind::Opening => depth + 1,
        Kind::Closing => depth.saturating_sub(1),
        _ => depth,
    }
}

fn closed_list(tokens: Tokens<'_>) -> Result<(), Misfit>
    ensures { result ≡ closed_list tokens.entry.rows.now }
{
    let [head, rest @ ..] = tokens.rows else {
        return Err(Misfit::Short);
    };
    if head.kind != Kind::Opening {
        return Err(Misfit::Wrong(head.from));
    }
    let mut depth: usize = 1;
    for later in rest {
        if depth == 0 {
            return Err(Misfit::Wrong(later.from));
        }
        depth = open_behind(later.kind, depth);
    }
    if depth == 0 {
        Ok(())
    } else {
        Err(Misfit::Short)
    }
}

// The first parenthesis that opens a list inside 64 others.
fn deepest(tokens: Tokens<'_>) -> Option<usize>
    ensures { result ≡ deepest 0 tokens.entry.rows.now }
{
    let mut depth = 0;
    for token in tokens.rows {
        if token.kind == Kind::Opening && depth == 64 {
            return Some(token.from);
        }
        depth = open_behind(token.kind, depth);
    }
    None
}

// One token against the stack of expected items, which stands from `top` to the table's end, the next item first. Answers the new top, or none where the token doesn't fit.
// The table and its top are two parameters, since the table is lent and fixed: no heap below the script.
fn advance(items: &mut [Item; 16388], top: usize, sign: Sign) -> Option<usize>
    requires low { 5 ≤ top }
    requires high { top ≤ 16388 }
    ensures step { option_map (λ t. drop t items.new) result ≡ step (drop top items.old) sign }
    ensures bound { IfSome result (λ t. (t ≤ 16388) × (top ≤ t + 4)) }
{
    if top == 16388 {
        return None;
    }
    let pushed = replacement(items[top], sign)?;
    let next = top + 1 - pushed.len();
    items[next..top + 1].copy_from_slice(pushed);
    Some(next)
}

// Whether the tokens are a command.
fn fits(tokens: Tokens<'_>, items: &mut [Item; 16388]) -> Result<(), Misfit>
    ensures { result ≡ fitted tokens.entry.text.now tokens.entry.rows.now }
{
    items[16386] = Item::OpenList;
    items[16387] = Item::Command;
    let mut top = 16386;
    for token in tokens.rows {
        let sign = sign_of(tokens.text, *token);
        let Some(next) = advance(items, top, sign) else {
            return Err(Misfit::Wrong(token.from));
        };
        top = next;
    }
    if top == 16388 {
        Ok(())
    } else {
        Err(Misfit::Short)
    }
}

// The numeral's value; 0 for another token. A number and no Option, which would add a branch that no fitting command takes.
fn number_of(kind: Kind) -> u16
    ensures { result ≡ number_of kind }
{
    match kind {
        Kind::Numeral(value) => value,
        _ => 0,
    }
}

fn word_command(word: Word, operand: Token) -> Command
    ensures { result ≡ word_command word operand }
{
    match word {
        Word::SetLogic => Command::SetLogic(operand),
        Word::DeclareSort => Command::DeclareSort,
        Word::DeclareFun => Command::DeclareFun,
        Word::DeclareConst => Command::DeclareConst,
        Word::Assert => Command::Assert,
        Word::Push => Command::Push(number_of(operand.kind), operand.from),
        Word::Pop => Command::Pop(number_of(operand.kind), operand.from),
        Word::CheckSat => Command::CheckSat,
        Word::CheckSatAssuming => Command::CheckSatAssuming,
        Word::GetValue => Command::GetValue,
        Word::GetInfo => Command::GetInfo(operand),
        Word::Reset => Command::Reset,
        Word::Exit => Command::Exit,
        _ => Command::Other,
    }
}

// The command of its word, the second token, and its operand, the third.
fn command_of(text: &[u8], head: Token, operand: Token) -> Command
    ensures { result ≡ headed (sign_in text.now head) operand }
{
    match sign_of(text, head) {
        Sign::Reserved(word) => word_command(word, operand),
        _ => Command::Other,
    }
}

// The command that the tokens of the text are. The table of items is room to work in.
// One closed list first, then the nesting, then the form.
#[tactic(auto, using(crate::proofs::Whole::reading_of))]
pub fn read(tokens: Tokens<'_>, items: &mut [Item; 16388]) -> Result<Command, FormFault>
    ensures value { result ≡ formed tokens.entry.text.now tokens.entry.rows.now }
    ensures law { Reading tokens.entry.text.now tokens.entry.rows.now result }
{
    let size = tokens.text.len();
    closed_list(tokens).map_err(|misfit| FormFault::Unclosed(misfit.place(size)))?;
    if let Some(place) = deepest(tokens) {
        return Err(FormFault::Nested(place));
    }
    fits(tokens, items).map_err(|misfit| FormFault::Outside(misfit.place(size)))?;
    let operand = tokens.rows[2];
    Ok(command_of(tokens.text, tokens.rows[1], operand))
}
