// The machine that reads tokens against a stack of expected items.
ghost use Rattle.std.specs.Prelude.{◌≡◌, ◌≤◌, length, IfSome};
ghost use Rattle.std.specs.Option.{option_map};
ghost use Rattle.grammar.specs.Machine.{form_of, replacement};

use crate::items::Item;
use crate::signs::Sign;
use words::Word;

// What follows the word of a command.
fn form_of(word: Word) -> Option<&'static [Item]>
    ensures value { option_map (λ x. x.now) result ≡ form_of word }
    ensures few { IfSome result (λ is. length is.now ≤ 5) }
{
    match word {
        Word::SetLogic => Some(&[Item::AName, Item::CloseList]),
        Word::DeclareSort => Some(&[Item::AName, Item::AZero, Item::CloseList]),
        Word::DeclareFun => Some(&[
            Item::AName,
            Item::OpenList,
            Item::Sorts,
            Item::ASort,
            Item::CloseList,
        ]),
        Word::DeclareConst => Some(&[Item::AName, Item::ASort, Item::CloseList]),
        Word::Assert => Some(&[Item::ATerm, Item::CloseList]),
        Word::Push | Word::Pop => Some(&[Item::ANumeral, Item::CloseList]),
        Word::CheckSat | Word::Reset | Word::Exit => Some(&[Item::CloseList]),
        Word::CheckSatAssuming => Some(&[Item::OpenList, Item::Assumptions, Item::CloseList]),
        Word::GetValue => Some(&[Item::OpenList, Item::ATerm, Item::Terms, Item::CloseList]),
        Word::GetInfo => Some(&[Item::AKeyword, Item::CloseList]),
        _ => None,
    }
}

// `(_ BitVec w)` behind its parenthesis, alone and among others.
static BITS: [Item; 4] = [
    Item::AnUnderscore,
    Item::ABitVec,
    Item::ANumeral,
    Item::CloseList,
];

static BITS_AND_SORTS: [Item; 5] = [
    Item::AnUnderscore,
    Item::ABitVec,
    Item::ANumeral,
    Item::CloseList,
    Item::Sorts,
];

// `(not n)` behind its parenthesis, among other assumptions.
static NEGATED: [Item; 4] = [Item::ANot, Item::AName, Item::CloseList, Item::Assumptions];

// What is expected in place of the item once the token is read.
#[tactic(auto, unfolding(crate::specs::Machine::replacement))]
pub fn replacement(item: Item, sign: Sign) -> Option<&'static [Item]>
    ensures value { option_map (λ x. x.now) result ≡ replacement item sign }
    ensures few { IfSome result (λ is. length is.now ≤ 5) }
{
    match (item, sign) {
        (Item::OpenList, Sign::Open)
        | (Item::CloseList | Item::Sorts | Item::Terms, Sign::Close)
        | (Item::Assumptions | Item::Anything, Sign::Close)
        | (Item::AKeyword, Sign::Key)
        | (Item::ANumeral, Sign::Number(_))
        | (Item::AZero, Sign::Number(0))
        | (Item::AName | Item::ASort | Item::ATerm, Sign::Symbol | Sign::BitVec | Sign::Not)
        | (Item::ATerm, Sign::Constant)
        | (Item::AnUnderscore, Sign::Reserved(Word::Underscore))
        | (Item::ABitVec, Sign::BitVec)
        | (Item::ANot, Sign::Not) => Some(&[]),
        (Item::Command, Sign::Reserved(word)) => form_of(word),
        (Item::Command, Sign::Symbol | Sign::BitVec | Sign::Not) => Some(&[Item::Anything]),
        (Item::ASort, Sign::Open) => Some(&BITS),
        (Item::Sorts, Sign::Open) => Some(&BITS_AND_SORTS),
        (Item::Sorts, Sign::Symbol | Sign::BitVec | Sign::Not) => Some(&[Item::Sorts]),
        (Item::ATerm, Sign::Open) => Some(&[Item::AName, Item::ATerm, Item::Terms]),
        (Item::Terms, Sign::Open) => Some(&[Item::AName, Item::ATerm, Item::Terms, Item::Terms]),
        (Item::Terms, Sign::Symbol | Sign::BitVec | Sign::Not) => Some(&[Item::Terms]),
        (Item::Terms, Sign::Constant) => Some(&[Item::Terms]),
        (Item::Assumptions, Sign::Open) => Some(&NEGATED),
        (Item::Assumptions, Sign::Symbol | Sign::BitVec | Sign::Not) => Some(&[Item::Assumptions]),
        (Item::Anything, Sign::Open) => Some(&[Item::Anything, Item::Anything]),
        (Item::Anything, _) => Some(&[Item::Anything]),
        _ => None,
    }
}
