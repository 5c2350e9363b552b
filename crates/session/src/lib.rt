// A solver session: it is given command texts, one at a time, and answers each.
#![tactic(auto)]

ghost use Rattle.std.specs.Prelude.{◌≡◌, ◌≤◌, length, Ok, nat_lt};
ghost use Rattle.page.specs.Pages.{Wrote};
ghost use Rattle.tokens.specs.Lexing.{bytes_of};
ghost use Rattle.rules.specs.declared.Mode.TheVariants.{Assert};
ghost use Rattle.rules.specs.declared.Said.TheVariants.{Success};
ghost use Rattle.rules.specs.Records.{logic_of, asks_reason, info_of, reading, request_of, set_logic, push, pop, reason, reset, exit, unsupported};
ghost use Rattle.rules.specs.Steps.{State, new_state, logic_set, pushed, popped, executed, acted, printed, spoken, Replied};
ghost use Rattle.rules.specs.Table.{answer, step, session};
ghost use Rattle.rules.specs.Laws.{Laws, InTurn};
ghost use Rattle.session.specs.Views.{view, given};

use crate::store::Session;
use forms::Command;
use grammar::items::Item;
use page::{error, put};
use rules::{Fault, Mode, Reply, Said};
use theory::Logic;
use tokens::text::Text;
use tokens::{Kind, Token, bytes_of};
use words::spelled::first;

pub mod store;

// The logic of this name.
fn logic_of(name: &[u8]) -> Option<Logic>
    ensures { result ≡ logic_of name.now }
{
    first(&[Logic::QfUf, Logic::QfBv], name)
}

// The keyword asks for the reason of the last `unknown`.
fn asks_reason(keyword: &[u8]) -> bool
    ensures { result ≡ asks_reason keyword.now }
{
    keyword == b":reason-unknown".as_slice()
}

// The command that the text is. The tables are room to read in.
#[tactic(auto, unfolding(rules::specs::Records::reading))]
fn read(
    text: Text<'_>,
    table: &mut [Token; 4096],
    items: &mut [Item; 16388],
) -> Result<Command, Fault>
    ensures { result ≡ reading text.entry.bytes.now }
{
    let tokens = tokens::read(text, table)?;
    Ok(forms::read(tokens, items)?)
}

impl Session {
    // An accepted change of what stands.
    fn succeed(&mut self) -> Result<Said, Fault>
        ensures mode { self.new.mode ≡ Assert }
        ensures kept { (self.new.logic ≡ self.old.logic) × (self.new.depth ≡ self.old.depth) × (self.new.ended ≡ self.old.ended) }
        ensures said { result ≡ Ok Success }
    {
        self.mode = Mode::Assert;
        Ok(Said::Success)
    }

    fn set_logic(&mut self, name: &[u8], place: usize) -> Result<Said, Fault>
        ensures { (view self.new, result) ≡ logic_set (view self.old) (logic_of name.now) place }
    {
        let logic = logic_of(name).ok_or(Fault::Logic(place))?;
        self.logic = Some(logic);
        self.succeed()
    }

    fn push(&mut self, levels: u16, place: usize) -> Result<Said, Fault>
        ensures { (view self.new, result) ≡ pushed (view self.old) levels place }
    {
        let depth = u32::from(self.depth) + u32::from(levels);
        if depth > 63 {
            return Err(Fault::Depth(place));
        }
        self.depth = depth as u8;
        self.succeed()
    }

    fn pop(&mut self, levels: u16, place: usize) -> Result<Said, Fault>
        ensures { (view self.new, result) ≡ popped (view self.old) levels place }
    {
        if levels > u16::from(self.depth) {
            return Err(Fault::Depth(place));
        }
        self.depth -= levels as u8;
        self.succeed()
    }

    fn get_info(&self, keyword: &[u8]) -> Result<Said, Fault>
        ensures { (view self.now, result) ≡ executed (view self.now) (info_of keyword.now) }
    {
        if asks_reason(keyword) {
            Err(Fault::Mode)
        } else {
            Ok(Said::Unsupported)
        }
    }

    fn reset(&mut self) -> Result<Said, Fault>
        ensures { (view self.new, result) ≡ executed (view self.old) reset }
    {
        self.logic = None;
        self.depth = 0;
        self.mode = Mode::Start;
        self.ended = false;
        Ok(Said::Success)
    }

    fn exit(&mut self) -> Result<Said, Fault>
        ensures { (view self.new, result) ≡ executed (view self.old) exit }
    {
        self.ended = true;
        Ok(Said::Success)
    }

    // A command in form: each meets the mode that it finds. One match on mode and command, a rule of the project.
    fn execute(&mut self, text: &[u8], command: Command) -> Result<Said, Fault>
        ensures { (view self.new, result) ≡ executed (view self.old) (request_of text.now command) }
    {
        match (self.mode, command) {
            (_, Command::GetInfo(keyword)) => self.get_info(bytes_of(text, keyword)),
            (Mode::Start, Command::SetLogic(name)) => self.set_logic(
                bytes_of(text, name),
                name.from,
            ),
            (_, Command::SetLogic(_)) => Err(Fault::Mode),
            (Mode::Start, Command::Push(_, _)) => Err(Fault::Mode),
            (_, Command::Push(levels, place)) => self.push(levels, place),
            (Mode::Start, Command::Pop(_, _)) => Err(Fault::Mode),
            (_, Command::Pop(levels, place)) => self.pop(levels, place),
            (_, Command::Reset) => self.reset(),
            (_, Command::Exit) => self.exit(),
            (_, _) => Ok(Said::Unsupported),
        }
    }

    // A text, on a page that is large enough.
    fn act(&mut self, text: &[u8]) -> Result<Said, Fault>
        ensures { (view self.new, result) ≡ acted (view self.old) text.now }
    {
        let short = Text::new(text).ok_or(Fault::Text)?;
        if self.ended {
            return Err(Fault::Ended);
        }
        let command = read(short, &mut self.tokens, &mut self.items)?;
        self.execute(text, command)
    }
}

// Writes the word of an accepted command at the front of the page, and says how many bytes it has. By `put`, and by no `Display`: `write!` promises its text only where it succeeds, and no clause says when it does. Its room is a clause, as in the crate of pages.
fn print(page: &mut [u8], said: Said) -> usize
    requires { 64 ≤ length page.old }
    ensures { Wrote page.old 0 (printed said) page.new result }
{
    match said {
        Said::Success => put(page, 0, b"success\n"),
        Said::Unsupported => put(page, 0, b"unsupported\n"),
    }
}

// The reply to a command, with its bytes at the front of the page.
fn reply(page: &mut [u8], outcome: Result<Said, Fault>) -> Reply
    requires { 64 ≤ length page.old }
    ensures { Replied (spoken outcome) page.old page.new result }
{
    let count = match outcome {
        Ok(said) => print(page, said),
        Err(fault) => error(page, fault.number(), fault.place()),
    };
    Reply { outcome, count }
}

impl Session {
    // A session in which nothing stands.
    #[tactic(auto, using(rules::proofs::Whole::laws))]
    pub fn new() -> Session
        ensures view { view result ≡ new_state }
        ensures laws { Laws session }
    {
        Session {
            logic: None,
            depth: 0,
            mode: Mode::Start,
            ended: false,
            tokens: [Token {
                kind: Kind::Opening,
                from: 0,
                end: 0,
            }; 4096],
            items: [Item::OpenList; 16388],
        }
    }

    // An `exit` was accepted. By a pattern, so that the line stands once in the file, as an edit that must fail wants it.
    pub fn has_ended(&self) -> bool
        ensures { result ≡ (view self.now).ended }
    {
        matches!(self, Session { ended: true, .. })
    }

    // Gives a command: a text, and a page for the response.
    pub fn command(&mut self, text: &[u8], page: &mut [u8]) -> Reply
        ensures step { view self.new ≡ step (view self.old) (given text.now page.old) }
        ensures answer { Replied (answer (view self.old) (given text.now page.old)) page.old page.new result }
        ensures turn { InTurn (view self.old) (given text.now page.old) page.old page.new result (view self.new) }
    {
        if is_small(page) {
            return Reply {
                outcome: Err(Fault::Page),
                count: 0,
            };
        }
        let outcome = self.act(text);
        reply(page, outcome)
    }
}

// The page has no room for a response.
fn is_small(page: &[u8]) -> bool
    ensures { result ≡ nat_lt (length page.now) 8192 }
{
    page.len() < 8192
}
