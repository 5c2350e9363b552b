// The words of a session: modes, faults and replies.
#![tactic(auto)]

ghost use Rattle.std.specs.Prelude.{◌≡◌};
ghost use Rattle.rules.specs.declared.Fault.TheVariants.{Token, Form};
ghost use Rattle.rules.specs.Wrong.{Fails, surplus, refusing, forgetful};
ghost use Rattle.rules.specs.Refusals.{number_of, place_of, number_in, place_in};

use forms::FormFault;
use tokens::TokenFault;

// Where the session stands between its commands.
#[derive(Clone, Copy, Debug, PartialEq, Eq)]
pub enum Mode {
    // no logic is set
    Start,
    // what stands has changed since the last check
    Assert,
    // the last check answered `sat` or `unknown`
    Sat,
    // the last check answered `unsat`
    Unsat,
}

// Why a command is refused, by the layer that found it.
#[derive(Clone, Copy, Debug, PartialEq, Eq)]
pub enum Fault {
    // the page has less than 8,192 bytes
    Page,
    // the text has more than 4,096 bytes
    Text,
    // an `exit` was accepted
    Ended,
    Token(TokenFault),
    Form(FormFault),
    // not allowed in this mode
    Mode,
    // an unknown logic
    Logic(usize),
    // a pop above the depth, or a push beyond depth 63
    Depth(usize),
}

impl From<TokenFault> for Fault {
    ghost from_gives = { λ e r. r ≡ Token e };

    fn from(e: TokenFault) -> Fault {
        Fault::Token(e)
    }
}

impl From<FormFault> for Fault {
    ghost from_gives = { λ e r. r ≡ Form e };

    fn from(e: FormFault) -> Fault {
        Fault::Form(e)
    }
}

impl Fault {
    // The number under which the refusal is known.
    pub fn number(self) -> u8
        ensures { result ≡ number_of self }
    {
        match self {
            Fault::Page => 1,
            Fault::Text => 2,
            Fault::Ended => 3,
            Fault::Token(TokenFault::Unexpected(_)) => 10,
            Fault::Token(TokenFault::Malformed(_)) => 12,
            Fault::Token(TokenFault::TooLong(_)) => 13,
            Fault::Form(FormFault::Unclosed(_)) => 20,
            Fault::Form(FormFault::Nested(_)) => 21,
            Fault::Form(FormFault::Outside(_)) => 22,
            Fault::Mode => 30,
            Fault::Logic(_) => 31,
            Fault::Depth(_) => 32,
        }
    }

    // The place in the command text that the refusal points at, 0 where it points at none: hosts are given a number in either case.
    pub fn place(self) -> usize
        ensures { result ≡ place_of self }
    {
        match self {
            Fault::Page | Fault::Text | Fault::Ended | Fault::Mode => 0,
            Fault::Token(
                TokenFault::Unexpected(place)
                | TokenFault::Malformed(place)
                | TokenFault::TooLong(place),
            ) => place,
            Fault::Form(
                FormFault::Unclosed(place) | FormFault::Nested(place) | FormFault::Outside(place),
            ) => place,
            Fault::Logic(place) | Fault::Depth(place) => place,
        }
    }
}

// What an accepted command prints.
#[derive(Clone, Copy, Debug, PartialEq, Eq)]
pub enum Said {
    Success,
    Unsupported,
}

// What comes back for a command, and how many bytes of its page were written.
#[derive(Clone, Copy, Debug, PartialEq, Eq)]
pub struct Reply {
    pub outcome: Result<Said, Fault>,
    pub count: usize,
}

impl Reply {
    // The number of the refusal, 0 for an accepted command.
    pub fn number(self) -> u8
        ensures { result ≡ number_in self.outcome }
    {
        self.outcome.err().map_or(0, Fault::number)
    }

    // The place that the refusal points at, 0 for an accepted command.
    pub fn place(self) -> usize
        ensures { result ≡ place_in self.outcome }
    {
        self.outcome.err().map_or(0, Fault::place)
    }
}

// The laws have teeth: they exclude a session that pops on a surplus pop, one that refuses everything, and one that forgets.
pub fn wrong_sessions_fail()
    ensures surplus { Fails surplus }
    ensures refusing { Fails refusing }
    ensures forgetful { Fails forgetful }
{}
