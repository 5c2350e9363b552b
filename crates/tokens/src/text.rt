// A command text, and its tokens, within the limits of a session.
ghost use Rattle.std.specs.Prelude.{◌≡◌, ℕ, ◌<◌, ◌≤◌, length};
ghost use Rattle.std.specs.Option.{option_map};
ghost use Rattle.tokens.specs.Limits.{within_limit};

use crate::Token;

// A command text of at most 4,096 bytes.
#[derive(Clone, Copy, Debug)]
pub struct Text<'a> {
    pub(crate) bytes: &'a [u8],
    ghost short: { length bytes.now ≤ 4096 },
}

impl<'a> Text<'a> {
    // The text, if it keeps the limit.
    pub fn new(bytes: &'a [u8]) -> Option<Text<'a>>
        ensures { option_map (λ t. t.bytes.now) result ≡ within_limit bytes.now }
    {
        if bytes.len() > 4096 {
            return None;
        }
        Some(Text { bytes })
    }
}

// The tokens of a command text, at most 4,096.
#[derive(Clone, Copy, Debug)]
pub struct Tokens<'a> {
    pub text: &'a [u8],
    pub rows: &'a [Token],
    pub ghost few: { length rows.now ≤ 4096 },
}

// A place inside a text, at which a token may begin.
#[derive(Clone, Copy, Debug)]
pub(crate) struct Place<'a> {
    pub(crate) text: Text<'a>,
    pub(crate) from: usize,
    ghost inside: { from < length text.bytes.now },
}
