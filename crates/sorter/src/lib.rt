// Sort checking of terms, token by token.
#![tactic(auto)]

use theory::Head;

// An application whose closing parenthesis is still to come: its head, the head's place, and how many operands were there before it.
#[derive(Clone, Copy, Debug, PartialEq, Eq)]
pub struct Frame {
    pub head: Head,
    pub place: usize,
    pub below: usize,
}
