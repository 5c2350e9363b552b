// The memory of a session.
use grammar::items::Item;
use rules::Mode;
use theory::Logic;
use tokens::Token;

// What stands, and room to read a command in.
#[derive(Drop)]
pub struct Session {
    pub(crate) logic: Option<Logic>,
    pub(crate) depth: u8,
    pub(crate) mode: Mode,
    // a flag beside the mode, since an `exit` leaves the mode that it finds
    pub(crate) ended: bool,
    // arrays, since nothing below the script takes memory from a heap
    pub(crate) tokens: [Token; 4096],
    pub(crate) items: [Item; 16388],
}
