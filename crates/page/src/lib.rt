// Writing into a page: bytes, numbers, and the line that reports an error. The caller sees to the room.
#![tactic(auto)]

ghost use Rattle.std.specs.Prelude.{◌+◌, ◌≤◌, length, decimal};
ghost use Rattle.page.specs.Pages.{Wrote, complaint};

use itoa::Buffer;

// Writes the bytes at `at`, and says where they end.
// The page and the place stay two parameters: a struct that lends the page would want a clause on each ghost name of its fields.
#[tactic(auto, using(std::proofs::lemmas::Slice::overwrites))]
pub fn put(page: &mut [u8], at: usize, bytes: &[u8]) -> usize
    requires { at + length bytes.now ≤ length page.old }
    ensures { Wrote page.old at bytes.now page.new result }
{
    let end = at + bytes.len();
    page[at..end].copy_from_slice(bytes);
    end
}

// Writes the number at `at` in decimal, and says where it ends.
pub fn number(page: &mut [u8], at: usize, n: usize) -> usize
    requires { at + length (decimal n) ≤ length page.old }
    ensures { Wrote page.old at (decimal n) page.new result }
{
    let mut digits = Buffer::new();
    put(page, at, digits.format(n).as_bytes())
}

// Writes the line `(error "CODE PLACE")` at the front of the page, and says where it ends. The code is a number here, since the faults belong to the crates above.
// By hand: `write!` promises its text only where it succeeds, and no clause says when it does; this line can't fail.
// Its room is a clause: a row of 64 bytes cut from the page would have to be put back into it in each clause.
#[tactic(auto, using(crate::proofs::Writing::room))]
pub fn error(page: &mut [u8], code: u8, place: usize) -> usize
    requires { 64 ≤ length page.old }
    ensures wrote { Wrote page.old 0 (complaint code place) page.new result }
    ensures long { result ≤ 64 }
{
    let at = put(page, 0, b"(error \"");
    let at = number(page, at, usize::from(code));
    let at = put(page, at, b" ");
    let at = number(page, at, place);
    put(page, at, b"\")\n")
}
