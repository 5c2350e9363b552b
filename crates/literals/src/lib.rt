// Binary literals, written into a page.
#![tactic(auto)]

ghost use Rattle.std.specs.Prelude.{◌≡◌, ◌+◌, ◌^◌, ◌<◌, ◌≤◌, [], ◌∷◌, length, Ok};
ghost use Rattle.page.specs.Pages.{Wrote};
ghost use Rattle.tokens.specs.declared.Kind.TheVariants.{Literal};
ghost use Rattle.tokens.specs.Lexing.{token, tokens};
ghost use Rattle.literals.specs.BitTexts.{bit_digits, bit_text};

use page::put;

// Fills the row with the lowest bits of the value as digits, the highest first. No method of the library writes them into a row.
#[tactic(auto, using(crate::proofs::Digitwise::digitwise))]
fn digits(row: &mut [u8], value: u16)
    requires { length row.old ≤ 16 }
    ensures { row.new ≡ bit_digits (length row.old) value }
{
    let width = row.len();
    for (i, digit) in row.iter_mut().enumerate() {
        *digit = b'0' + ((value >> (width - 1 - i)) % 2) as u8;
    }
}

// Writes the literal of so many bits at `at`, and says where it ends. Read again, it is the same literal. Page and place are two parameters as in `put`.
#[tactic(auto, using(crate::proofs::ReadBack::read_back))]
pub fn print_bits(page: &mut [u8], at: usize, width: u8, value: u16) -> usize
    requires room { at + 18 ≤ length page.old }
    requires some { 1 ≤ width }
    requires few { width ≤ 16 }
    requires small { value < 2 ^ width }
    ensures wrote { Wrote page.old at (bit_text width value) page.new result }
    ensures law { tokens (bit_text width value) ≡ Ok (token (Literal width value) 0 (2 + width) ∷ []) }
{
    let from = put(page, at, b"#b");
    let end = from + usize::from(width);
    digits(&mut page[from..end], value);
    end
}
