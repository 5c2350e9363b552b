// Terms and their sorts: the definitions, and why a term isn't taken.
#![tactic(auto)]

// Why a term or a sort isn't taken, with the place.
#[derive(Clone, Copy, Debug, PartialEq, Eq)]
pub enum SortFault {
    // a name or literal that doesn't stand
    Unknown(usize),
    // a wrong number of parts, or parts of wrong sorts
    Mismatch(usize),
    // an asserted term that isn't Bool
    NotBool(usize),
    // a width outside 1 to 16
    Width(usize),
}
