// The reader of a declaration's sorts.
use tables::short::Short;
use theory::Sort;

// The sorts so far; the place of a `(_ BitVec` that is still open; and how many sorts are arguments, once their list was closed.
#[derive(Drop)]
pub struct Signature {
    pub(crate) sorts: Short<Sort, 4096>,
    pub(crate) bits: Option<usize>,
    pub(crate) arity: Option<usize>,
}
