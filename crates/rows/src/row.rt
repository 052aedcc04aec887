ghost use Rattle.std.specs.Prelude.{◌≤◌};

// Why a row takes no number more: it has N of them.
#[derive(Clone, Copy, PartialEq, Eq, Debug)]
pub struct RowFull;

// At most N numbers, in order. It is no ArrayVec of the kit, which cannot be copied, as pictures and records are.
#[derive(Clone, Copy)]
pub struct Row<const N: usize> {
    cells: [u16; N],
    len: usize,
    ghost short: { len ≤ N },
}

pub mod calls;
