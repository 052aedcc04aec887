ghost use Rattle.std.specs.Prelude.{◌≡◌, ◌<◌, ◌≤◌, ◌∷◌, length, fold, MatchOption};
ghost use Rattle.rows.specs.Row.{cells_of};
ghost use Rattle.indexes.specs.Hash.{stirred, bucket_of_signature};

use super::Row;

// An operation and a row of at most four representatives.
#[derive(Clone, Copy)]
pub struct Signature {
    pub op: u16,
    pub row: Row,
}

// The hash once one number more has gone in.
fn stir(h: u32, x: u16) -> u32
    ensures { result ≡ stirred h x }
{
    let m = (h ^ x as u32).wrapping_mul(0x9E37_79B1);
    m ^ (m >> 15)
}

impl Signature {
    // The signature of this operation and these numbers, unless they are more than four.
    pub fn new(op: u16, row: &[u16]) -> Option<Signature>
        ensures { MatchOption result (4 < length row.now) (λ s. (s.op ≡ op) × (cells_of s.row ≡ row.now) × (length row.now ≤ 4)) }
    {
        let row = Row::new(row)?;
        Some(Signature { op, row })
    }

    // The hash of its numbers, one after another.
    fn hash(&self) -> u32
        ensures { result ≡ fold stirred 0 (self.now.op ∷ cells_of self.now.row) }
    {
        let row = self.row.as_slice();
        row.iter().fold(stir(0, self.op), |h, x| stir(h, *x))
    }

    // Its bucket, from 1 to 1,024.
    #[tactic(auto, unfolding(crate::specs::Hash::bucket_of_signature))]
    pub fn bucket(&self) -> usize
        ensures { result ≡ bucket_of_signature self.now.op (cells_of self.now.row) }
    {
        ((self.hash() >> 22) % 1024) as usize + 1
    }
}
