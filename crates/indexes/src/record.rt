ghost use Rattle.std.specs.Prelude.{◌≡◌};
ghost use Rattle.rows.specs.Row.{cells_of};
ghost use Rattle.indexes.specs.Meaning.{same_signature};
ghost use Rattle.indexes.specs.Records.{lead_of, redirected};

use super::signature::Signature;

// A signature, and the picture to which it leads.
#[derive(Clone, Copy)]
pub struct Record {
    signature: Signature,
    picture: u16,
}

impl Record {
    pub fn new(signature: Signature, picture: u16) -> Record
        ensures { lead_of result ≡ record { op = signature.op; row = cells_of signature.row; picture = picture } }
    {
        Record { signature, picture }
    }

    // Whether the record has this signature.
    pub fn bears(&self, op: u16, row: &[u16]) -> bool
        ensures { result ≡ same_signature (lead_of self.now).op (lead_of self.now).row op row.now }
    {
        self.signature.op == op && self.signature.row.as_slice() == row
    }

    // Makes its signature lead to another picture.
    pub fn lead_to(&mut self, picture: u16)
        ensures { lead_of self.new ≡ redirected picture (lead_of self.old) }
    {
        self.picture = picture;
    }

    // The picture to which its signature leads.
    pub fn picture(&self) -> u16
        ensures { result ≡ (lead_of self.now).picture }
    {
        self.picture
    }
}
