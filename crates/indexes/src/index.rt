// What a signature index is. An index of your own shows this trait, and nothing else.
ghost use Rattle.std.specs.Prelude.{◌≡◌, ℕ, ◌≤◌, true, List, [], length, is_ok, if◌then◌else◌, Some, None};
ghost use Rattle.indexes.specs.Meaning.{Lead, held, apart, leading, refused, enter_fault, fault_number};

// How many signatures an index holds at most.
pub const LIMIT: usize = 1024;

// Why an index refuses a signature.
#[derive(Clone, Copy, PartialEq, Eq, Debug)]
pub enum IndexFault {
    // more than four inputs
    Inputs = 5,
    // 1,024 others are held, and this one is not
    Full = 3,
}

impl IndexFault {
    // The number of the refusal. The fault of a keeper has one like it: two enums, each with its own numbers as discriminants.
    pub fn number(self) -> u8
        ensures { result ≡ fault_number self }
    {
        self as u8
    }
}

// A map from signatures to pictures, of at most 1,024 signatures.
pub trait Index {
    // the signatures held, each with the picture to which it leads
    ghost leads: { Self → List Lead };

    // Empties the map.
    fn reset(&mut self)
        ensures { leads self.new ≡ [] };

    // Makes a signature lead to a picture.
    fn enter(&mut self, op: u16, row: &[u16], picture: u16) -> Result<(), IndexFault>
        ensures answer { refused result ≡ enter_fault (leads self.old) op row.now }
        ensures after { (q : ℕ) (v : List ℕ) → held (leads self.new) q v ≡ (if is_ok result then leading (held (leads self.old)) op row.now (Some picture) q v else held (leads self.old) q v) };

    // The picture to which a signature leads. The map stays.
    fn query(&self, op: u16, row: &[u16]) -> Option<u16>
        ensures { result ≡ held (leads self.now) op row.now };

    // Removes a signature, if it is held.
    fn delete(&mut self, op: u16, row: &[u16])
        ensures { (q : ℕ) (v : List ℕ) → held (leads self.new) q v ≡ leading (held (leads self.old)) op row.now None q v };

    ghost once: { (s : Self) → apart (leads s) ≡ true };

    ghost few: { (s : Self) → length (leads s) ≤ 1024 };
}
