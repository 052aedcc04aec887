// What a class keeper is. A keeper of your own shows this trait, and nothing else.
ghost use Rattle.std.specs.Prelude.{◌≡◌, ℕ, ◌<◌, ◌≤◌, List, []};
ghost use Rattle.keepers.specs.Meaning.{Settled, Grown, Found, Joined, fault_number, outcome_number};

// Why a keeper refuses a call.
#[derive(Clone, Copy, PartialEq, Eq, Debug)]
pub enum KeeperFault {
    // the picture is 0 or above the count
    NoPicture = 2,
    // the count has reached the capacity
    Full = 3,
}

impl KeeperFault {
    // The number of the refusal. The fault of an index has one like it: two enums, each with its own numbers as discriminants.
    pub fn number(self) -> u8
        ensures { result ≡ fault_number self }
    {
        self as u8
    }
}

// What a join did.
#[derive(Clone, Copy, PartialEq, Eq, Debug)]
pub enum Outcome {
    // the two shared a class
    Already,
    // their two classes are one now
    Merged,
}

impl Outcome {
    // The number that a join answers: how many classes fewer there are.
    pub fn number(self) -> u8
        ensures { result ≡ outcome_number self }
    {
        u8::from(self == Outcome::Merged)
    }
}

// That the meaning stays is a clause of each call that leaves it: it says what the call does, which no field can say.
pub trait Keeper {
    // the capacity, one for each kind of keeper
    ghost limit: { ℕ };

    // the representatives of the pictures 1 to n, in order; n is the length
    ghost reps: { Self → List ℕ };

    // The capacity.
    fn capacity() -> u16
        ensures { result ≡ limit };

    // Forgets every picture.
    fn reset(&mut self)
        ensures { reps self.new ≡ [] };

    // One picture more, which represents itself. Answers its number.
    fn grow(&mut self) -> Result<u16, KeeperFault>
        ensures { Grown limit (reps self.old) (reps self.new) result };

    // The representative of a picture. The meaning stays.
    fn find(&mut self, p: u16) -> Result<u16, KeeperFault>
        ensures answer { Found p (reps self.old) result }
        ensures same { reps self.new ≡ reps self.old };

    // Makes the classes of two pictures one.
    fn join(&mut self, p: u16, q: u16) -> Result<Outcome, KeeperFault>
        ensures { Joined p q (reps self.old) (reps self.new) result };

    ghost range: { (0 < limit) × (limit ≤ 1024) };

    ghost settled: { (k : Self) → Settled (reps k) };
}
