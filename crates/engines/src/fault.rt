ghost use Rattle.std.specs.Prelude.{◌≡◌};
ghost use Rattle.theory.specs.Calls.{number, detail};
ghost use Rattle.engines.specs.Faults.{refusal_of, fault_of};

use keepers::KeeperFault;

// A contradiction: the lowest `differ` entry whose two pictures are forced to be the same, the refused entry counted in, and the number of steps of
// the chain that was written to show it.
#[derive(Clone, Copy, PartialEq, Eq, Debug)]
pub struct Clash {
    pub broken: u16,
    pub steps: u16,
}

// Why a sheet refuses a call.
#[derive(Clone, Copy, PartialEq, Eq, Debug)]
pub enum SheetFault {
    // the step table has fewer than 1,024 cells
    FewCells,
    // a picture number is 0 or above the count
    NoPicture,
    // there is no place for another picture, or for another entry
    Full,
    // no reading satisfies the entry and all entries taken
    Contradiction(Clash),
    // more than four inputs
    Inputs,
    // the two pictures are not in one class
    Apart,
}

// By hand: contracts read what the conversion gives.
impl From<KeeperFault> for SheetFault {
    ghost from_gives = { λ e f. f ≡ fault_of e };

    fn from(fault: KeeperFault) -> SheetFault {
        match fault {
            KeeperFault::NoPicture => SheetFault::NoPicture,
            KeeperFault::Full => SheetFault::Full,
        }
    }
}

impl SheetFault {
    // The number of the refusal. It is matched, since a variant that holds a value has no discriminant to cast.
    pub fn number(self) -> u8
        ensures { result ≡ number (refusal_of self) }
    {
        match self {
            SheetFault::FewCells => 1,
            SheetFault::NoPicture => 2,
            SheetFault::Full => 3,
            SheetFault::Contradiction(_) => 4,
            SheetFault::Inputs => 5,
            SheetFault::Apart => 6,
        }
    }

    // Its detail: the broken entry of a contradiction, which the variant holds, else 0.
    pub fn detail(self) -> u16
        ensures { result ≡ detail (refusal_of self) }
    {
        match self {
            SheetFault::Contradiction(clash) => clash.broken,
            _ => 0,
        }
    }
}
