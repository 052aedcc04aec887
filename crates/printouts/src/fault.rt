ghost use Rattle.std.specs.Prelude.{◌≡◌, Some};
ghost use Rattle.printouts.specs.declared.fault.LineFault.TheVariants.{Number, Sheet};
ghost use Rattle.printouts.specs.Faults.{number_fault_number, number_fault_detail, line_fault_number, line_fault_detail, fault_text};

use engines::SheetFault;
use std::fmt;

// Why there is no number at a place of a line, counted from 1.
#[derive(Clone, Copy, PartialEq, Eq, Debug)]
pub enum NumberFault {
    // no digit stands there
    Shape(usize),
    // the number that begins there is above 65,535
    Wide(usize),
}

// Why a line has no answer.
#[derive(Clone, Copy, PartialEq, Eq, Debug)]
pub enum LineFault {
    // it has not the form of a line, from this place on
    Form(usize),
    // the fault of one of its numbers
    Number(NumberFault),
    // the fault of its call
    Sheet(SheetFault),
}

// By hand, as the next: contracts read what the conversion gives.
impl From<NumberFault> for LineFault {
    ghost from_gives = { λ e r. r ≡ Number e };

    fn from(e: NumberFault) -> LineFault {
        LineFault::Number(e)
    }
}

impl From<SheetFault> for LineFault {
    ghost from_gives = { λ e r. r ≡ Sheet e };

    fn from(e: SheetFault) -> LineFault {
        LineFault::Sheet(e)
    }
}

impl NumberFault {
    // The number of the refusal. It is matched, since a variant that holds a value has no discriminant to cast.
    pub fn number(self) -> u8
        ensures { result ≡ number_fault_number self }
    {
        match self {
            NumberFault::Shape(_) => 7,
            NumberFault::Wide(_) => 8,
        }
    }

    // The detail of the refusal: the place, which the variant holds.
    pub fn detail(self) -> usize
        ensures { result ≡ number_fault_detail self }
    {
        match self {
            NumberFault::Shape(place) | NumberFault::Wide(place) => place,
        }
    }
}

impl LineFault {
    // The number of the refusal. It is matched, since the variants hold the fault that tells it.
    pub fn number(self) -> u8
        ensures { result ≡ line_fault_number self }
    {
        match self {
            LineFault::Form(_) => 7,
            LineFault::Number(fault) => fault.number(),
            LineFault::Sheet(fault) => fault.number(),
        }
    }

    // The detail of the refusal. It is matched, since the variants hold the place, or the fault that tells it.
    pub fn detail(self) -> usize
        ensures { result ≡ line_fault_detail self }
    {
        match self {
            LineFault::Form(place) => place,
            LineFault::Number(fault) => fault.detail(),
            LineFault::Sheet(fault) => usize::from(fault.detail()),
        }
    }
}

impl fmt::Display for LineFault {
    ghost output = { λ f. Some (fault_text f) };

    fn fmt<W: fmt::Write>(&self, f: &mut fmt::Formatter<W>) -> fmt::Result {
        let number = self.number();
        let detail = self.detail();
        write!(f, "no {number} {detail}")
    }
}
