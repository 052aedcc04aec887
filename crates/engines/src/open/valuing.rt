ghost use Rattle.std.specs.Prelude.{◌≡◌, ℕ, ◌≤◌, List, length, Decides, All};
ghost use Rattle.theory.specs.Sheet.{On, Lowest};
ghost use Rattle.theory.specs.Calls.{Answers};
ghost use Rattle.theory.specs.Calls.{value as asking_value};
ghost use Rattle.theory.specs.Calls.{apply as applying};
ghost use Rattle.rows.specs.Row.{cells_of};
ghost use Rattle.engines.specs.Content.{content, pictures_on, entries_on};
ghost use Rattle.engines.specs.Faults.{value_reply};
ghost use Rattle.engines.specs.Whole.{Whole};
ghost use Rattle.engines.specs.Values.{Value, Bearer};

use crate::fault::SheetFault;
use crate::open::Open;
use crate::open::checks::missing;
use indexes::{Index, Row};
use keepers::Keeper;

impl<K: Keeper, I: Index> Open<K, I> {
    // The lowest number in the class of a picture on the sheet.
    fn lowest_of(&mut self, p: u16) -> u16
        requires whole { Whole K.Keeper I.Index self.old }
        requires on { On (pictures_on self.old) p }
        ensures whole { Whole K.Keeper I.Index self.new }
        ensures answer { Lowest (pictures_on self.old) (entries_on self.old) p result }
        ensures same { content self.new ≡ content self.old }
    {
        self.congruence.lowest(p)
    }

    // Whether a number is the value of a picture: a picture that is the lowest in its class.
    fn is_value(&mut self, x: u16) -> bool
        requires { Whole K.Keeper I.Index self.old }
        ensures whole { Whole K.Keeper I.Index self.new }
        ensures answer { Decides result (Value (pictures_on self.old) (entries_on self.old) x) }
        ensures same { content self.new ≡ content self.old }
    {
        if missing(self.picture_count(), x) {
            return false;
        }
        self.lowest_of(x) == x
    }

    // Whether each of these numbers is the value of a picture. The loop cannot be an `all`: a proof knows nothing of what a closure answers that changes
    // the sheet.
    fn are_values(&mut self, numbers: &[u16]) -> bool
        requires { Whole K.Keeper I.Index self.old }
        ensures whole { Whole K.Keeper I.Index self.new }
        ensures answer { Decides result (All (Value (pictures_on self.old) (entries_on self.old)) numbers.now) }
        ensures same { content self.new ≡ content self.old }
    {
        for x in numbers {
            if !self.is_value(*x) {
                return false;
            }
        }
        true
    }

    // A picture with this operation whose inputs are in the classes of these pictures, in order.
    fn bearer(&mut self, op: u16, row: &Row) -> Option<u16>
        requires whole { Whole K.Keeper I.Index self.old }
        requires on { All (On (pictures_on self.old)) (cells_of row.now) }
        ensures whole { Whole K.Keeper I.Index self.new }
        ensures answer { Bearer (pictures_on self.old) (entries_on self.old) op (cells_of row.now) result }
        ensures same { content self.new ≡ content self.old }
    {
        self.congruence.bearer(op, row)
    }

    // The value of a picture, for a sheet that is locked.
    pub(crate) fn value_of(&mut self, p: u16) -> Result<u16, SheetFault>
        requires { Whole K.Keeper I.Index self.old }
        ensures whole { Whole K.Keeper I.Index self.new }
        ensures answer { Answers K.Keeper.limit (content self.old) (asking_value p) (value_reply result) }
        ensures same { content self.new ≡ content self.old }
    {
        if missing(self.picture_count(), p) {
            return Err(SheetFault::NoPicture);
        }
        Ok(self.lowest_of(p))
    }

    // The value that an operation has for these values, for a sheet that is locked; 0 where there is none, as the rules fix it.
    pub(crate) fn value_for(&mut self, op: u16, numbers: &[u16]) -> Result<u16, SheetFault>
        requires { Whole K.Keeper I.Index self.old }
        ensures whole { Whole K.Keeper I.Index self.new }
        ensures answer { Answers K.Keeper.limit (content self.old) (applying op numbers.now) (value_reply result) }
        ensures same { content self.new ≡ content self.old }
    {
        let Some(row) = Row::new(numbers) else {
            return Err(SheetFault::Inputs);
        };
        if !self.are_values(numbers) {
            return Ok(0);
        }
        match self.bearer(op, &row) {
            Some(p) => Ok(self.lowest_of(p)),
            None => Ok(0),
        }
    }
}
