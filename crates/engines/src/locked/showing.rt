ghost use Rattle.std.specs.Prelude.{◌≡◌, length};
ghost use Rattle.theory.specs.Calls.{Answers};
ghost use Rattle.theory.specs.Calls.{must as asking};
ghost use Rattle.theory.specs.Calls.{why as asking_why};
ghost use Rattle.theory.specs.Calls.{value as asking_value};
ghost use Rattle.theory.specs.Calls.{apply as applying};
ghost use Rattle.engines.specs.Content.{pictures_on, entries_on};
ghost use Rattle.engines.specs.Faults.{must_reply, why_reply, value_reply};
ghost use Rattle.engines.specs.Locked.{locked_content, WholeLocked};
ghost use Rattle.engines.specs.Tables.{WhyTable};

use crate::fault::SheetFault;
use crate::locked::Locked;
use indexes::Index;
use keepers::Keeper;
use reasons::Step;

impl<K: Keeper, I: Index> Locked<K, I> {
    // Whether two pictures are in one class, as on the open sheet.
    pub fn must(&mut self, a: u16, b: u16) -> Result<bool, SheetFault>
        requires { WholeLocked K.Keeper I.Index self.old }
        ensures whole { WholeLocked K.Keeper I.Index self.new }
        ensures answer { Answers K.Keeper.limit (locked_content self.old) (asking a b) (must_reply result) }
        ensures same { locked_content self.new ≡ locked_content self.old }
    {
        self.sheet.must(a, b)
    }

    // Writes a reason chain that joins two pictures of one class, and answers its number of steps, as on the open sheet.
    pub fn why(&mut self, table: &mut [Step], a: u16, b: u16) -> Result<u16, SheetFault>
        requires { WholeLocked K.Keeper I.Index self.old }
        ensures whole { WholeLocked K.Keeper I.Index self.new }
        ensures answer { Answers K.Keeper.limit (locked_content self.old) (asking_why a b (length table.old)) (why_reply result) }
        ensures same { locked_content self.new ≡ locked_content self.old }
        ensures table { WhyTable (pictures_on self.old.sheet) (entries_on self.old.sheet) a b table.old table.new result }
    {
        self.sheet.why(table, a, b)
    }

    // The value of a picture: the lowest number in its class.
    pub fn value(&mut self, p: u16) -> Result<u16, SheetFault>
        requires { WholeLocked K.Keeper I.Index self.old }
        ensures whole { WholeLocked K.Keeper I.Index self.new }
        ensures answer { Answers K.Keeper.limit (locked_content self.old) (asking_value p) (value_reply result) }
        ensures same { locked_content self.new ≡ locked_content self.old }
    {
        self.sheet.value_of(p)
    }

    // The value of a picture with this operation whose inputs have these values in order, or 0 where there is none, as the rules fix it.
    pub fn apply(&mut self, op: u16, numbers: &[u16]) -> Result<u16, SheetFault>
        requires { WholeLocked K.Keeper I.Index self.old }
        ensures whole { WholeLocked K.Keeper I.Index self.new }
        ensures answer { Answers K.Keeper.limit (locked_content self.old) (applying op numbers.now) (value_reply result) }
        ensures same { locked_content self.new ≡ locked_content self.old }
    {
        self.sheet.value_for(op, numbers)
    }
}
