ghost use Rattle.std.specs.Prelude.{◌≡◌};
ghost use Rattle.printouts.specs.Lines.{line_numbers};

use super::Line;

impl Line {
    // The letter, which names the call.
    pub fn letter(&self) -> char
        ensures { result ≡ self.now.letter }
    {
        self.letter
    }

    // The numbers after the letter, in order.
    pub fn numbers(&self) -> &[u16]
        ensures { result.now ≡ line_numbers self.now }
    {
        self.numbers.as_slice()
    }
}
