ghost use Rattle.std.specs.Prelude.{◌≡◌};
ghost use Rattle.theory.specs.Calls.{turned, after, Answers};
ghost use Rattle.theory.specs.Calls.{lock as locking};
ghost use Rattle.theory.specs.Calls.{reopen as reopening};
ghost use Rattle.engines.specs.Content.{content};
ghost use Rattle.engines.specs.Whole.{Whole};
ghost use Rattle.engines.specs.Locked.{locked_content, WholeLocked};

use crate::locked::Locked;
use crate::open::Open;
use indexes::Index;
use keepers::Keeper;

impl<K: Keeper, I: Index> Open<K, I> {
    // Uses the open sheet up, and gives it back locked.
    pub fn lock(self) -> Locked<K, I>
        requires { Whole K.Keeper I.Index self }
        ensures whole { WholeLocked K.Keeper I.Index result }
        ensures answer { Answers K.Keeper.limit (content self) locking turned }
        ensures after { locked_content result ≡ after (content self) locking turned }
        ensures sheet { result.sheet ≡ self }
    {
        Locked { sheet: self }
    }
}

impl<K: Keeper, I: Index> Locked<K, I> {
    // Uses the locked sheet up, and gives back the sheet that was locked.
    pub fn reopen(self) -> Open<K, I>
        requires { WholeLocked K.Keeper I.Index self }
        ensures whole { Whole K.Keeper I.Index result }
        ensures answer { Answers K.Keeper.limit (locked_content self) reopening turned }
        ensures after { content result ≡ after (locked_content self) reopening turned }
        ensures sheet { result ≡ self.sheet }
    {
        self.sheet
    }
}
