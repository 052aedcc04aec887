ghost use Rattle.std.specs.Prelude.{◌≡◌, ℕ, ◌<◌, List, [], length, slice_set};
ghost use Rattle.congruence.specs.declared.picture.Picture.{Picture};
ghost use Rattle.congruence.specs.declared.beside.Note.{Note};
ghost use Rattle.congruence.specs.Drawn.{held_at, noting, resting};

use indexes::Row;

// Pictures in order, each with what is noted of it while classes are joined. Operations and inputs are only read, so they may be lent, with the notes beside
// them.
pub trait Tracked {
    // the pictures, each with what is noted of it
    ghost seen: { Self → List Picture };

    // what stays whatever is noted: where pictures are only lent, these, the notes behind the last of them, and the borrow of the notes; where they are owned,
    // the room for them
    ghost frame: { Self → List Picture × List Note × ℕ };

    // How many pictures there are.
    fn count(&self) -> usize
        ensures { result ≡ length (seen self.now) };

    // The operation of the picture at place i.
    fn op(&self, i: usize) -> u16
        requires { i < length (seen self.now) }
        ensures { result ≡ (held_at (seen self.now) i).op };

    // Its inputs.
    fn inputs(&self, i: usize) -> Row
        requires { i < length (seen self.now) }
        ensures { result ≡ (held_at (seen self.now) i).inputs };

    // The row of its signature.
    fn row(&self, i: usize) -> &Row
        requires { i < length (seen self.now) }
        ensures { result.now ≡ (held_at (seen self.now) i).row };

    // Whether it waits.
    fn waits(&self, i: usize) -> bool
        requires { i < length (seen self.now) }
        ensures { result ≡ (held_at (seen self.now) i).waits };

    // Notes another row of it, under which it waits.
    fn note(&mut self, i: usize, row: Row)
        requires { i < length (seen self.old) }
        ensures after { seen self.new ≡ slice_set (seen self.old) i (noting (held_at (seen self.old) i) row) }
        ensures frame { frame self.new ≡ frame self.old };

    // Notes that it waits no more.
    fn rest(&mut self, i: usize)
        requires { i < length (seen self.old) }
        ensures after { seen self.new ≡ slice_set (seen self.old) i (resting (held_at (seen self.old) i)) }
        ensures frame { frame self.new ≡ frame self.old };
}
