ghost use Rattle.std.specs.Prelude.{◌≡◌, ◌≤◌, length};
ghost use Rattle.congruence.specs.Drawn.{reasons};
ghost use Rattle.reasons.specs.Table.{Chained, Listed, Laid};

use crate::step::Step;
use chains::thread;
use congruence::Join;

// Writes the joins into the cells 1, 2, 3 and so on of the table, by their places: of cells behind a zip of iter_mut a proof knows nothing.
fn write_steps(table: &mut [Step], joins: &[Join])
    requires { length joins.now ≤ length table.old }
    ensures { Listed joins.now table.old table.new (length joins.now) }
{
    for (i, join) in joins.iter().enumerate() {
        table[i] = Step::from(*join);
    }
}

// Writes the joins into the cells 1, 2, 3 and so on of the table, and chains them.
pub fn write_chain(table: &mut [Step], joins: &[Join])
    requires { length joins.now ≤ length table.old × (length joins.now ≤ 1024) }
    ensures laid { Laid joins.now table.old table.new }
    ensures chained { Chained (reasons joins.now) table.old table.new }
{
    write_steps(table, joins);
    let _ = thread(table, joins.len() as u16);
}
