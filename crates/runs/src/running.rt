ghost use Rattle.std.specs.Prelude.{length, IfOk};
ghost use Rattle.runs.specs.Calls.{log_of};
ghost use Rattle.runs.specs.Laws.{Answered, Law};

use crate::answer::Reply;
use crate::call::Call;
use crate::making::make_call;
use crate::state::State;
use engines::{Open, Step};
use indexes::Index;
use keepers::Keeper;
use std::alloc::{AllocError, Global};

// Puts a sheet together from a keeper and an index, and makes these calls on it, up to the first that the sheet, open or locked as it then is, does not
// have. Gives back their answers. Memory is taken before the first call.
pub fn run<K: Keeper + Drop, I: Index + Drop>(
    heap: Global,
    keeper: K,
    index: I,
    calls: &[Call],
    table: &mut [Step],
) -> Result<Vec<Reply>, AllocError>
    ensures answered { IfOk result (λ answers. Answered K.Keeper.limit (length table.old) calls.now answers.items) }
    ensures law { IfOk result (λ answers. Law K.Keeper.limit (log_of (length table.old) calls.now answers.items)) }
{
    let mut answers = Vec::with_capacity(heap, calls.len())?;
    let mut state = State::Opened(Open::new(heap, keeper, index)?);
    for call in calls {
        let (next, answer) = make_call(state, table, call);
        state = next;
        match answer {
            Some(answer) => answers.push_reserved(answer),
            None => return Ok(answers),
        }
    }
    Ok(answers)
}
