ghost use Rattle.std.specs.Prelude.{length};
ghost use Rattle.engines.specs.Content.{content};
ghost use Rattle.engines.specs.Locked.{locked_content, WholeLocked};
ghost use Rattle.engines.specs.Whole.{Whole};
ghost use Rattle.runs.specs.Calls.{call_of};
ghost use Rattle.runs.specs.States.{state_content, WholeState, GoesOn};

use crate::answer::{Answer, Reply};
use crate::call::Call;
use crate::state::State;
use engines::{Locked, Open, Step};
use indexes::Index;
use keepers::Keeper;

// Makes one call on the sheet of a run. Answers nothing where the sheet, open or locked as it is, has no such call.
pub(crate) fn make_call<K: Keeper, I: Index>(
    state: State<K, I>,
    table: &mut [Step],
    call: &Call,
) -> (State<K, I>, Option<Reply>)
    requires { WholeState K.Keeper I.Index state }
    ensures whole { WholeState K.Keeper I.Index result.0 }
    ensures goes { GoesOn K.Keeper.limit (state_content state) (call_of (length table.old) call.now) result.1 (state_content result.0) }
{
    match state {
        State::Opened(sheet) => call_open(sheet, table, call),
        State::Closed(sheet) => call_locked(sheet, table, call),
    }
}

// Makes one call on an open sheet. Each arm has arguments and an answer of its own, so a match is plainer than a table of closures.
fn call_open<K: Keeper, I: Index>(
    mut sheet: Open<K, I>,
    table: &mut [Step],
    call: &Call,
) -> (State<K, I>, Option<Reply>)
    requires { Whole K.Keeper I.Index sheet }
    ensures whole { WholeState K.Keeper I.Index result.0 }
    ensures goes { GoesOn K.Keeper.limit (content sheet) (call_of (length table.old) call.now) result.1 (state_content result.0) }
{
    match call {
        Call::Add { op, inputs } => {
            let answer = sheet.add(*op, inputs.as_slice()).map(Answer::Added);
            (State::Opened(sheet), Some(answer))
        }
        Call::Same { a, b, cells } => {
            let cells = (*cells).min(table.len());
            let answer = sheet.same(&mut table[0..cells], *a, *b).map(Answer::Joined);
            (State::Opened(sheet), Some(answer))
        }
        Call::Differ { a, b, cells } => {
            let cells = (*cells).min(table.len());
            let answer = sheet
                .differ(&mut table[0..cells], *a, *b)
                .map(Answer::Noted);
            (State::Opened(sheet), Some(answer))
        }
        Call::Must { a, b } => {
            let answer = sheet.must(*a, *b).map(Answer::Told);
            (State::Opened(sheet), Some(answer))
        }
        Call::Why { a, b, cells } => {
            let cells = (*cells).min(table.len());
            let answer = sheet
                .why(&mut table[0..cells], *a, *b)
                .map(Answer::Explained);
            (State::Opened(sheet), Some(answer))
        }
        Call::Lock => (State::Closed(sheet.lock()), Some(Ok(Answer::Turned))),
        Call::Reopen | Call::Value { .. } | Call::Apply { .. } => (State::Opened(sheet), None),
    }
}

// Makes one call on a locked sheet, by a match for the same reason.
fn call_locked<K: Keeper, I: Index>(
    mut sheet: Locked<K, I>,
    table: &mut [Step],
    call: &Call,
) -> (State<K, I>, Option<Reply>)
    requires { WholeLocked K.Keeper I.Index sheet }
    ensures whole { WholeState K.Keeper I.Index result.0 }
    ensures goes { GoesOn K.Keeper.limit (locked_content sheet) (call_of (length table.old) call.now) result.1 (state_content result.0) }
{
    match call {
        Call::Must { a, b } => {
            let answer = sheet.must(*a, *b).map(Answer::Told);
            (State::Closed(sheet), Some(answer))
        }
        Call::Why { a, b, cells } => {
            let cells = (*cells).min(table.len());
            let answer = sheet
                .why(&mut table[0..cells], *a, *b)
                .map(Answer::Explained);
            (State::Closed(sheet), Some(answer))
        }
        Call::Value { p } => {
            let answer = sheet.value(*p).map(Answer::Valued);
            (State::Closed(sheet), Some(answer))
        }
        Call::Apply { op, numbers } => {
            let answer = sheet.apply(*op, numbers.as_slice()).map(Answer::Valued);
            (State::Closed(sheet), Some(answer))
        }
        Call::Reopen => (State::Opened(sheet.reopen()), Some(Ok(Answer::Turned))),
        Call::Add { .. } | Call::Same { .. } | Call::Differ { .. } | Call::Lock => (
            State::Closed(sheet),
            None,
        ),
    }
}
