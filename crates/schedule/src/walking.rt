// The walk of a schedule through an accepted file's task: every move goes through the walk's `apply`.
ghost use Rattle.std.specs.Prelude.{◌≡◌, ◌<◌, ◌≤◌, length, Ok};
ghost use Rattle.rules.specs.Counting.{first};
ghost use Rattle.rules.specs.Answers.{judge};
ghost use Rattle.rules.specs.Task.{A as actionCount, action};
ghost use Rattle.rules.specs.File.{action_in, task_of, file_verdict};
ghost use Rattle.rules.specs.Walk.{entry, start_state, entry_applies, after_entry, schedule_rules};
ghost use Rattle.schedule.specs.Over.{over};
ghost use Rattle.task.specs.Asked.{task_in};

use rules::Refusal;
use task::asked::goals;
use task::contents::row_body;
use task::index::{action_place, actions};
use task::indexed::{Asked, IndexedFile};
use walk::State;

// The state before the first step.
pub(crate) fn start_state(file: &[u8]) -> State
    requires { file_verdict file.now ≡ Ok tt }
    ensures { result.values ≡ start_state (task_of file.now) }
{
    walk::start(row_body(file, 1))
}

// The file from an action's first byte on.
fn action_part<'a>(task: &IndexedFile<'a>, a: usize) -> &'a [u8]
    requires { a < actionCount (task_in task.now) }
    ensures { action (task_in task.now) a ≡ action_in result.now }
{
    let place = action_place(task, a);
    &task.file[place..]
}

// The entry of a step: 0 for an empty one, a + 1 for action a.
pub(crate) fn entry_at(entries: &[u32], step: usize) -> usize
    requires { step < length entries.now }
    ensures { result ≡ entry entries.now step }
{
    entries[step] as usize
}

// The first step whose entry is above A, or the horizon where there is none.
fn first_over(entries: &[u32], horizon: usize, highest: usize) -> usize
    requires { horizon ≤ length entries.now }
    ensures { result ≡ first horizon (over entries.now highest) }
{
    entries[..horizon]
        .iter()
        .position(|&e| highest < e as usize)
        .unwrap_or(horizon)
}

// The action of an entry applies, if there is one.
fn entry_applies(task: &IndexedFile, e: usize, values: &[u8]) -> bool
    requires { e ≤ actionCount (task_in task.now) }
    ensures { result ≡ entry_applies (task_in task.now) e values.now }
{
    if e == 0 {
        return true;
    }
    walk::applies(values, action_part(task, e - 1))
}

// The state after an entry.
pub(crate) fn after_entry(task: &IndexedFile, e: usize, state: State) -> State
    requires { e ≤ actionCount (task_in task.now) }
    ensures { result.values ≡ after_entry (task_in task.now) e state.values }
{
    if e == 0 {
        return state;
    }
    walk::after(state, action_part(task, e - 1))
}

// Refusals 20 to 22.
pub(crate) fn schedule_verdict(asked: &Asked, entries: &[u32]) -> Result<(), Refusal>
    requires { asked.now.horizon ≤ length entries.now }
    ensures { result ≡ judge (schedule_rules (task_in asked.now.task) asked.now.horizon entries.now) }
{
    let unknown = first_over(entries, asked.horizon, actions(&asked.task));
    if unknown < asked.horizon {
        return Err(Refusal::EntryOverA(unknown + 1));
    }
    let mut state = start_state(asked.task.file);
    for s in 0..asked.horizon {
        let e = entry_at(entries, s);
        if !entry_applies(&asked.task, e, &state.values) {
            return Err(Refusal::DoesNotApply(s + 1));
        }
        state = after_entry(&asked.task, e, state);
    }
    let i = walk::unmet(&state.values, row_body(asked.task.file, 2));
    if i < goals(asked.task.file) {
        return Err(Refusal::GoalUnmet(i));
    }
    Ok(())
}
