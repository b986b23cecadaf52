// What later floors ask of an accepted file without judging it again. Each function here is for an accepted file only.
ghost use Rattle.std.specs.Prelude.{◌≡◌, ◌+◌, ◌*◌, ◌<◌, length, Ok};
ghost use Rattle.rules.specs.Limits.{byte_values, pair_bytes};
ghost use Rattle.rules.specs.Task.{n, d, A as actionCount, start_value, pair, action};
ghost use Rattle.rules.specs.File.{byte, task_of, file_verdict};
ghost use Rattle.task.specs.Index.{action_place};
ghost use Rattle.task.specs.Asked.{task_in, file_in};

use crate::index::action_place;
use crate::indexed::IndexedFile;
use crate::numbering::{ActionNumber, ValuePlace, place_of_action, value_place};
use reader::contents::{body_length, body_start, byte_at};
use reader::limits::{CONTENTS_BYTES, COUNT_BYTES, PAIR_BYTES};

// The byte i bytes behind a place.
fn byte_behind(file: &[u8], place: usize, i: usize) -> usize
    requires { place + i < length file.now }
    ensures { (result ≡ byte file.now (place + i)) × (result < byte_values) }
{
    byte_at(file, place + i)
}

// Pair i of a list that stands so many bytes behind a place.
fn pair_behind(file: &[u8], place: usize, bytes: usize, i: usize) -> ValuePlace
    requires { place + bytes + pair_bytes * i + 1 < length file.now }
    ensures { (result.0 ≡ byte file.now (place + bytes + pair_bytes * i)) × (result.1 ≡ byte file.now (place + bytes + pair_bytes * i + 1)) }
{
    let at = place + bytes + PAIR_BYTES * i;
    value_place(byte_at(file, at), byte_at(file, at + 1))
}

// n.
pub fn variables(file: &[u8]) -> usize
    requires { file_verdict file.now ≡ Ok tt }
    ensures { result ≡ n (task_of file.now) }
{
    body_length(file, 0)
}

// d(x).
pub fn size(file: &[u8], x: usize) -> usize
    requires { (file_verdict file.now ≡ Ok tt) × (x < n (task_of file.now)) }
    ensures { result ≡ d (task_of file.now) x }
{
    byte_behind(file, CONTENTS_BYTES, x)
}

// The start value of x.
pub fn start_value(file: &[u8], x: usize) -> usize
    requires { (file_verdict file.now ≡ Ok tt) × (x < n (task_of file.now)) }
    ensures { result ≡ start_value (task_of file.now) x }
{
    byte_behind(file, body_start(file, 1), x)
}

// How many goal pairs there are.
pub fn goals(file: &[u8]) -> usize
    requires { file_verdict file.now ≡ Ok tt }
    ensures { result ≡ length (task_of file.now).goal }
{
    body_length(file, 2) / PAIR_BYTES
}

// Goal pair i.
pub fn goal_pair(file: &[u8], i: usize) -> ValuePlace
    requires { (file_verdict file.now ≡ Ok tt) × (i < length (task_of file.now).goal) }
    ensures { (result.0 ≡ (pair (task_of file.now).goal i).variable) × (result.1 ≡ (pair (task_of file.now).goal i).value) }
{
    pair_behind(file, body_start(file, 2), 0, i)
}

// The place of an action's first byte.
fn first_byte(task: &IndexedFile, a: ActionNumber) -> usize
    requires { a.0 < actionCount (task_in task.now) }
    ensures { result ≡ action_place (file_in task.now) a.0 }
{
    action_place(task, place_of_action(a))
}

// How many preconditions an action has.
pub fn precondition_count(task: &IndexedFile, a: ActionNumber) -> usize
    requires { a.0 < actionCount (task_in task.now) }
    ensures { result ≡ length (action (task_in task.now) a.0).preconditions }
{
    byte_behind(task.file, first_byte(task, a), 0)
}

// How many effects an action has.
pub fn effect_count(task: &IndexedFile, a: ActionNumber) -> usize
    requires { a.0 < actionCount (task_in task.now) }
    ensures { result ≡ length (action (task_in task.now) a.0).effects }
{
    byte_behind(task.file, first_byte(task, a), 1)
}

// Precondition i of an action.
pub fn precondition(task: &IndexedFile, a: ActionNumber, i: usize) -> ValuePlace
    requires { (a.0 < actionCount (task_in task.now)) × (i < length (action (task_in task.now) a.0).preconditions) }
    ensures { (result.0 ≡ (pair (action (task_in task.now) a.0).preconditions i).variable)
        × (result.1 ≡ (pair (action (task_in task.now) a.0).preconditions i).value) }
{
    pair_behind(task.file, first_byte(task, a), COUNT_BYTES, i)
}

// Effect i of an action.
pub fn effect(task: &IndexedFile, a: ActionNumber, i: usize) -> ValuePlace
    requires { (a.0 < actionCount (task_in task.now)) × (i < length (action (task_in task.now) a.0).effects) }
    ensures { (result.0 ≡ (pair (action (task_in task.now) a.0).effects i).variable)
        × (result.1 ≡ (pair (action (task_in task.now) a.0).effects i).value) }
{
    let place = first_byte(task, a);
    pair_behind(
        task.file,
        place,
        COUNT_BYTES + PAIR_BYTES * byte_behind(task.file, place, 0),
        i,
    )
}
