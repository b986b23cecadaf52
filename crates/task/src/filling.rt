// Filling the index of an accepted file, once a call, into lent memory.
ghost use Rattle.std.specs.Prelude.{◌≡◌, [], ◌∷◌, ◌++◌, ◌+◌, ◌*◌, ◌<◌, ◌≤◌, length, take, drop, Ok};
ghost use Rattle.std.proofs.lemmas.List.Edits.{sets};
ghost use Rattle.rules.specs.Counting.{for_each};
ghost use Rattle.rules.specs.Limits.{byte_values, max_file};
ghost use Rattle.rules.specs.File.{byte, action_bytes, rests, file_verdict};
ghost use Rattle.task.specs.Index.{variable_row, action_row, variable_rows, action_rows, variable_width, action_width, actions_at, index_length, index_of, VariablesFit, ActionsFit};

use crate::index::{ACTION_WIDTH, ACTIONS_AT, COUNT_AT, VARIABLE_WIDTH};
use pairs::pairs_below;
use reader::contents::{body_start, byte_at, row_body};
use reader::limits::{COUNT_BYTES, MAX_ACTIONS, MAX_VARIABLES, PAIR_BYTES};

// The byte at place i, 0 past the end.
fn byte_if_any(s: &[u8], i: usize) -> usize
    ensures { (result ≡ byte s.now i) × (result < byte_values) }
{
    if s.len() <= i {
        return 0;
    }
    byte_at(s, i)
}

fn put_variable(out: &mut [u16], at: usize, values: u16, pairs: u16)
    requires { at + variable_width ≤ length out.old }
    ensures { out.new ≡ sets out.old at (values ∷ pairs ∷ []) }
{
    out[at] = values;
    out[at + 1] = pairs;
}

fn put_action(out: &mut [u16], at: usize, place: u16, preconditions: u16, effects: u16)
    requires { at + action_width ≤ length out.old }
    ensures { out.new ≡ sets out.old at (place ∷ preconditions ∷ effects ∷ []) }
{
    out[at] = place;
    out[at + 1] = preconditions;
    out[at + 2] = effects;
}

// The rows of the variables.
fn fill_variables(sizes: &[u8], out: &mut [u16])
    requires { VariablesFit sizes.now × (length out.old ≡ variable_width * variable_rows) }
    ensures { out.new ≡ for_each variable_rows (variable_row sizes.now) }
{
    let mut values = 0;
    let mut pairs = 0;
    for x in 0..=MAX_VARIABLES {
        put_variable(out, VARIABLE_WIDTH * x, values as u16, pairs as u16);
        let size = byte_if_any(sizes, x);
        values += size;
        pairs += pairs_below(size);
    }
}

// The place behind the action that begins at a place.
fn next_place(actions: &[u8], at: usize) -> usize
    requires { at ≤ length actions.now }
    ensures { (result ≤ length actions.now)
        × (drop result actions.now ≡ drop (action_bytes (drop at actions.now)) (drop at actions.now)) }
{
    let bytes = COUNT_BYTES
        + PAIR_BYTES * (byte_if_any(actions, at) + byte_if_any(actions, at + 1));
    if actions.len() - at < bytes {
        return actions.len();
    }
    at + bytes
}

// A, the number of actions.
fn count_actions(actions: &[u8]) -> usize
    ensures { result ≡ length (rests actions.now) }
{
    let mut at = 0;
    let mut a = 0;
    // A `while`: each turn goes on by as many bytes as the action that was read has.
    while at < actions.len() {
        at = next_place(actions, at);
        a += 1;
    }
    a
}

// The rows of the actions; the action body begins at place `start` of the file.
fn fill_actions(start: usize, actions: &[u8], out: &mut [u16])
    requires { ActionsFit actions.now × (start + length actions.now ≤ max_file) × (length out.old ≡ action_width * action_rows) }
    ensures { out.new ≡ for_each action_rows (action_row start actions.now) }
{
    let mut at = 0;
    let mut preconditions = 0;
    let mut effects = 0;
    for a in 0..=MAX_ACTIONS {
        put_action(
            out,
            ACTION_WIDTH * a,
            (start + at) as u16,
            preconditions as u16,
            effects as u16,
        );
        preconditions += byte_if_any(actions, at);
        effects += byte_if_any(actions, at + 1);
        at = next_place(actions, at);
    }
}

fn put_variables(sizes: &[u8], index: &mut [u16])
    requires { VariablesFit sizes.now × (length index.old ≡ index_length) }
    ensures { index.new ≡ for_each variable_rows (variable_row sizes.now) ++ drop actions_at index.old }
{
    fill_variables(sizes, &mut index[..ACTIONS_AT]);
}

fn put_actions(start: usize, actions: &[u8], index: &mut [u16])
    requires { ActionsFit actions.now × (start + length actions.now ≤ max_file) × (length index.old ≡ index_length) }
    ensures { index.new
        ≡ take actions_at index.old
        ++ (for_each action_rows (action_row start actions.now) ++ drop (action_width * action_rows) (drop actions_at index.old)) }
{
    fill_actions(start, actions, &mut index[ACTIONS_AT..COUNT_AT]);
}

// The index of an accepted file.
pub fn fill_index(file: &[u8], index: &mut [u16])
    requires { (file_verdict file.now ≡ Ok tt) × (length index.old ≡ index_length) }
    ensures { index.new ≡ index_of file.now }
{
    let actions = row_body(file, 3);
    put_variables(row_body(file, 0), index);
    put_actions(body_start(file, 3), actions, index);
    index[COUNT_AT] = count_actions(actions) as u16;
}
