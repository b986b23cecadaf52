// Judges task files, one a line: a name up to a colon, then the file's bytes in hex, where `00*17` stands for a byte 17 times. A line of
// answers for each: the name; what refusals 1 and 2 say; what 1 to 7 say; the lengths of the bodies 0 to 5; and of an accepted file n, S, A
// and the goal pairs, the start values with their formula numbers, the goal, and of each of the first actions its number, its preconditions
// and its effects.
#![tactic(auto)]

ghost use Rattle.std.specs.Prelude.{◌≡◌, ◌+◌, ◌<◌, ◌≤◌, length, Ok};
ghost use Rattle.rules.specs.Task.{n, A as actionCount};
ghost use Rattle.rules.specs.File.{file_verdict};
ghost use Rattle.task.specs.Asked.{task_in};

use showing::print_verdict;
use showing::streams::Screen;
use std::io::Result;
use task::index::INDEX_LENGTH;
use task::indexed::IndexedFile;
use task::numbering::{ActionNumber, ValuePlace};

// Standard input, by its number.
const STDIN_FILENO: i32 = 0;

// Room for a file that is too long.
const ROOM: usize = 20000;

// The most actions that are shown.
const SHOWN: usize = 3;

const BODIES: usize = 6;

// ---- answers

fn print_bodies(rt: &impl Print, file: &[u8]) -> Result<()> {
    print!(rt; "; bodies")?;
    for b in 0..BODIES {
        print!(rt; " {}", task::contents::body_asked(file, b).len())?;
    }
    Ok(())
}

// ---- an accepted file

fn print_place(rt: &impl Print, place: ValuePlace) -> Result<()> {
    print!(rt;
        " {}={}",
        task::numbering::variable_of(place),
        task::numbering::value_of(place)
    )
}

fn print_start_value(rt: &impl Print, task: &IndexedFile, x: usize) -> Result<()>
    requires { x < n (task_in task.now) }
{
    let place = task::numbering::value_place(x, task::asked::start_value(task.file, x));
    print_place(rt, place)?;
    let number = task::numbering::value_number(task, 0, place);
    print!(rt; " as {}", task::numbering::number_of(number))
}

fn print_start(rt: &impl Print, task: &IndexedFile) -> Result<()> {
    print!(rt; "; start")?;
    for x in 0..task::asked::variables(task.file) {
        print_start_value(rt, task, x)?;
    }
    Ok(())
}

fn print_goal(rt: &impl Print, file: &[u8]) -> Result<()>
    requires { file_verdict file.now ≡ Ok tt }
{
    print!(rt; "; goal")?;
    for i in 0..task::asked::goals(file) {
        print_place(rt, task::asked::goal_pair(file, i))?;
    }
    Ok(())
}

fn print_preconditions(rt: &impl Print, task: &IndexedFile, a: ActionNumber) -> Result<()>
    requires { a.0 < actionCount (task_in task.now) }
{
    print!(rt; " needs")?;
    for i in 0..task::asked::precondition_count(task, a) {
        print_place(rt, task::asked::precondition(task, a, i))?;
    }
    Ok(())
}

fn print_effects(rt: &impl Print, task: &IndexedFile, a: ActionNumber) -> Result<()>
    requires { a.0 < actionCount (task_in task.now) }
{
    print!(rt; " sets")?;
    for i in 0..task::asked::effect_count(task, a) {
        print_place(rt, task::asked::effect(task, a, i))?;
    }
    Ok(())
}

fn print_action(rt: &impl Print, task: &IndexedFile, a: usize) -> Result<()>
    requires { a < actionCount (task_in task.now) }
{
    let action = task::numbering::nth_action(a);
    let number = task::numbering::action_number(task, 0, action);
    print!(rt; "; {}", task::numbering::number_of(number))?;
    print_preconditions(rt, task, action)?;
    print_effects(rt, task, action)
}

fn print_task(rt: &impl Print, task: &IndexedFile) -> Result<()> {
    let variables = task::asked::variables(task.file);
    let values = task::index::values(task);
    let actions = task::index::actions(task);
    let goals = task::asked::goals(task.file);
    print!(rt; "; n {variables}, S {values}, A {actions}, goal pairs {goals}")?;
    print_start(rt, task)?;
    print_goal(rt, task.file)?;
    for a in 0..actions.min(SHOWN) {
        print_action(rt, task, a)?;
    }
    let preconditions = task::index::preconditions_before(task, actions);
    let effects = task::index::effects_before(task, actions);
    print!(rt; "; all preconditions {preconditions}, effects {effects}")
}

fn print_answers(rt: &impl Print, file: &[u8]) -> Result<()> {
    print!(rt; " contents ")?;
    print_verdict(rt, task::contents::contents_verdict(file))?;
    print!(rt; ", file ")?;
    let verdict = task::file::file_verdict(file);
    print_verdict(rt, verdict)?;
    print_bodies(rt, file)?;
    let Ok(()) = verdict else {
        return Ok(());
    };
    let mut index = [0u16; INDEX_LENGTH];
    task::filling::fill_index(file, &mut index);
    print_task(
        rt,
        &IndexedFile {
            file,
            index: &index,
        },
    )
}

// ---- the lines

// A text in two: up to a byte, and from there on, which is nothing where the byte does not stand in it.
fn split_before(text: &[u8], byte: u8) -> (&[u8], &[u8])
    ensures { length result.0.now + length result.1.now ≡ length text.now }
{
    text.split_at(text.iter().position(|b| *b == byte).unwrap_or(text.len()))
}

// The value of a digit, 16 where it is none, which counts like the others in the byte that it is part of.
fn digit(b: u8) -> usize
    ensures { result ≤ 16 }
{
    match b {
        b'0'..=b'9' => usize::from(b - b'0'),
        b'a'..=b'f' => usize::from(b - b'a') + 10,
        _ => 16,
    }
}

// The decimal number that begins a text.
fn decimal(text: &[u8]) -> usize
    ensures { result ≤ 1000000 }
{
    let mut n = 0;
    for b in text {
        let d = digit(*b);
        if 9 < d || 99999 < n {
            return n;
        }
        n = n * 10 + d;
    }
    n
}

// Puts a byte, so many times, at a place, as far as there is room; the place behind them.
fn put(file: &mut [u8], at: usize, byte: u8, times: usize) -> usize
    requires { at ≤ length file.old }
    ensures { result ≤ length file.old }
{
    let end = at + times.min(file.len() - at);
    file[at..end].fill(byte);
    end
}

fn byte_of(high: usize, low: usize) -> u8
    requires { (high ≤ 16) × (low ≤ 16) }
{
    ((high * 16 + low) % 256) as u8
}

// How often the byte stands that a text begins with.
fn times(text: &[u8]) -> usize
    ensures { result ≤ 1000000 }
{
    match text {
        [_, _, b'*', behind @ ..] => decimal(behind),
        _ => 1,
    }
}

// The bytes that a line states in hex, parted by spaces; how many there are.
fn decode(line: &[u8], file: &mut [u8]) -> usize
    ensures { result ≤ length file.old }
{
    let mut bytes = 0;
    let (_, mut rest) = split_before(line, b' ');
    // a `while`: what is read says where the next space stands
    while let [_, high, low, ..] = rest {
        let text = &rest[1..];
        bytes = put(file, bytes, byte_of(digit(*high), digit(*low)), times(text));
        (_, rest) = split_before(text, b' ');
    }
    bytes
}

fn answer(rt: &impl Print, name: &[u8], line: &[u8], file: &mut [u8]) -> Result<()> {
    rt.write_all(name)?;
    print!(rt; ":")?;
    let bytes = decode(line, file);
    print_answers(rt, &file[..bytes])?;
    println!(rt; "")
}

fn run(rt: &impl Print, text: &[u8], file: &mut [u8]) -> Result<()> {
    let mut rest = text;
    // a `while`: what is read says where the next line begins
    while !rest.is_empty() {
        let (name, from_colon) = split_before(rest, b':');
        let (line, from_end) = split_before(from_colon, b'\n');
        answer(rt, name, line, file)?;
        rest = from_end.get(1..).unwrap_or(&[]);
    }
    Ok(())
}

fn main() {
    // the kit's `io` fills the room in one call; by std's `Read` it would be a loop of reads
    let mut input = io::large_buffer();
    let n = io::read_full(STDIN_FILENO, &mut input);
    let mut file = [0; ROOM];
    // what cannot be written is left out
    let _ = run(&Screen, &input[..n], &mut file);
}
