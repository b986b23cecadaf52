// The clause program: a horizon byte, then a task file, on standard input; the formula's text, or one line `refused N D`, on standard output.
// All that it does here is to move bytes: `text` and `printing` promise which.
#![tactic(auto)]

ghost use Rattle.std.specs.Prelude.{◌≡◌, suc, ◌≤◌, length};
ghost use Rattle.rules.specs.Families.{C};
ghost use Rattle.rules.specs.Calls.{problem_of, problem_verdict};
ghost use Rattle.lines.specs.Written.{line_room};
ghost use Rattle.clauses.specs.Printed.{lines_printed};
ghost use Rattle.task.specs.Asked.{problem_asked};

use formula::families::count_clauses;
use printing::refusal_line;
use reader::contents::byte_at;
use reader::limits::MAX_FILE;
use task::filling::fill_index;
use task::index::INDEX_LENGTH;
use task::indexed::{Asked, IndexedFile};
use task::problem::problem_verdict;
use text::calls::{header_indexed, lines_indexed};

// Standard input, by its number. By the kit's `io`, where a read that fails is the end.
const STDIN_FILENO: i32 = 0;

// Standard output, by its number. By the kit's `io`, as a write there gives no error: so `print_lines` promises how many lines it made whatever
// becomes of them.
const STDOUT_FILENO: i32 = 1;

// The horizon byte, the longest file, and one byte more, by which a file that is too long shows.
const INPUT_ROOM: usize = 1 + MAX_FILE + 1;

// Lines are made and printed by so many bytes.
const TEXT_ROOM: usize = 262144;

// A refusal is one line.
const REFUSAL_LINES: usize = 1;

// All lines, as many at a time as fit: how many were made and printed. In room for any line none is refused.
fn print_lines(asked: &Asked, out: &mut [u8]) -> usize
    requires { line_room ≤ length out.old }
    ensures { result ≡ C (problem_asked asked.now) }
{
    let all = count_clauses(asked);
    let mut c = 0;
    // A `while`: the clause jumps behind the lines that fitted.
    while c < all {
        let Ok(run) = lines_indexed(asked, c, out) else {
            return c;
        };
        io::write_all(STDOUT_FILENO, &out[..run.bytes]);
        c += run.lines;
    }
    c
}

// The header and the lines behind it: how many were made and printed.
fn print_formula(asked: &Asked, out: &mut [u8]) -> usize
    requires { line_room ≤ length out.old }
    ensures { result ≡ suc (C (problem_asked asked.now)) }
{
    let Ok(run) = header_indexed(asked, out) else {
        return 0;
    };
    io::write_all(STDOUT_FILENO, &out[..run.bytes]);
    run.lines + print_lines(asked, out)
}

// The text of a file at a horizon, or the line of a refusal: how many lines were made and printed.
fn print_answer(file: &[u8], horizon: usize, out: &mut [u8]) -> usize
    requires { line_room ≤ length out.old }
    ensures { result ≡ lines_printed (problem_verdict file.now horizon) (C (problem_of file.now horizon)) }
{
    let verdict = problem_verdict(file, horizon);
    if let Err(why) = verdict {
        let bytes = refusal_line(out, why);
        io::write_all(STDOUT_FILENO, &out[..bytes]);
        return REFUSAL_LINES;
    }
    let mut index = [0u16; INDEX_LENGTH];
    fill_index(file, &mut index);
    let task = IndexedFile {
        file,
        index: &index,
    };
    let asked = Asked { task, horizon };
    print_formula(&asked, out)
}

// The horizon is the first byte of the input, the file the others; a missing horizon is 0.
fn print_for(input: &[u8], out: &mut [u8])
    requires { line_room ≤ length out.old }
{
    if input.len() == 0 {
        print_answer(input, 0, out);
        return;
    }
    print_answer(&input[1..], byte_at(input, 0), out);
}

fn main() {
    let mut input = [0u8; INPUT_ROOM];
    let n = io::read_full(STDIN_FILENO, &mut input);
    let mut out = [0u8; TEXT_ROOM];
    print_for(&input[..n], &mut out);
}
