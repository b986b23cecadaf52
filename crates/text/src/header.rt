// The header line.
ghost use Rattle.std.specs.Prelude.{◌≡◌, [], ◌∷◌, ◌++◌, ◌+◌, ◌≤◌, length};
ghost use Rattle.rules.specs.Limits.{max_n, max_c};
ghost use Rattle.rules.specs.Text.{decimal, header_line};
ghost use Rattle.digits.specs.Over.{Wrote};
ghost use Rattle.text.specs.Heading.{header_start, header_text, start_length, number_room, header_room};
ghost use Rattle.task.specs.Asked.{problem_asked};

use digits::{put, put_byte};
use formula::families::count_clauses;
use parts::single::copy;
use task::indexed::Asked;
use task::problem::count_variables;

// The bytes of "p cnf ".
const START_LENGTH: usize = 6;

// Room that surely suffices for a count: eight digits and the byte behind them.
const NUMBER_ROOM: usize = 9;

// Room that surely suffices for a header.
pub const HEADER_ROOM: usize = START_LENGTH + 2 * NUMBER_ROOM;

// "p cnf ".
fn put_start(out: &mut [u8]) -> usize
    requires { header_room ≤ length out.old }
    ensures written { Wrote out.old 0 header_start out.new result }
    ensures behind { result ≡ start_length }
{
    copy(b"p cnf ", START_LENGTH, out, 0)
}

// A number and the byte behind it.
fn put_number(out: &mut [u8], at: usize, m: usize, last: u8) -> usize
    requires { (m ≤ max_c) × (at + number_room ≤ length out.old) }
    ensures written { Wrote out.old at (decimal m ++ (last ∷ [])) out.new result }
    ensures within { result ≤ at + number_room }
{
    let end = put(out, at, m);
    put_byte(out, end, last)
}

// The header of these two counts.
fn put_counts(out: &mut [u8], variables: usize, clauses: usize) -> usize
    requires { (variables ≤ max_n) × (clauses ≤ max_c) × (header_room ≤ length out.old) }
    ensures written { Wrote out.old 0 (header_text variables clauses) out.new result }
    ensures within { result ≤ header_room }
{
    let start = put_start(out);
    let middle = put_number(out, start, variables, b' ');
    put_number(out, middle, clauses, b'\n')
}

// The header of a file at a horizon.
pub fn put_header(asked: &Asked, out: &mut [u8]) -> usize
    requires { header_room ≤ length out.old }
    ensures written { Wrote out.old 0 (header_line (problem_asked asked.now)) out.new result }
    ensures within { result ≤ header_room }
{
    let variables = count_variables(asked);
    let clauses = count_clauses(asked);
    put_counts(out, variables, clauses)
}
