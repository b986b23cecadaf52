// The formula of a file at a horizon: how large it is, and a clause of it.
ghost use Rattle.std.specs.Prelude.{◌≡◌, length};
ghost use Rattle.rules.specs.Answers.{answer, answer_to};
ghost use Rattle.rules.specs.Numbering.{N};
ghost use Rattle.rules.specs.Families.{C, clause};
ghost use Rattle.rules.specs.Calls.{problem_of, problem_verdict, clause_verdict, literals_after};
ghost use Rattle.host.specs.Cells.{counted};

use crate::answers::{accept, refuse};

// N and C; refusals 1 to 8.
#[unsafe(no_mangle)]
pub extern "C" fn wawrolen_counts(
    file: &[u8],
    horizon: usize,
    variables: &mut usize,
    clauses: &mut usize,
    detail: &mut usize,
) -> usize
    ensures detail_after { answer result detail.new ≡ answer_to (problem_verdict file.now horizon) }
    ensures variables_after { variables.new ≡ counted (problem_verdict file.now horizon) (N (problem_of file.now horizon)) }
    ensures clauses_after { clauses.new ≡ counted (problem_verdict file.now horizon) (C (problem_of file.now horizon)) }
{
    match formula::calls::counts(file, horizon) {
        Ok(counts) => {
            *variables = counts.variables;
            *clauses = counts.clauses;
            accept(detail)
        }
        Err(why) => {
            *variables = 0;
            *clauses = 0;
            refuse(why, detail)
        }
    }
}

// The literals of clause number c, from 0, over the front of lent room, and how many they are; refusals 1 to 10.
#[unsafe(no_mangle)]
pub extern "C" fn wawrolen_literals(
    file: &[u8],
    horizon: usize,
    c: usize,
    room: &mut [i32],
    count: &mut usize,
    detail: &mut usize,
) -> usize
    ensures detail_after { answer result detail.new ≡ answer_to (clause_verdict file.now horizon c (length room.old)) }
    ensures count_after { count.new
        ≡ counted (clause_verdict file.now horizon c (length room.old)) (length (clause (problem_of file.now horizon) c)) }
    ensures room_after { room.new ≡ literals_after file.now horizon c room.old }
{
    match formula::calls::literals(file, horizon, c, room) {
        Ok(written) => {
            *count = written;
            accept(detail)
        }
        Err(why) => {
            *count = 0;
            refuse(why, detail)
        }
    }
}
