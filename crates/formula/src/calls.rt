// The calls: N and C, and clause number c as literals, of any bytes at any horizon (refusals 1 to 10).
ghost use Rattle.std.specs.Prelude.{◌≡◌, ◌≤◌, length};
ghost use Rattle.rules.specs.Calls.{lent_after, clause_signed, clause_verdict};
ghost use Rattle.formula.specs.Said.{counts_answer, literals_answer};
ghost use Rattle.task.specs.Asked.{file_asked};

use crate::clauses::{literal_count, put_clause};
use crate::families::count_clauses;
use crate::placing::place_of;
use rules::Refusal;
use task::filling::fill_index;
use task::index::INDEX_LENGTH;
use task::indexed::{Asked, IndexedFile};
use task::problem::{count_variables, problem_verdict};

// N and C.
#[derive(Clone, Copy)]
pub struct FormulaCounts {
    pub variables: usize,
    pub clauses: usize,
}

// N and C of a file at a horizon.
pub fn counts(file: &[u8], horizon: usize) -> Result<FormulaCounts, Refusal>
    ensures { result ≡ counts_answer file.now horizon }
{
    problem_verdict(file, horizon)?;
    let mut index = [0u16; INDEX_LENGTH];
    fill_index(file, &mut index);
    let task = IndexedFile {
        file,
        index: &index,
    };
    let asked = Asked { task, horizon };
    Ok(FormulaCounts {
        variables: count_variables(&asked),
        clauses: count_clauses(&asked),
    })
}

// The same as `literals`, of what is judged and indexed already: how many literals were written.
pub fn literals_indexed(asked: &Asked, c: usize, out: &mut [i32]) -> Result<usize, Refusal>
    ensures { (result ≡ literals_answer (file_asked asked.now) asked.now.horizon c (length out.old))
        × (out.new ≡ lent_after (clause_verdict (file_asked asked.now) asked.now.horizon c (length out.old)) (clause_signed (file_asked asked.now) asked.now.horizon c) out.old) }
{
    if count_clauses(asked) <= c {
        return Err(Refusal::ClauseNumber);
    }
    let place = place_of(asked, c);
    let count = literal_count(&asked.task, asked.horizon, place);
    if out.len() < count {
        return Err(Refusal::Room);
    }
    put_clause(asked, place, out);
    Ok(count)
}

// Clause number c of a file at a horizon, from 0, as literals over the front of lent memory; how many they are.
pub fn literals(file: &[u8], horizon: usize, c: usize, out: &mut [i32]) -> Result<usize, Refusal>
    ensures { (result ≡ literals_answer file.now horizon c (length out.old))
        × (out.new ≡ lent_after (clause_verdict file.now horizon c (length out.old)) (clause_signed file.now horizon c) out.old) }
{
    problem_verdict(file, horizon)?;
    let mut index = [0u16; INDEX_LENGTH];
    fill_index(file, &mut index);
    let task = IndexedFile {
        file,
        index: &index,
    };
    let asked = Asked { task, horizon };
    literals_indexed(&asked, c, out)
}
