// The calls, for any bytes at any horizon. A refusal leaves the lent room as found.
ghost use Rattle.std.specs.Prelude.{◌≡◌, ◌≤◌, length};
ghost use Rattle.rules.specs.Calls.{header_after, clause_line_after, lines_after};
ghost use Rattle.text.specs.Said.{header_answer, clause_line_answer, lines_answer};
ghost use Rattle.task.specs.Asked.{file_asked};

use crate::header::{HEADER_ROOM, put_header};
use crate::runs::{Run, put_run};
use formula::families::count_clauses;
use parts::single::{copy, put_one};
use rules::Refusal;
use task::filling::fill_index;
use task::index::INDEX_LENGTH;
use task::indexed::{Asked, IndexedFile};
use task::problem::problem_verdict;

// The same as `header`, of what is judged and indexed already.
pub fn header_indexed(asked: &Asked, out: &mut [u8]) -> Result<Run, Refusal>
    ensures { (result ≡ header_answer (file_asked asked.now) asked.now.horizon (length out.old))
        × (out.new ≡ header_after (file_asked asked.now) asked.now.horizon out.old) }
{
    let mut line = [0u8; HEADER_ROOM];
    let bytes = put_header(asked, &mut line);
    if out.len() < bytes {
        return Err(Refusal::Room);
    }
    copy(&line, bytes, out, 0);
    Ok(Run { lines: 1, bytes })
}

// The header: refusals 1 to 8 and 10, or its one line and its bytes.
pub fn header(file: &[u8], horizon: usize, out: &mut [u8]) -> Result<Run, Refusal>
    ensures { (result ≡ header_answer file.now horizon (length out.old))
        × (out.new ≡ header_after file.now horizon out.old) }
{
    problem_verdict(file, horizon)?;
    let mut index = [0u16; INDEX_LENGTH];
    fill_index(file, &mut index);
    let task = IndexedFile {
        file,
        index: &index,
    };
    let asked = Asked { task, horizon };
    header_indexed(&asked, out)
}

// The same as `clause_line`, of what is judged and indexed already.
pub fn clause_line_indexed(asked: &Asked, c: usize, out: &mut [u8]) -> Result<Run, Refusal>
    ensures { (result ≡ clause_line_answer (file_asked asked.now) asked.now.horizon c (length out.old))
        × (out.new ≡ clause_line_after (file_asked asked.now) asked.now.horizon c out.old) }
{
    if count_clauses(asked) <= c {
        return Err(Refusal::ClauseNumber);
    }
    let part = put_one(asked, c, out, 0);
    if part.lines == 0 {
        return Err(Refusal::Room);
    }
    Ok(Run {
        lines: 1,
        bytes: part.end,
    })
}

// The line of clause c: refusals 1 to 10, or its one line and its bytes.
pub fn clause_line(file: &[u8], horizon: usize, c: usize, out: &mut [u8]) -> Result<Run, Refusal>
    ensures { (result ≡ clause_line_answer file.now horizon c (length out.old))
        × (out.new ≡ clause_line_after file.now horizon c out.old) }
{
    problem_verdict(file, horizon)?;
    let mut index = [0u16; INDEX_LENGTH];
    fill_index(file, &mut index);
    let task = IndexedFile {
        file,
        index: &index,
    };
    let asked = Asked { task, horizon };
    clause_line_indexed(&asked, c, out)
}

// The same as `lines`, of what is judged and indexed already.
pub fn lines_indexed(asked: &Asked, c: usize, out: &mut [u8]) -> Result<Run, Refusal>
    ensures { (result ≡ lines_answer (file_asked asked.now) asked.now.horizon c (length out.old))
        × (out.new ≡ lines_after (file_asked asked.now) asked.now.horizon c out.old) }
{
    let all = count_clauses(asked);
    if all <= c {
        return Err(Refusal::ClauseNumber);
    }
    let run = put_run(asked, all, c, out);
    if run.lines == 0 {
        return Err(Refusal::Room);
    }
    Ok(run)
}

// As many whole lines as fit, from clause c on: refusals 1 to 10, or how many lines and bytes.
pub fn lines(file: &[u8], horizon: usize, c: usize, out: &mut [u8]) -> Result<Run, Refusal>
    ensures { (result ≡ lines_answer file.now horizon c (length out.old))
        × (out.new ≡ lines_after file.now horizon c out.old) }
{
    problem_verdict(file, horizon)?;
    let mut index = [0u16; INDEX_LENGTH];
    fill_index(file, &mut index);
    let task = IndexedFile {
        file,
        index: &index,
    };
    let asked = Asked { task, horizon };
    lines_indexed(&asked, c, out)
}
