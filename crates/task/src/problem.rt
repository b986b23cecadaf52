// The problem that a file states at a horizon: refusals 1 to 8, and N.
ghost use Rattle.std.specs.Prelude.{◌≡◌, ◌≤◌};
ghost use Rattle.rules.specs.Numbering.{N};
ghost use Rattle.rules.specs.Calls.{problem_verdict};
ghost use Rattle.task.specs.Asked.{problem_asked};

use crate::index::{step_width, values};
use crate::indexed::Asked;
use reader::file::file_verdict;
use rules::Refusal;

pub const MAX_HORIZON: usize = 64;

// Refusals 1 to 8.
pub fn problem_verdict(file: &[u8], horizon: usize) -> Result<(), Refusal>
    ensures { result ≡ problem_verdict file.now horizon }
{
    file_verdict(file)?;
    if MAX_HORIZON < horizon {
        return Err(Refusal::Horizon);
    }
    Ok(())
}

// N.
pub fn count_variables(asked: &Asked) -> usize
    ensures { result ≡ N (problem_asked asked.now) }
{
    asked.horizon * step_width(&asked.task) + values(&asked.task)
}
