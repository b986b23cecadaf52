// Runs of whole lines.
ghost use Rattle.std.specs.Prelude.{◌≡◌, ◌≤◌, length};
ghost use Rattle.rules.specs.Counting.{joined};
ghost use Rattle.rules.specs.Families.{C};
ghost use Rattle.rules.specs.Calls.{lines_from};
ghost use Rattle.digits.specs.Over.{over};
ghost use Rattle.task.specs.Asked.{problem_asked, file_asked};

use parts::next::put_some;
use task::indexed::Asked;

// How many lines and bytes.
#[derive(Clone, Copy)]
pub struct Run {
    pub lines: usize,
    pub bytes: usize,
}

// As many whole lines as fit, from clause c on.
pub fn put_run(asked: &Asked, all: usize, c: usize, out: &mut [u8]) -> Run
    requires { (all ≡ C (problem_asked asked.now)) × (c ≤ all) }
    ensures written { out.new ≡ over out.old 0 (joined (lines_from (file_asked asked.now) asked.now.horizon c (length out.old))) }
    ensures lines { result.lines ≡ length (lines_from (file_asked asked.now) asked.now.horizon c (length out.old)) }
    ensures bytes { result.bytes ≡ length (joined (lines_from (file_asked asked.now) asked.now.horizon c (length out.old))) }
{
    let mut at = 0;
    let mut lines = 0;
    // A `while`: each turn goes on by as many lines as it wrote.
    while c + lines < all {
        let part = put_some(asked, c + lines, out, at);
        if part.lines == 0 {
            return Run { lines, bytes: at };
        }
        at = part.end;
        lines += part.lines;
    }
    Run { lines, bytes: at }
}
