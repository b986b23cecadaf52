// The start of a reading of solver output, from a task file and a horizon.
#![tactic(auto)]

ghost use Rattle.std.specs.Prelude.{◌≡◌};
ghost use Rattle.rules.specs.Calls.{start_reading};
ghost use Rattle.output.specs.Line.{lent, leaves};

use formula::calls::counts;
use rules::{Reading, Refusal};

// The first reading state, with the words needed 0 in both rows; or a refusal, 1 to 8 and 10, which leaves them as found.
pub fn start(
    file: &[u8],
    horizon: usize,
    given: &mut [u64],
    truth: &mut [u64],
) -> Result<Reading, Refusal>
    ensures { leaves result given.new truth.new ≡ start_reading file.now horizon (lent given.old truth.old) }
{
    let counts = counts(file, horizon)?;
    output::start(counts.variables, given, truth)
}
