// Sweep, for a strip that is open.
ghost use Rattle.std.specs.Prelude.{◌≡◌, length};
ghost use Rattle.strip.specs.Refusals.{outcome};
ghost use Rattle.strip.specs.Calls.{sweep_in, sweep_over};

use super::lists::first_lower;
use super::open::Open;
use super::refusals::Refusal;
use super::strip::Strip;
use codes::Mark;

impl Open<'_> {
    // A sweep. One of few targets has no marks, since making them would mostly take longer than they save.
    pub(crate) fn sweep(&self, answers: &mut [u32], targets: &[u32]) -> Result<usize, Refusal>
        ensures result_value { outcome result ≡ sweep_in self.now.tree.bytes.now targets.now (length answers.old) self.now.tree.levels }
        ensures answers_after { answers.new ≡ sweep_over self.now.tree.bytes.now targets.now answers.old self.now.tree.levels }
    {
        let count = targets.len();
        if answers.len() != count {
            return Err(Refusal::Answers);
        }
        let lower = first_lower(targets);
        if lower < count {
            return Err(Refusal::TargetsFall(lower));
        }
        if count < Strip::MARKED_TARGETS {
            return Ok(self.tree.sweep(answers, &mut [], targets)?);
        }
        let mut marks = [Mark::NONE; Strip::MARKS];
        Ok(self.tree.sweep(answers, &mut marks, targets)?)
    }
}
