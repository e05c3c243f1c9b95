// The sweep: targets one after the other, each from where the one before leaves off.
ghost use Rattle.std.specs.Prelude.{◌≡◌, ◌≤◌, length};
ghost use Rattle.codes.specs.Lists.{replaced};
ghost use Rattle.tree.specs.LevelMarks.{LevelMarks};
ghost use Rattle.tree.specs.Times.{outcome, times_in};
ghost use Rattle.tree.specs.Sweeps.{sweep_answer, sweep_positions};

use super::nodes::Refusal;
use super::shape::missing_at;
use super::targets::Progress;
use super::tree::Tree;
use codes::Mark;

impl Tree<'_> {
    // Writes the position of each target to the front of `answers`, up to the first target that is refused, and gives the nodes opened in all.
    // The missing child that a target comes to stands just before the deepest remembered node, or at the end. The marks are for speed alone;
    // there may be none.
    pub fn sweep(
        &self,
        answers: &mut [u32],
        marks: &mut [Mark],
        targets: &[u32],
    ) -> Result<usize, Refusal>
        requires { LevelMarks self.now.levels.ends self.now.bytes.now marks.old × (length targets.now ≤ length answers.old) }
        ensures result_value { outcome result ≡ sweep_answer self.now.levels.pins (times_in self.now.levels self.now.bytes.now) targets.now }
        ensures answers_after { answers.new
            ≡ replaced answers.old 0 (sweep_positions self.now.levels.pins (times_in self.now.levels self.now.bytes.now) targets.now) }
        ensures level_marks { LevelMarks self.now.levels.ends self.now.bytes.now marks.new }
    {
        let mut progress = Progress::START;
        for (i, &target) in targets.iter().enumerate() {
            progress.resume(target);
            self.go_down(marks, &mut progress, target)?;
            answers[i] = missing_at(self.levels.pins, progress.v) as u32;
        }
        Ok(progress.opened)
    }
}
