// What all nodes store, in node order: entry v - 1 is node v's.
ghost use Rattle.std.specs.Prelude.{◌≡◌, is_some, length};
ghost use Rattle.codes.specs.Decode.{all};
ghost use Rattle.tree.specs.DecodedLevels.{decoded_levels, Decodes};
ghost use Rattle.tree.specs.Chosen.{all_chosen};

use super::building::level_values;
use super::shape::{count_of, height, power_of_two};
use super::tree::Tree;

impl Tree<'_> {
    // Decodes all levels into the entries of their nodes. Where some level is not decoded, all entries become 0.
    pub(crate) fn decode_levels(&self, values: &mut [u32]) -> Option<()>
        requires { self.now.levels.pins ≡ length values.old }
        ensures { Decodes self.now.levels self.now.bytes.now (is_some result) values.new }
    {
        let n = values.len();
        for depth in 0..height(n) {
            let first = power_of_two(depth) - 1;
            let last = first + count_of(n, depth);
            let code = self.levels.codes[depth];
            if !codes::decode(&mut values[first..last], self.part(depth), code) {
                values.fill(0);
                return None;
            }
        }
        Some(())
    }

    // Whether each level is what pack writes for the values that it is decoded to.
    pub fn are_chosen(&self, values: &[u32]) -> bool
        requires { decoded_levels self.now.levels self.now.bytes.now ≡ all values.now }
        ensures { result ≡ all_chosen self.now.levels self.now.bytes.now }
    {
        for d in 0..height(self.levels.pins) {
            let code = self.levels.codes[d];
            if !codes::is_chosen(level_values(values, d), self.part(d), code) {
                return false;
            }
        }
        true
    }
}
