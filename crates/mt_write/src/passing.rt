//! What a run does at a border that it only passes on its way: it locks the border, reads of it what leads on, and unlocks
//! it.

ghost use Rattle.std.specs.Prelude.{◌≡◌, ◌≢◌, ◌<◌, ◌≤◌, ℕ, IsSomeAnd};
ghost use Rattle.mt_commit.specs.Log.{LogView, IsLog};
ghost use Rattle.mt_arena.specs.Node.{border_at};
ghost use Rattle.mt_tree.specs.Descent.{visit_border};
ghost use Rattle.mt_steps.specs.Way.{rest_of};
ghost use Rattle.mt_write.specs.declared.writing.Stage.{Stage};
ghost use Rattle.mt_write.specs.Follows.{MayLock};
ghost use Rattle.mt_write.specs.Runs.{IsTrimmed, MayRun, PassesAt, passed_fields, state};

use crate::running::WriteRun;
use crate::writing::Write;
use mt_border::Border;
use mt_steps::way::{led, rest_of};
use mt_tree::{Tree, Visit};

// How many fields of a border a write reads that only passes it: the right link alone, if its way leads to the right;
// otherwise also the order, each key, and the link to the layer below.
fn fields_passed(border: &Border, visit: Visit) -> u64
    ensures fields { result ≡ passed_fields visit border.now.live }
    ensures few { result ≤ 18 }
{
    let keys = border.len() as u64;
    match visit {
        Visit::Below(_) => keys + 3,
        Visit::Again | Visit::To(_) | Visit::Here => 1,
    }
}

impl Write {
    // At a border from which its way leads on, and which is not locked: locks it, reads it up to the right link, or up to
    // the link to the layer below, unlocks it, and follows that link.
    pub(crate) fn pass(&mut self, tree: &mut Tree, visit: Visit) -> WriteRun
        requires may { (C : ℕ) × (log : LogView) × MayRun C (state tree.old log self.old) }
        requires idle { self.old.stage ≡ Stage.Seeks }
        requires lock { MayLock tree.old self.old.way.node.0 }
        requires leads { IsSomeAnd (border_at tree.old.nodes self.old.way.node.0)
            (λ b. visit ≡ visit_border (rest_of self.old.key self.old.way) b) }
        requires on { visit ≢ Visit.Here }
        ensures runs { (C : ℕ) (log : LogView) → MayRun C (state tree.old log self.old) → IsTrimmed log → IsLog log
            → PassesAt C tree.old tree.new log self.old result self.new }
        ensures some { 0 < result.steps }
        ensures most { result.steps ≤ 24 }
    {
        let _before = tree.free_numbers();
        let _bytes = rest_of(&self.key, self.way.layer);
        let number = self.way.node;
        let fields = fields_passed(tree.border(number), visit);
        let went = led(self.way, visit);
        tree.lock_border(number);
        let _locked = tree.free_numbers();
        tree.unlock_border(number);
        let _unlocked = tree.free_numbers();
        let last = self.follow(went);
        WriteRun {
            steps: fields + 2,
            commits: 0,
            last,
        }
    }
}
