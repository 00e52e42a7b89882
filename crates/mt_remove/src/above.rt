//! The border above an empty layer is locked, and the link to the layer is sought there.

ghost use Rattle.std.specs.Prelude.{◌≡◌, ◌<◌, ◌≤◌, ◌*◌, ◌-◌, length};
ghost use Rattle.mt_slice.specs.Place.{slice_number};
ghost use Rattle.mt_remove.specs.Tidy.{MayTidy};
ghost use Rattle.mt_remove.specs.Locked.{AtIsPlace};
ghost use Rattle.mt_remove.specs.Above.{bound_stage, searched, place_noted, link_stage};
ghost use Rattle.mt_remove.specs.Follows.{rest_above, TidyStep};

use crate::seen::{is_free_border, leads_below, link_at, order_at, right_at};
use crate::stage::{EmptyLayer, Layer, Stage};
use crate::tidy::Tidy;
use mt_border::RightLink;
use mt_slice::slice_of;
use mt_steps::progress::Progress;
use mt_steps::way::rest_of;
use mt_tree::Tree;
use mt_types::numbers::NodeNo;
use mt_word::Permutation;

impl EmptyLayer {
    // It gives up.
    fn kept(self) -> Stage
        ensures { result ≡ Stage.KeepsLayer self.above self.root }
    {
        Stage::KeepsLayer {
            above: self.above,
            root: self.root,
        }
    }
}

// What follows once the right link is read.
fn bounded(layer: EmptyLayer, right: Option<RightLink>, slice: u64) -> Stage
    ensures { result ≡ bound_stage slice layer right }
{
    match right {
        Some(right) if right.low <= slice => layer.kept(),
        _ => Stage::AboveBounded(layer),
    }
}

// What follows once the keys up to a place are read.
fn searched(layer: EmptyLayer, order: Permutation, place: usize, at: Option<usize>) -> Stage
    requires { AtIsPlace at order }
    ensures { result ≡ searched layer order place at }
{
    if place < order.len() {
        return Stage::AboveSearched {
            layer,
            order,
            place,
            at,
        };
    }
    match at {
        Some(place) => Stage::AboveFound {
            layer: Layer {
                above: layer.above,
                place,
                head: layer.head,
                root: layer.root,
            },
            slot: order.slot(place),
        },
        None => layer.kept(),
    }
}

// The place of the key of the link, if it was read: whether it is that of the slot at a place.
fn place_noted(is_it: bool, place: usize, at: Option<usize>) -> Option<usize>
    ensures { result ≡ place_noted is_it place at }
{
    if is_it { Some(place) } else { at }
}

// What follows once the value of the slot with the key of the link is read.
fn found(layer: Layer, link: Option<NodeNo>) -> Stage
    ensures { result ≡ link_stage layer link }
{
    match link {
        Some(head) if head.0 == layer.head.0 => Stage::LinkFound(layer),
        _ => Stage::KeepsLayer {
            above: layer.above,
            root: layer.root,
        },
    }
}

impl Tidy {
    // The slice of the link to the layer.
    fn slice_above(&self) -> u64
        requires below { 0 < self.now.way.layer }
        requires within { 8 * (self.now.way.layer - 1) ≤ length self.now.key }
        ensures { result ≡ slice_number (rest_above self.now) }
    {
        slice_of(rest_of(&self.key, self.way.layer - 1)).0
    }

    // The border above is locked, unless it is marked deleted or another call has locked it.
    pub(crate) fn lock_above(&mut self, tree: &mut Tree, epoch: u64, layer: EmptyLayer) -> Progress
        requires at { self.old.stage ≡ Stage.RootLocked layer }
        requires may { MayTidy epoch tree.old self.old }
        ensures { TidyStep epoch tree.old tree.new self.old result self.new }
    {
        if !is_free_border(tree, layer.above) {
            self.stage = Stage::KeepsBorder(layer.root);
            return Progress::Moved;
        }
        tree.lock_border(layer.above);
        self.stage = Stage::AboveLocked(layer);
        Progress::Moved
    }

    // Its right link: the slice of the link to the layer must be before it.
    pub(crate) fn bound_above(&mut self, tree: &mut Tree, epoch: u64, layer: EmptyLayer) -> Progress
        requires at { self.old.stage ≡ Stage.AboveLocked layer }
        requires may { MayTidy epoch tree.old self.old }
        ensures { TidyStep epoch tree.old tree.new self.old result self.new }
    {
        self.stage = bounded(layer, right_at(tree, layer.above), self.slice_above());
        Progress::Moved
    }

    // Its order.
    pub(crate) fn order_above(&mut self, tree: &mut Tree, epoch: u64, layer: EmptyLayer) -> Progress
        requires at { self.old.stage ≡ Stage.AboveBounded layer }
        requires may { MayTidy epoch tree.old self.old }
        ensures { TidyStep epoch tree.old tree.new self.old result self.new }
    {
        self.stage = searched(layer, order_at(tree, layer.above), 0, None);
        Progress::Moved
    }

    // Its next key.
    pub(crate) fn search_above(
        &mut self,
        tree: &mut Tree,
        epoch: u64,
        layer: EmptyLayer,
        order: Permutation,
        place: usize,
        at: Option<usize>,
    ) -> Progress
        requires at { self.old.stage ≡ Stage.AboveSearched layer order place at }
        requires may { MayTidy epoch tree.old self.old }
        ensures { TidyStep epoch tree.old tree.new self.old result self.new }
    {
        let slice = self.slice_above();
        let is_it = leads_below(tree, layer.above, order.slot(place), slice);
        self.stage = searched(layer, order, place + 1, place_noted(is_it, place, at));
        Progress::Moved
    }

    // The value of the slot with the key of the link: it must be the link to the layer.
    pub(crate) fn find_above(
        &mut self,
        tree: &mut Tree,
        epoch: u64,
        layer: Layer,
        slot: usize,
    ) -> Progress
        requires at { self.old.stage ≡ Stage.AboveFound layer slot }
        requires may { MayTidy epoch tree.old self.old }
        ensures { TidyStep epoch tree.old tree.new self.old result self.new }
    {
        self.stage = found(layer, link_at(tree, layer.above, slot));
        Progress::Moved
    }
}
