//! The head of a layer.

ghost use Rattle.std.specs.Prelude.{◌≡◌, ◌≤◌, true, false};
ghost use Rattle.mt_types.specs.declared.limits.TheConstants.{MAX_LEVEL};
ghost use Rattle.mt_interior.specs.Head.{new_head, with_root, with_lock, with_deleted, IsHead};

use mt_types::numbers::NodeNo;
use mt_word::Version;
use std::marker::Model;

/// The head of a layer: it names the root of the layer's tree, and the root's level.
///
/// A link of the layer above names the head and not the root, so that a new root needs no change there.
#[derive(Debug, Drop)]
pub struct Head {
    version: Version,
    root: NodeNo,
    level: u8,
}

impl Model for Head {
    ghost use Rattle.mt_interior.specs.Head.{HeadView, IsHead, head_view};

    ghost Value = { HeadView };

    ghost view = { λ h. head_view h.version h.root h.level };

    ghost invariant = { λ h. IsHead (head_view h.version h.root h.level) };
}

impl Head {
    /// An unlocked head with this root, which has this level. It allocates nothing.
    pub fn new(root: NodeNo, level: u8) -> Head
        requires { level ≤ MAX_LEVEL }
        ensures value { result ≡ new_head root level false }
        ensures sound { IsHead result }
    {
        Head {
            version: Version::new_inner(),
            root,
            level,
        }
    }

    /// A head as `new` makes it, but locked. It allocates nothing.
    pub fn new_locked(root: NodeNo, level: u8) -> Head
        requires { level ≤ MAX_LEVEL }
        ensures value { result ≡ new_head root level true }
        ensures sound { IsHead result }
    {
        let mut version = Version::new_inner();
        version.lock();
        Head {
            version,
            root,
            level,
        }
    }

    /// The root of the layer's tree. Constant cost.
    pub fn root(&self) -> NodeNo
        ensures value { result ≡ self.now.root }
        ensures sound { IsHead self.now }
    {
        self.root
    }

    /// The level of the root: 0 for a border. Constant cost.
    pub fn level(&self) -> u8
        ensures value { result ≡ self.now.level }
        ensures sound { IsHead self.now }
    {
        self.level
    }

    /// The version word. Constant cost.
    pub fn version(&self) -> Version
        ensures value { result ≡ self.now.version }
        ensures sound { IsHead self.now }
    {
        self.version
    }

    /// Names another root, which has this level. Constant cost.
    pub fn set_root(&mut self, root: NodeNo, level: u8)
        requires { level ≤ MAX_LEVEL }
        ensures value { self.new ≡ with_root self.old root level }
        ensures sound { IsHead self.new }
    {
        (self.root, self.level) = (root, level);
    }

    /// Unlocks the head. Constant cost.
    pub fn unlock(&mut self)
        requires { self.old.version.locked ≡ true }
        ensures value { self.new ≡ with_lock self.old false }
        ensures sound { IsHead self.new }
    {
        self.version.unlock();
    }

    /// Marks the head as deleted. Constant cost.
    pub fn mark_deleted(&mut self)
        ensures value { self.new ≡ with_deleted self.old }
        ensures sound { IsHead self.new }
    {
        self.version.mark_deleted();
    }
}
