//! The views of a server, as it lists them.

ghost use Rattle.std.specs.Prelude.{◌≡◌, ◌≤◌, ◌↔◌, ◌⊎◌, ◌++◌, ◌∷◌, [], Err, length, IfOk, IfErr, OnOk, OnErr};
ghost use Rattle.mt_types.specs.declared.limits.TheConstants.{MAX_VIEWS};
ghost use Rattle.mt_wire.specs.Limited.{SpecIsLimited, ViewsAreLimited};

use mt_types::copying::TryCopy;
use mt_types::items::Items;
use mt_types::limits::MAX_VIEWS;
use mt_types::refusal::{NoMemory, Refusal};
use mt_wire::limits::spec_is_limited;
use mt_wire::server::ListedView;
use std::alloc::Global;
use std::marker::Model;

/// Views in their order: at most `MAX_VIEWS`, whose specifications keep the limits of an index.
#[derive(Drop)]
pub struct Listing {
    views: Vec<ListedView>,
}

impl Model for Listing {
    ghost use Rattle.std.specs.Prelude.{List};
    ghost use Rattle.mt_wire.specs.declared.server.ListedView.{ListedView};
    ghost use Rattle.mt_wire.specs.Limited.{ViewsAreLimited};

    ghost Value = { List ListedView };

    ghost view = { λ l. l.views.items };

    ghost invariant = { λ l. ViewsAreLimited l.views.items };
}

impl Listing {
    /// Returns a list of no views. Allocates nothing.
    pub fn new(alloc: Global) -> Listing
        ensures { result ≡ [] }
    {
        Listing {
            views: Vec::new(alloc),
        }
    }

    /// Adds a view at the end. On an error nothing changes.
    ///
    /// # Errors
    ///
    /// `BadLimit` exactly if there are `MAX_VIEWS` already, or its specification breaks a limit of an index; `NoMemory` if an
    /// allocation is refused.
    pub fn push(&mut self, view: ListedView) -> Result<(), Refusal>
        ensures ok { OnOk result (self.new ≡ self.old ++ view ∷ []) }
        ensures err { OnErr result (self.new ≡ self.old) }
        ensures limit { (result ≡ Err Refusal.BadLimit) ↔ ((MAX_VIEWS ≤ length self.old) ⊎ ¬ SpecIsLimited view.spec) }
        ensures why { IfErr result (λ refusal. (refusal ≡ Refusal.BadLimit) ⊎ (refusal ≡ Refusal.NoMemory)) }
    {
        if self.views.len() >= MAX_VIEWS || !spec_is_limited(&view.spec) {
            return Err(Refusal::BadLimit);
        }
        self.views.push(view)?;
        Ok(())
    }

    /// Returns a copy of the views. Shares the bytes of their specifications. O(n) in the views.
    ///
    /// # Errors
    ///
    /// `NoMemory` if an allocation is refused.
    pub fn views(&self, alloc: Global) -> Result<Items<ListedView>, NoMemory>
        ensures value { IfOk result (λ views. views ≡ self.now) }
        ensures limited { IfOk result ViewsAreLimited }
    {
        let mut views = Vec::with_capacity(alloc, self.views.len())?;
        for view in &self.views {
            views.push(view.copy(alloc)?)?;
        }
        Ok(Items::from_vec(views))
    }
}
