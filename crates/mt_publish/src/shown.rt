//! What readers see: the state of a view, with the mark of the deltas that were applied to it since it was first
//! published.

ghost use Rattle.std.specs.Prelude.{◌≡◌, ◌<◌, ◌⊎◌, length, IfOk, IfErr};
ghost use Rattle.mt_publish.specs.Marks.{StartsWith};
ghost use Rattle.mt_publish.specs.Shown.{took};
ghost use Rattle.mt_view.specs.State.{page_of_state};

use crate::mark::Mark;
use left_right::Absorb;
use mt_types::key::Key;
use mt_types::refusal::Refusal;
use mt_types::row::Delta;
use mt_types::view::Page;
use mt_view::state::ViewState;
use std::alloc::AllocError;

/// The state of a view, with the mark of the deltas that were applied to it.
#[derive(Drop)]
pub struct Shown {
    pub(crate) state: ViewState,
    pub(crate) mark: Mark,
}

/// An operation, which is done on both copies of what is shown.
#[derive(Drop)]
pub enum Step {
    /// Applies this delta to the state.
    Takes(Delta),
    /// Sets this mark: it is that of the deltas so far.
    Marks(Mark),
}

impl Absorb<Step> for Shown {
    type State = Shown;

    ghost state = { λ shown. shown };

    ghost applied = { took };

    fn absorb_first(&mut self, operation: &Step, _other: &Shown) -> Result<(), AllocError> {
        match operation {
            Step::Takes(delta) => self.state.apply(delta).map_err(|_| AllocError),
            Step::Marks(mark) => {
                self.mark = mark.again();
                Ok(())
            }
        }
    }
}

impl Shown {
    // Returns a page, unless `heard` is longer than the list of deltas that were applied.
    pub(crate) fn page(&self, heard: &Mark, start: &Key, limit: u16) -> Result<Page, Refusal>
        requires { heard.now.source ≡ self.now.mark.source }
        ensures page { IfOk result (λ page. page ≡ page_of_state self.now.state start.now limit) }
        ensures told { IfOk result (λ _. StartsWith self.now.mark.list heard.now.list) }
        ensures fault { IfErr result (λ refusal. (refusal ≡ Refusal.NoMemory)
            ⊎ ((refusal ≡ Refusal.Behind self.now.state.at)
            × (length self.now.mark.list < length heard.now.list))) }
    {
        if !self.mark.covers(heard) {
            return Err(Refusal::Behind(self.state.at()));
        }
        Ok(self.state.read(start, limit)?)
    }
}
