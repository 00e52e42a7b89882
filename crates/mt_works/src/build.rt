//! The build itself: what it keeps from one visit of a border to the next, and what each of its steps does.

ghost use Rattle.std.specs.Prelude.{◌≡◌, ◌<◌, ◌≤◌, ◌⊎◌, ℕ, List, [], ◌∷◌, length, IfOk, IfErr, IsErrOf, OnOk, OnErr, IsTrue};
ghost use Rattle.mt_types.specs.declared.limits.TheConstants.{MAX_KEY_BYTES};
ghost use Rattle.std.specs.FinMap as map;
ghost use Rattle.mt_types.specs.Rows.{Rows};
ghost use Rattle.mt_types.specs.declared.row.Delta.{Delta as DeltaValue};
ghost use Rattle.mt_slice.specs.Place.{first_slice, place_of, under};
ghost use Rattle.mt_chart.specs.Tree.{Arena};
ghost use Rattle.mt_chart.specs.Chart.{Chart, IsTree};
ghost use Rattle.mt_word.specs.declared.permutation_word.TheConstants.{SLOTS};
ghost use Rattle.mt_scan.specs.Scan.{HoldsKeys};
ghost use Rattle.mt_scan.specs.Listed.{list_of};
ghost use Rattle.mt_view.specs.State.{IsAfresh, applied};
ghost use Rattle.mt_works.specs.History.{LeadsTo};
ghost use Rattle.mt_scan.specs.Onward.{cursor_of, all_cursors, GoesOnward, GoesFrom};
ghost use Rattle.mt_works.specs.Build.{BuildView, build_cursor, first_key, IsScanning, IsBehindAll, VisitsOn};

use crate::end::{end_of, first_key};
use bytes::Bytes;
use mt_border::{Entry, RightLink};
use mt_scan::{Scan, ScanMove};
use mt_slice::key_bytes;
use mt_types::items::Items;
use mt_types::key::Key;
use mt_types::refusal::{NoMemory, Refusal};
use mt_types::row::Delta;
use mt_types::view::ViewSpec;
use mt_view::state::ViewState;
use std::alloc::Global;
use std::marker::Model;

// More pairs than a border has. The pairs of each visit are taken out of the scan, so it is never full.
const SCAN_LIMIT: u16 = 16;

/// A view that is being built while others write: a scan of its keys, border by border, and the state of the view so
/// far, which takes in what each visit has read. After the scan it takes the deltas of the commits since its begin.
///
/// The scan goes as that of a range does (Masstree, EuroSys 2012, section 4.6), with no limit, to the end of the keys
/// of the view.
#[derive(Drop)]
pub struct Build {
    scan: Scan,
    // After each key of the view, if there is such a key.
    end: Option<Bytes>,
    state: ViewState,
}

impl Model for Build {
    ghost use Rattle.mt_works.specs.Build.{BuildView};
    ghost use Rattle.mt_works.specs.BuildCode.{build_code};

    ghost Value = { BuildView };

    ghost coded = { build_code };

    ghost use Rattle.mt_works.specs.BuildFields.{build_of, IsBuild};

    ghost view = { build_of };

    ghost invariant = { IsBuild };
}

impl Build {
    /// Begins a build at the number of a commit, the newest one, in layer 0 at the first key of the view. The view sums
    /// `columns` columns. O(n) in `columns`, with a few allocations.
    ///
    /// # Errors
    ///
    /// `KeyTooLong` if the first key of the view has more than `MAX_KEY_BYTES` bytes; `NoMemory` if an allocation is
    /// refused.
    pub fn new(alloc: Global, columns: u8, spec: ViewSpec, at: u64) -> Result<Build, Refusal>
        ensures prefix { IfOk result (λ build. build.prefix ≡ []) }
        ensures start { IfOk result (λ build. build.at ≡ place_of (first_key spec)) }
        ensures spec { IfOk result (λ build. build.state.spec ≡ spec) }
        ensures columns { IfOk result (λ build. build.state.columns ≡ columns) }
        ensures number { IfOk result (λ build. build.state.at ≡ at) }
        ensures too_long { IsErrOf result Refusal.KeyTooLong → MAX_KEY_BYTES < length (first_key spec) }
        ensures only { IfErr result (λ refusal. (refusal ≡ Refusal.KeyTooLong) ⊎ (refusal ≡ Refusal.NoMemory)) }
        ensures scans { IfOk result (λ build. (chart : Chart) (begun : ℕ) (arena : Arena) → IsTree arena chart
            → IsScanning chart begun (arena ∷ []) 0 build) }
    {
        let start = Key::new(first_key(alloc, &spec)?)?;
        let _bytes = key_bytes(&start);
        let end = end_of(alloc, &spec)?;
        Ok(Build {
            scan: Scan::new(alloc, &start, SCAN_LIMIT, Items::new(alloc))?,
            end,
            state: ViewState::open_at(alloc, columns, spec, at, &[])?,
        })
    }

    /// Returns the number of commits at which its view is so far: that of its begin, or of the last delta that was
    /// taken.
    pub fn at(&self) -> u64
        ensures { result ≡ self.now.state.at }
    {
        self.state.at()
    }

    /// Returns the slice that its scan seeks in its layer: it goes down to the border to which that slice belongs.
    pub fn slice(&self) -> u64
        ensures { result ≡ first_slice self.now.at }
    {
        self.scan.slice()
    }

    /// Takes its scan back to the head of layer 0, with its cursor as it is.
    pub fn restart(&mut self)
        ensures { self.new ≡ record self.old { prefix = []; at = under self.old.prefix self.old.at } }
    {
        self.scan.restart();
    }

    /// Visits what was read of the border in whose interval the slice is, and takes it in: the rows of the keys from
    /// its cursor on, up to the first link that it goes into. The scan is then at its end, after all keys of the view,
    /// or it continues at the head of the link's layer, at the border to the right, or at the head of layer 0, with its
    /// cursor further on.
    ///
    /// O(log n) in the rows of the view for each row that it reads, with a few allocations.
    ///
    /// # Errors
    ///
    /// `NoMemory` if an allocation is refused. The build then has to be refused too: nothing more is said of what it
    /// has read.
    pub fn visit(
        &mut self,
        alloc: Global,
        entries: &[Entry],
        right: Option<RightLink>,
    ) -> Result<ScanMove, NoMemory>
        requires keys { HoldsKeys self.old.prefix entries.now }
        requires few { length entries.now ≤ SLOTS }
        ensures visited { IfOk result (λ visited. VisitsOn self.old (list_of entries.now right) visited self.new) }
        ensures onward { IfOk result (λ visited. GoesOnward (build_cursor self.old) (list_of entries.now right) visited
            (build_cursor self.new)) }
        ensures within { IfOk result (λ visited. (places : ℕ)
            → cursor_of places (build_cursor self.old) < all_cursors places) }
        ensures leads { IfOk result (λ visited. GoesFrom (list_of entries.now right) visited) }
        ensures state { self.new.state ≡ record self.old.state { rows = self.new.state.rows } }
    {
        let visited = self.scan.visit(alloc, entries, right);
        let pairs = self.scan.take_pairs(alloc);
        let visited = visited?;
        self.state.take_in(pairs.as_slice())?;
        if self.is_at_end() {
            return Ok(ScanMove::Done);
        }
        Ok(visited)
    }

    // Returns whether its cursor is after each key of the view. If it returns false, no more is said.
    fn is_at_end(&self) -> bool
        ensures { IsTrue result → IsBehindAll self.now }
    {
        match &self.end {
            Some(end) => self.scan.is_from(end.as_slice()),
            None => false,
        }
    }

    /// Takes the delta of the next commit. O(log n) in the rows of the view. On an error nothing changes.
    ///
    /// # Errors
    ///
    /// `NoMemory` if an allocation is refused.
    pub fn take(&mut self, delta: &Delta) -> Result<(), NoMemory>
        ensures leads { OnOk result ((deltas : List DeltaValue) (rows : Rows)
            → LeadsTo (delta.now ∷ deltas) rows self.old.state → LeadsTo deltas rows self.new.state) }
        ensures ok { OnOk result (self.new ≡ record self.old { state = applied delta.now self.old.state }) }
        ensures err { OnErr result (self.new ≡ self.old) }
    {
        self.state.apply(delta)
    }

    /// Returns the state of the view. It is at the last delta that was taken, or at the begin if there was none.
    pub fn finish(self) -> ViewState
        ensures state { result ≡ self.state }
        ensures afresh { (rows : Rows) → LeadsTo [] rows self.state → IsAfresh result rows }
    {
        let Build { state, .. } = self;
        state
    }
}
