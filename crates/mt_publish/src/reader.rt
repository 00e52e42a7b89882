//! What a reader does.

ghost use Rattle.std.specs.Prelude.{ℕ, ◌≡◌, Some, Err, IfOk, IfErr, MatchOption};
ghost use Rattle.mt_types.specs.Limits.{limit_fault};
ghost use Rattle.mt_types.specs.Rows.{Rows};
ghost use Rattle.mt_view.specs.State.{StateView, IsAfresh, page_of_state};
ghost use Rattle.mt_publish.specs.Carried.{MayRefuse, reader_opening, reader_list, reader_heard, reader_source, told_list, told_source};
ghost use Rattle.mt_publish.specs.Marks.{StartsWith};
ghost use Rattle.mt_publish.specs.Folds.{applied_all, redo_all, last_number, page_of_rows};

use crate::carriers::Told;
pub use crate::carriers::ViewReader;
use crate::rule::Reads;
use core::mem::replace_with;
use mt_types::key::Key;
use mt_types::limits::limit_fault;
use mt_types::refusal::Refusal;
use mt_types::view::Page;

impl Told {
    /// Returns a copy, for another reader.
    pub fn again(&self) -> Told
        ensures { result ≡ self.now }
    {
        Told {
            mark: self.mark.again(),
        }
    }
}

impl ViewReader {
    /// Learns what was published when `told` was made: each later read shows that or something newer. Allocates
    /// nothing, and waits for nobody.
    pub fn learn(&mut self, told: Told)
        requires { told_source told ≡ reader_source self.old }
        ensures kept { (reader_opening self.new ≡ reader_opening self.old) × (reader_list self.new ≡ reader_list self.old)
            × (reader_source self.new ≡ reader_source self.old) }
        ensures heard { StartsWith (reader_heard self.new) (reader_heard self.old) }
        ensures told { StartsWith (reader_heard self.new) (told_list told) }
    {
        self.heard = self.heard.longer(&told.mark);
    }

    /// Reads a page of what is published: its count, its sums, and its first rows whose keys are at or after `start`,
    /// at most `limit`. The page is that of the opening state after a list of deltas. This list begins with the list of
    /// the read before, and with each list that the reader has learnt of. Waits for nobody, and takes no lock. Shares
    /// keys and rows. O(log n + k) for a page of k rows.
    ///
    /// # Errors
    ///
    /// `BadLimit` unless `limit` is from 1 to `MAX_RANGE`; `NoSuchView` if the publisher was dropped; `NoMemory` if an
    /// allocation is refused. `Behind`, with the number of commits at which the published state is, if the reader has
    /// learnt of a longer list than is shown. That never happens, but no contract says so.
    pub fn read(&mut self, start: &Key, limit: u16) -> Result<Page, Refusal>
        ensures kept { (reader_heard self.new ≡ reader_heard self.old) × (reader_source self.new ≡ reader_source self.old) }
        ensures opening { (o : StateView) → reader_opening self.old ≡ Some o → reader_opening self.new ≡ Some o }
        ensures later { StartsWith (reader_list self.new) (reader_list self.old) }
        ensures told { IfOk result (λ _. StartsWith (reader_list self.new) (reader_heard self.old)) }
        ensures page { (o : StateView) → reader_opening self.old ≡ Some o
            → IfOk result (λ page. page ≡ page_of_state (applied_all o (reader_list self.new)) start.now limit) }
        ensures rows { (o : StateView) (rows : Rows) → reader_opening self.old ≡ Some o → IsAfresh o rows
            → IfOk result (λ page. page ≡ page_of_rows o.spec o.columns (last_number o.at (reader_list self.new))
            (redo_all rows (reader_list self.new)) start.now limit) }
        ensures behind { (o : StateView) (at : ℕ) → reader_opening self.old ≡ Some o → result ≡ Err (Refusal.Behind at)
            → at ≡ last_number o.at (reader_list self.new) }
        ensures unchanged { result ≡ Err Refusal.NoSuchView → reader_list self.new ≡ reader_list self.old }
        ensures fault { MatchOption (limit_fault limit)
            (IfErr result (MayRefuse (reader_list self.new) (reader_heard self.old))) (λ refusal. result ≡ Err refusal) }
    {
        if let Some(refusal) = limit_fault(limit) {
            return Err(refusal);
        }
        let asked = (start, limit);
        replace_with(
            self,
            asked,
            |reader, (start, limit)| reader.into_read(start, limit),
        )
    }

    fn into_read(self, start: &Key, limit: u16) -> (ViewReader, Result<Page, Refusal>)
        ensures kept { (reader_heard result.0 ≡ reader_heard self) × (reader_source result.0 ≡ reader_source self) }
        ensures opening { (o : StateView) → reader_opening self ≡ Some o → reader_opening result.0 ≡ Some o }
        ensures later { StartsWith (reader_list result.0) (reader_list self) }
        ensures told { IfOk result.1 (λ _. StartsWith (reader_list result.0) (reader_heard self)) }
        ensures page { (o : StateView) → reader_opening self ≡ Some o
            → IfOk result.1 (λ page. page ≡ page_of_state (applied_all o (reader_list result.0)) start.now limit) }
        ensures rows { (o : StateView) (rows : Rows) → reader_opening self ≡ Some o → IsAfresh o rows
            → IfOk result.1 (λ page. page ≡ page_of_rows o.spec o.columns (last_number o.at (reader_list result.0))
            (redo_all rows (reader_list result.0)) start.now limit) }
        ensures behind { (o : StateView) (at : ℕ) → reader_opening self ≡ Some o → result.1 ≡ Err (Refusal.Behind at)
            → at ≡ last_number o.at (reader_list result.0) }
        ensures unchanged { result.1 ≡ Err Refusal.NoSuchView → reader_list result.0 ≡ reader_list self }
        ensures fault { IfErr result.1 (MayRefuse (reader_list result.0) (reader_heard self)) }
    {
        let ViewReader { reader, heard } = self;
        match reader.enter_as::<Reads>() {
            Err(reader) => (ViewReader { reader, heard }, Err(Refusal::NoSuchView)),
            Ok(reading) => {
                let page = reading.get().page(&heard, start, limit);
                let reader = reading.leave();
                (ViewReader { reader, heard }, page)
            }
        }
    }
}
