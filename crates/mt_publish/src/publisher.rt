//! What a publisher does.

ghost use Rattle.std.specs.Prelude.{◌≡◌, ◌<◌, ◌≤◌, ◌⊎◌, [], ◌∷◌, ◌++◌, drop, Some, Err, vec_len, All, IfOk, IfErr, MatchResult, MatchOption};
ghost use Rattle.mt_types.specs.Limits.{passes_fault};
ghost use Rattle.mt_view.specs.State.{StateView};
ghost use Rattle.mt_publish.specs.Folds.{last_number};
ghost use Rattle.mt_publish.specs.Carried.{PublisherKeeps, IsAt, IsMarked, IsReaderOf, opening_of, list_of, number_of, pending_of, source_of, told_list, told_source};

pub use crate::carriers::{Publisher, Told, ViewReader};
use crate::chain::Chain;
use crate::rule::{Known, Learns, Opens, Published, Publishes, Tells};
use crate::shown::{Shown, Step};
use core::mem::replace_with;
use left_right::writer::Writer;
use mt_types::copying::TryCopy;
use mt_types::limits::passes_fault;
use mt_types::refusal::{NoMemory, Refusal};
use mt_types::row::Delta;
use mt_view::state::ViewState;
use std::alloc::Global;
use std::sync::Wait;

// Opens a publisher of this state, which knows that this is what it published first.
fn open<R: Wait + Drop>(
    alloc: Global,
    rt: R,
    state: ViewState,
    readers: usize,
) -> Result<Publisher<R>, Refusal>
    requires { (0 < readers) × (readers ≤ 255) }
    ensures { MatchResult result (λ p. IsAt p state × (pending_of p ≡ [])) (λ e. e ≡ Refusal.NoMemory) }
{
    let chain = Chain::start();
    let second = Shown {
        state: state.copy(alloc)?,
        mark: chain.last.again(),
    };
    let first = Shown {
        state,
        mark: chain.last.again(),
    };
    let writer = Writer::new(alloc, first, second, readers)?;
    let (writer, opened) = writer.publish_as::<Opens, R>(&rt);
    if opened.is_err() {
        drop(writer.take(&rt));
        return Err(Refusal::NoMemory);
    }
    Ok(Publisher {
        alloc,
        writer,
        chain,
        rt,
    })
}

// Appends a step to those that are pending.
fn push(writer: &mut Writer<Shown, Step, Known, Published>, step: Step) -> Result<(), NoMemory>
    ensures desk { writer.new.desk ≡ writer.old.desk }
    ensures pending { MatchResult result
        (λ _. drop writer.new.behind writer.new.log.items ≡ drop writer.old.behind writer.old.log.items ++ step ∷ [])
        (λ _. drop writer.new.behind writer.new.log.items ≡ drop writer.old.behind writer.old.log.items) }
{
    writer.append(step).map_err(|_| NoMemory)
}

impl<R: Wait + Drop> Publisher<R> {
    /// Starts a publisher of this state, with `readers` readers, which see the state at once. It publishes once,
    /// without a delta: so it needs the permission to wait, although nobody reads yet. O(n log n) in the rows of the
    /// state, for a second copy of it.
    ///
    /// # Errors
    ///
    /// `BadLimit` unless `readers` is from 1 to `MAX_PASSES`; `NoMemory` if an allocation is refused; `NoSuchView` if
    /// there is no place for a reader. On an error the state is dropped.
    pub fn start(
        alloc: Global,
        rt: R,
        state: ViewState,
        readers: u64,
    ) -> Result<(Publisher<R>, Vec<ViewReader>), Refusal>
        ensures fault { MatchOption (passes_fault readers)
            (IfErr result (λ e. (e ≡ Refusal.NoMemory) ⊎ (e ≡ Refusal.NoSuchView))) (λ e. result ≡ Err e) }
        ensures publisher { IfOk result (λ t. IsAt t.0 state × (pending_of t.0 ≡ [])) }
        ensures readers { IfOk result (λ t. (vec_len t.1 ≡ readers)
            × All (IsReaderOf (source_of t.0) state) t.1.items) }
    {
        if let Some(refusal) = passes_fault(readers) {
            return Err(refusal);
        }
        let readers = readers as usize;
        let mut publisher = open(alloc, rt, state, readers)?;
        let mut handed = Vec::new(alloc);
        for _ in 0..readers {
            handed.push(publisher.hand_out()?)?;
        }
        Ok((publisher, handed))
    }

    // Returns a reader that knows the opening state. Nothing may be published yet besides it.
    fn hand_out(&mut self) -> Result<ViewReader, Refusal>
        requires { list_of self.old ≡ [] }
        ensures kept { PublisherKeeps self.old self.new × (pending_of self.new ≡ pending_of self.old) }
        ensures reader { MatchResult result
            (λ r. (o : StateView) → opening_of self.old ≡ Some o → IsReaderOf (source_of self.old) o r)
            (λ e. e ≡ Refusal.NoSuchView) }
    {
        let Ok(reader) = self.writer.factory().reader() else {
            return Err(Refusal::NoSuchView);
        };
        let mut reader = reader;
        reader.learn::<Learns>(self.writer.tell::<Tells>());
        Ok(ViewReader {
            reader,
            heard: self.writer.published().mark.again(),
        })
    }

    /// Appends a copy of `delta` to the deltas that are pending. Readers see it after the next [`Publisher::publish`].
    /// Shares the bytes. O(n) in the columns of the delta.
    ///
    /// # Errors
    ///
    /// `NoMemory` if an allocation is refused: then nothing is appended.
    #[tactic(auto, using(crate::proofs::Kept::deltas_one))]
    pub fn append(&mut self, delta: &Delta) -> Result<(), Refusal>
        ensures kept { PublisherKeeps self.old self.new }
        ensures pending { MatchResult result (λ _. pending_of self.new ≡ pending_of self.old ++ delta.now ∷ [])
            (λ e. (e ≡ Refusal.NoMemory) × (pending_of self.new ≡ pending_of self.old)) }
    {
        let copied = delta.copy(self.alloc)?;
        push(&mut self.writer, Step::Takes(copied))?;
        self.chain.add(delta);
        Ok(())
    }

    /// Publishes all deltas that are pending: they become visible to readers all at once, or nothing changes. Waits for
    /// the readers that still read what was shown before the last publish. If nothing is pending, it does nothing and
    /// waits for nobody. O(log n) in the rows of the view for each delta, on each of the two copies of the state.
    ///
    /// # Errors
    ///
    /// `NoMemory` if an allocation is refused: then what is published and what is pending stay, and a caller may try
    /// again.
    pub fn publish(&mut self) -> Result<(), Refusal>
        ensures opening { opening_of self.new ≡ opening_of self.old }
        ensures source { source_of self.new ≡ source_of self.old }
        ensures list { MatchResult result
            (λ _. (list_of self.new ≡ list_of self.old ++ pending_of self.old) × (pending_of self.new ≡ []))
            (λ e. (e ≡ Refusal.NoMemory) × (list_of self.new ≡ list_of self.old)
            × (pending_of self.new ≡ pending_of self.old)) }
        ensures number { MatchResult result (λ _. number_of self.new ≡ last_number (number_of self.old) (pending_of self.old))
            (λ _. number_of self.new ≡ number_of self.old) }
    {
        if !self.writer.has_pending_operations() {
            return Ok(());
        }
        self.mark()?;
        replace_with(self, (), |publisher, ()| publisher.into_publish())
    }

    // Appends the mark of what the next publish shows.
    #[tactic(auto, using(crate::proofs::Kept::deltas_mark))]
    fn mark(&mut self) -> Result<(), Refusal>
        ensures kept { PublisherKeeps self.old self.new × (pending_of self.new ≡ pending_of self.old) }
        ensures marked { MatchResult result (λ _. IsMarked self.new) (λ e. e ≡ Refusal.NoMemory) }
    {
        let Some(mark) = self.chain.reached() else {
            return Err(Refusal::NoMemory);
        };
        push(&mut self.writer, Step::Marks(mark))?;
        Ok(())
    }

    fn into_publish(self) -> (Publisher<R>, Result<(), Refusal>)
        requires { IsMarked self }
        ensures opening { opening_of result.0 ≡ opening_of self }
        ensures source { source_of result.0 ≡ source_of self }
        ensures list { MatchResult result.1
            (λ _. (list_of result.0 ≡ list_of self ++ pending_of self) × (pending_of result.0 ≡ []))
            (λ e. (e ≡ Refusal.NoMemory) × (list_of result.0 ≡ list_of self)
            × (pending_of result.0 ≡ pending_of self)) }
        ensures number { MatchResult result.1 (λ _. number_of result.0 ≡ last_number (number_of self) (pending_of self))
            (λ _. number_of result.0 ≡ number_of self) }
    {
        let (writer, chain, alloc, rt) = self.into_parts();
        let (writer, published) = writer.publish_as::<Publishes, R>(&rt);
        let publisher = Publisher {
            alloc,
            writer,
            chain,
            rt,
        };
        match published {
            Ok(()) => (publisher, Ok(())),
            Err(_) => (publisher, Err(Refusal::NoMemory)),
        }
    }

    /// Returns the number of commits at which the published state is: the number of the last delta that was published,
    /// or, if none was, that of the opening state.
    pub fn at(&self) -> u64
        ensures { result ≡ number_of self.now }
    {
        self.writer.published().state.at()
    }

    /// Returns a `Told` of what is published now. A reader that learns it reads nothing older.
    pub fn tell(&self) -> Told
        ensures { (told_list result ≡ list_of self.now) × (told_source result ≡ source_of self.now) }
    {
        Told {
            mark: self.writer.published().mark.again(),
        }
    }
}
