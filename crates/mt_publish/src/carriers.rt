//! The types of this crate: what a publisher, a reader and a `Told` hold.

ghost use Rattle.std.specs.Prelude.{◌≡◌, ◌++◌, drop, Some, IsTrue};
ghost use Rattle.left_right.specs.Sides.{view};
ghost use Rattle.mt_publish.specs.Rule.{source_in};
ghost use Rattle.mt_publish.specs.Shown.{deltas_in};

use crate::chain::Chain;
use crate::mark::Mark;
use crate::rule::{Known, Published};
use crate::shown::{Shown, Step};
use left_right::reader::Reader;
use left_right::writer::Writer;
use std::alloc::Global;
use std::sync::Wait;

/// Publishes a view. Its drop waits for the readers that are reading, so it keeps the handle `R`, which is the
/// permission to wait.
pub struct Publisher<R: Wait + Drop> {
    pub(crate) alloc: Global,
    pub(crate) writer: Writer<Shown, Step, Known, Published>,
    pub(crate) chain: Chain,
    pub(crate) rt: R,
    ghost opened: { source_in (view writer.desk.place).opening ≡ Some writer.desk.shown.value.mark.source },
    ghost sourced: { chain.last.source ≡ writer.desk.shown.value.mark.source },
    ghost whole: { IsTrue chain.whole → chain.last.list
        ≡ writer.desk.shown.value.mark.list ++ deltas_in (drop writer.behind writer.log.items) },
}

impl<R: Wait + Drop> Drop for Publisher<R> {
    fn drop(self) {
        let Self {
            alloc: _,
            writer,
            chain: _,
            rt,
        } = self;
        drop(writer.take(&rt));
    }
}

impl<R: Wait + Drop> Publisher<R> {
    pub(crate) fn into_parts(self) -> (Writer<Shown, Step, Known, Published>, Chain, Global, R)
        ensures writer { result.0 ≡ self.writer }
        ensures opened { source_in (view result.0.desk.place).opening ≡ Some result.0.desk.shown.value.mark.source }
        ensures sourced { result.1.last.source ≡ result.0.desk.shown.value.mark.source }
        ensures whole { IsTrue result.1.whole → result.1.last.list
            ≡ result.0.desk.shown.value.mark.list ++ deltas_in (drop result.0.behind result.0.log.items) }
    {
        let Self {
            alloc,
            writer,
            chain,
            rt,
        } = self;
        (writer, chain, alloc, rt)
    }
}

/// Reads what the publisher has published.
#[derive(Drop)]
pub struct ViewReader {
    pub(crate) reader: Reader<Shown, Known, Published>,
    /// The longest list that it has learnt of.
    pub(crate) heard: Mark,
    ghost same: { source_in (view reader.place).opening ≡ Some heard.source },
}

/// What was published when `tell` was called, to be passed to a reader. It has eight bytes, and may go to any thread.
#[derive(Drop)]
pub struct Told {
    pub(crate) mark: Mark,
}
