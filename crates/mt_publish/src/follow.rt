//! One turn of the loop by which a publisher follows an index.

ghost use Rattle.std.specs.Prelude.{◌≡◌, ◌⊎◌, ◌++◌, Err, IfOk, IfErr, MatchResult};
ghost use Rattle.mt_shared.specs.Feeds.{FeedsSomewhere};
ghost use Rattle.mt_publish.specs.Carried.{PublisherKeeps, list_of, number_of, pending_of, opening_of, source_of};
ghost use Rattle.mt_publish.specs.Folds.{last_number};
ghost use Rattle.mt_publish.specs.Marks.{StartsWith};
ghost use Rattle.mt_publish.specs.Follows.{Follows};

use crate::publisher::Publisher;
use mt_shared::door::Door;
use mt_types::refusal::Refusal;
use mt_types::row::Delta;
use std::alloc::Global;
use std::sync::Wait;

// Appends the deltas, in their order.
fn append_all<R: Wait + Drop>(publisher: &mut Publisher<R>, deltas: &[Delta]) -> Result<(), Refusal>
    ensures kept { PublisherKeeps publisher.old publisher.new }
    ensures pending { MatchResult result (λ _. pending_of publisher.new ≡ pending_of publisher.old ++ deltas.now)
        (λ e. e ≡ Refusal.NoMemory) }
{
    for delta in deltas {
        publisher.append(delta)?;
    }
    Ok(())
}

/// Publishes the deltas of the commits after the publisher's number, at most `most`, from the log of an index, and
/// returns how many these were. Deltas that were pending are published first. Holds the lock of the index once, for the
/// feed.
///
/// A thread that calls this again and again keeps the published view up to date, if nothing else is asked of the
/// publisher. If there is nothing new, the call waits for no reader. Costs a feed of these deltas, and their publish.
///
/// # Errors
///
/// `Behind` if the log no longer has some of these deltas: then the publisher can't follow, and a caller has to start
/// another from a copy of a view. `BadLimit` unless `most` is from 1 to `MAX_RANGE`. `NoMemory` if an allocation is
/// refused: then what was appended stays pending, and the next turn publishes it first.
pub fn follow<W: Wait, R: Wait + Drop>(
    alloc: Global,
    door: &Door<'_, W>,
    publisher: &mut Publisher<R>,
    most: u16,
) -> Result<u64, Refusal>
    ensures kept { (opening_of publisher.new ≡ opening_of publisher.old)
        × (source_of publisher.new ≡ source_of publisher.old) }
    ensures follows { IfOk result (Follows (list_of publisher.old ++ pending_of publisher.old) (list_of publisher.new)
        (last_number (number_of publisher.old) (pending_of publisher.old)) most) }
    ensures refused { IfErr result (λ refusal. (refusal ≡ Refusal.NoMemory)
        ⊎ FeedsSomewhere (last_number (number_of publisher.old) (pending_of publisher.old)) most (Err refusal)) }
    ensures later { StartsWith (list_of publisher.new) (list_of publisher.old) }
{
    publisher.publish()?;
    let deltas = door.feed(alloc, publisher.at(), most)?;
    append_all(publisher, &deltas)?;
    publisher.publish()?;
    Ok(deltas.len() as u64)
}
