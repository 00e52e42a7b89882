//! How the rows of a map are changed, how its views are built, and how its tree is tidied: each by a call alone.

ghost use Rattle.std.specs.Prelude.{◌≡◌, IfOk, true};
ghost use Rattle.mt_types.specs.declared.event.Answer.TheVariants.{Stored, Tidied, Built};
ghost use Rattle.mt_types.specs.declared.event.Request.TheVariants.{Build, Put, PutIf, Remove, Tidy};
ghost use Rattle.mt_asked.specs.Borrowed.{request_of, sets_of, spec_of};
ghost use Rattle.mt_map.specs.Calls.{IsAnswerTo, answered_by, removed_by};
ghost use Rattle.mt_map.specs.Tidies.{ChangeComesTo, MapCameTo, MapComesTo, Removes};

use crate::calling::call_alone;
use crate::map::Map;
use crate::tidying::tidy_after;
use bytes::Bytes;
use mt_asked::asked::Asked;
use mt_asked::borrowed::{Set, Spec};
use mt_asked::limits::key_fault;
use mt_types::event::{Answer, Request, TidyRule};
use mt_types::key::Key;
use mt_types::numbers::ViewNo;
use mt_types::refusal::Refusal;
use mt_walk::place::place_of_key;

fn removed(found: Result<Option<u64>, Refusal>) -> Result<Answer, Refusal>
    ensures { result ≡ removed_by found }
{
    match found {
        Ok(Some(commit)) => Ok(Answer::Removed(commit)),
        Ok(None) => Ok(Answer::Absent),
        Err(refusal) => Err(refusal),
    }
}

impl Map {
    // Does what is asked for, as a call alone.
    fn call(&mut self, request: Request) -> Result<Answer, Refusal>
        ensures came { MapCameTo self.old request result self.new }
        ensures kind { IfOk result (IsAnswerTo request) }
    {
        call_alone(self.alloc, &mut self.machine, request)
    }

    // Does what is asked for in borrowed bytes, as a call alone. Tests limits, and then copies the bytes.
    fn call_copied(&mut self, asked: &Asked<'_>) -> Result<Answer, Refusal>
        ensures comes { MapComesTo self.old (request_of asked.now) result self.new }
        ensures kind { IfOk result (IsAnswerTo (request_of asked.now)) }
    {
        let columns = self.columns();
        match asked.checked(self.alloc, columns) {
            Ok(request) => self.call(request),
            Err(refusal) => Err(refusal),
        }
    }

    /// Does what is asked for: what the method of its name does. A get or a range is a call alone too, with copies of the
    /// rows.
    ///
    ///     let answer = map.ask(&Asked::Remove { key: b"apple" })?;
    ///
    /// # Errors
    ///
    /// Those of that method.
    pub fn ask(&mut self, asked: &Asked<'_>) -> Result<Answer, Refusal>
        ensures { ChangeComesTo self.old (request_of asked.now) result self.new }
    {
        match asked {
            Asked::Remove { key } => removed(self.remove(key)),
            _ => self.call_copied(asked),
        }
    }

    /// Puts new bytes into columns of the row of `key`. The others keep theirs, or are empty if the row is new. Returns
    /// the number of the commit, which is the row's version then. A put without sets commits too.
    ///
    ///     let commit = map.put(b"apple", &[Set::new(0, b"red")])?;
    ///
    /// Costs the visit of each node on the way to the key, and the steps of its splits. Copies the key and the sets, and
    /// allocates for what it stores.
    ///
    /// # Errors
    ///
    /// `KeyTooLong`, `BadColumn` or `ColumnTooLong` for the first limit that is broken, whatever memory there is;
    /// `FeedFull`, with the number of commits of the view that is furthest behind, if views hold as many commits as the
    /// option `log_capacity` allows; `ArenaFull`, `Spent` and `NoMemory`. Nothing has changed then.
    pub fn put(&mut self, key: &[u8], sets: &[Set<'_>]) -> Result<u64, Refusal>
        ensures { MapComesTo self.old (Put key.now (sets_of sets.now)) (answered_by Stored result) self.new }
    {
        match self.call_copied(&Asked::Put { key, sets }) {
            Ok(Answer::Stored(commit)) => Ok(commit),
            Ok(_) => unreachable!(),
            Err(refusal) => Err(refusal),
        }
    }

    /// Puts as [`Map::put`] does, if the row of `key` has this version, or, for version 0, if `key` has no row.
    ///
    ///     match map.put_if(b"apple", &[Set::new(0, b"green")], commit) {
    ///         Ok(next) => commit = next,
    ///         Err(Refusal::OtherVersion(found)) => commit = found,
    ///         Err(refusal) => return Err(refusal),
    ///     }
    ///
    /// # Errors
    ///
    /// `OtherVersion`, with the version that the row has, or 0 if there is none. Otherwise those of [`Map::put`].
    pub fn put_if(&mut self, key: &[u8], sets: &[Set<'_>], version: u64) -> Result<u64, Refusal>
        ensures { MapComesTo self.old (PutIf key.now (sets_of sets.now) version) (answered_by Stored result) self.new }
    {
        match self.call_copied(&Asked::PutIf { key, sets, version }) {
            Ok(Answer::Stored(commit)) => Ok(commit),
            Ok(_) => unreachable!(),
            Err(refusal) => Err(refusal),
        }
    }

    /// Removes the row of `key`. Returns the number of the commit, or `None` if the key has no row.
    ///
    ///     if map.remove(b"apple")?.is_none() {
    ///         println!(rt; "there was no apple")?;
    ///     }
    ///
    /// If the options of the map ask for tidies, and the border of the key is then empty, tidies follow there, as
    /// [`Map::tidy`] makes them, until one takes nothing out or the border isn't empty any more, and the nodes are freed
    /// that they took out. So memory comes back as rows are removed. What the tidies come to changes nothing of the
    /// answer.
    ///
    /// Costs the visit of each node on the way to the key, twice if tidies are on, and the steps of the tidies. Copies
    /// the key.
    ///
    /// # Errors
    ///
    /// `KeyTooLong`, whatever memory there is; `FeedFull`, `Spent` and `NoMemory`, as for [`Map::put`]. Nothing has
    /// changed then.
    pub fn remove(&mut self, key: &[u8]) -> Result<Option<u64>, Refusal>
        ensures { Removes self.old key.now result self.new }
    {
        let alloc = self.alloc;
        if let Some(refusal) = key_fault(key) {
            return Err(refusal);
        }
        match Bytes::copy_from_slice(alloc, key) {
            Ok(key) => self.remove_copied(key),
            Err(_) => Err(Refusal::NoMemory),
        }
    }

    // Removes the row of a key, and makes the tidies that follow.
    fn remove_copied(&mut self, key: Bytes) -> Result<Option<u64>, Refusal>
        ensures { Removes self.old key result self.new }
    {
        if !self.tidies {
            return self.take_out(key);
        }
        match place_of_key(&key) {
            Ok(Some(place)) => self.remove_at(key, place),
            Ok(None) => self.take_out(key),
            Err(_) => Err(Refusal::NoMemory),
        }
    }

    // Removes the row of a key, of which this is a copy, and makes the tidies that follow.
    fn remove_at(&mut self, key: Bytes, place: Key) -> Result<Option<u64>, Refusal>
        requires same { place ≡ key }
        requires tidies { self.old.tidies ≡ true }
        ensures { Removes self.old key result self.new }
    {
        match self.take_out(key) {
            Ok(Some(commit)) => {
                tidy_after(self.alloc, &mut self.machine, place);
                Ok(Some(commit))
            }
            Ok(None) => Ok(None),
            Err(refusal) => Err(refusal),
        }
    }

    // Removes the row of a key, and no more.
    fn take_out(&mut self, key: Bytes) -> Result<Option<u64>, Refusal>
        ensures { MapCameTo self.old (Remove key) (removed_by result) self.new }
    {
        match self.call(Request::Remove { key }) {
            Ok(Answer::Removed(commit)) => Ok(Some(commit)),
            Ok(Answer::Absent) => Ok(None),
            Ok(_) => unreachable!(),
            Err(refusal) => Err(refusal),
        }
    }

    /// Makes one change that tidies the tree on the way to `key` (Masstree, EuroSys 2012, section 4.6.5), and returns
    /// which. No row changes. [`Map::collect`] frees what it takes out. A remove makes tidies of its own, unless the
    /// options of the map ask for none.
    ///
    ///     let rule = map.tidy(b"apple")?;
    ///     let freed = map.collect();
    ///
    /// # Errors
    ///
    /// `KeyTooLong`, whatever memory there is; `Spent` and `NoMemory`. Nothing has changed then.
    pub fn tidy(&mut self, key: &[u8]) -> Result<TidyRule, Refusal>
        ensures { MapComesTo self.old (Tidy key.now) (answered_by Tidied result) self.new }
    {
        match self.call_copied(&Asked::Tidy { key }) {
            Ok(Answer::Tidied(rule)) => Ok(rule),
            Ok(_) => unreachable!(),
            Err(refusal) => Err(refusal),
        }
    }

    /// Builds a view, and returns its number. It is at the newest commit. [`Map::keep_views`] advances it afterwards.
    ///
    ///     let view = map.build(&Spec::Prefix { key: b"ap", test: Test::Any })?;
    ///
    /// Costs the visit of each border of its range, and O(n log n) in its rows.
    ///
    /// # Errors
    ///
    /// `KeyTooLong`, `BadColumn`, `ColumnTooLong` or `BadRange` for the first limit that the specification breaks,
    /// whatever memory there is; `TooManyViews` if there are `MAX_VIEWS`; `Spent` and `NoMemory`. There is no new view
    /// then.
    pub fn build(&mut self, spec: &Spec<'_>) -> Result<ViewNo, Refusal>
        ensures { MapComesTo self.old (Build (spec_of spec.now)) (answered_by Built result) self.new }
    {
        match self.call_copied(&Asked::Build { spec }) {
            Ok(Answer::Built(view)) => Ok(view),
            Ok(_) => unreachable!(),
            Err(refusal) => Err(refusal),
        }
    }
}
