//! The map: what it holds, how it is opened, and how its rows are read.

ghost use Rattle.std.specs.Prelude.{◌≡◌, ◌↔◌, IsTrue, IsSome, IsOk, IfOk, IfErr, MatchOption, Err, None, [], length, take, drop};
ghost use Rattle.std.specs.Option.{option_copied};
ghost use Rattle.std.specs.FinMap.{empty, get, len};
ghost use Rattle.mt_types.specs.Limits.{key_fault, open_fault, request_fault};
ghost use Rattle.mt_types.specs.declared.event.Request.TheVariants.{Range};
ghost use Rattle.mt_promise.specs.Alone.{IsRangeOfMap};
ghost use Rattle.mt_promise.specs.History.{History, moment, rows};
ghost use Rattle.mt_arena.specs.Node.{occupied};
ghost use Rattle.mt_commit.specs.Log.{newest};
ghost use Rattle.mt_commit.specs.Logged.{deltas_of};
ghost use Rattle.mt_index.specs.Alone.{IsIdle};
ghost use Rattle.mt_index.specs.Feed.{feed_fault};
ghost use Rattle.mt_index.specs.Stands.{HasBounds, Stands};
ghost use Rattle.mt_load.specs.declared.error.LoadError.TheVariants.{Refused};
ghost use Rattle.mt_load.specs.Loaded.{IsLoaded};

use mt_asked::asked::numbers_of;
use mt_asked::limits::{key_fault, range_fault};
use mt_index::machine::Machine;
use mt_index::options::Options;
use mt_load::error::LoadError;
use mt_load::loading::load;
use mt_reads::key_of;
use mt_rows::rows::Rows;
use mt_types::refusal::{NoMemory, Refusal};
use mt_types::row::{Delta, Pairs, Row};
use std::alloc::Global;
use std::marker::Model;

/// An ordered map in memory from keys to rows, with views. It is an index that one caller has: between two of its
/// methods no call is open. Contracts see it as its machine, and whether tidies follow removes.
pub struct Map {
    pub(crate) alloc: Global,
    pub(crate) machine: Machine,
    pub(crate) tidies: bool,
}

impl Model for Map {
    ghost use Rattle.std.specs.Coded.{codes};
    ghost use Rattle.mt_scan.specs.CursorCode.{place_code};
    ghost use Rattle.mt_view.specs.StateCode.{state_code};
    ghost use Rattle.mt_index.specs.Alone.{IsIdle};
    ghost use Rattle.mt_map.specs.Tidies.{MapView};

    ghost Value = { MapView };

    ghost coded = { Prim.hlevel (codes, place_code, state_code) };

    ghost view = { λ m. record { machine = m.machine; tidies = m.tidies } };

    ghost invariant = { λ m. IsIdle m.machine };
}

// Written out so that its proof is made here only, and not again in each crate above.
impl Drop for Map {
    fn drop(self) {
        let Map {
            alloc: _,
            machine: _,
            tidies: _,
        } = self;
    }
}

// The first rows from a key on. Copies the bytes of what is asked for.
fn pairs_of(
    alloc: Global,
    machine: &Machine,
    start: &[u8],
    limit: u16,
    columns: &[u8],
) -> Result<Pairs, Refusal>
    requires idle { IsIdle machine.now }
    requires fits { request_fault machine.now.columns (Range start.now limit columns.now) ≡ None }
    ensures pairs { IfOk result (λ pairs. (h : History) → Stands machine.now h
        → IsRangeOfMap (rows machine.now.columns (moment h)) columns.now start.now limit pairs) }
    ensures fault { IfErr result (λ refusal. refusal ≡ Refusal.NoMemory) }
{
    let start = key_of(alloc, start)?;
    let columns = numbers_of(alloc, columns)?;
    machine.range(alloc, start, limit, columns)
}

impl Map {
    /// Opens an empty map. It keeps `alloc` for its later allocations. A few allocations.
    ///
    ///     let mut map = Map::open(rt.alloc(), Options::default())?;
    ///
    /// # Errors
    ///
    /// `BadColumn` unless `columns` is from 1 to `MAX_COLUMNS`; `BadLimit` unless `log_capacity` is from 1 to
    /// `MAX_LOG_CAPACITY` and `log_retention` is at most `MAX_LOG_RETENTION`; `NoMemory` if an allocation is refused. The
    /// first of these that applies.
    pub fn open(alloc: Global, options: Options) -> Result<Map, Refusal>
        ensures opened { IfOk result (λ map. (map.machine.columns ≡ options.columns)
            × HasBounds options.log_capacity options.log_retention map.machine.log × Stands map.machine []) }
        ensures tidies { IfOk result (λ map. map.tidies ≡ options.tidies) }
        ensures fault { MatchOption (open_fault options.columns options.log_capacity options.log_retention)
            (IfErr result (λ refusal. refusal ≡ Refusal.NoMemory)) (λ refusal. result ≡ Err refusal) }
    {
        let machine = Machine::open(alloc, options)?;
        Ok(Map {
            alloc,
            machine,
            tidies: options.tidies,
        })
    }

    /// Opens a map that has these rows, with their versions, after `commits` commits, whichever commits led to them. The next
    /// commit has the number after that. It keeps `alloc` for its later allocations.
    ///
    ///     let mut map = Map::load(rt.alloc(), Options::default(), rows, 1_000_000)?;
    ///
    /// Costs O(n log n) in the rows, and a put for each. [`Map::feed`] refuses the deltas of the first `commits` commits as
    /// `Behind`.
    ///
    /// # Errors
    ///
    /// Those of `mt_load::loading::load`: `Refused` for a limit that the options or a row break, or if out of memory;
    /// `Impossible` if no map has these rows after `commits` commits.
    pub fn load(alloc: Global, options: Options, rows: Rows, commits: u64) -> Result<Map, LoadError>
        ensures loaded { IfOk result (λ map. IsLoaded options.columns commits rows map.machine) }
        ensures bounds { IfOk result (λ map. HasBounds options.log_capacity options.log_retention map.machine.log) }
        ensures tidies { IfOk result (λ map. map.tidies ≡ options.tidies) }
        ensures fault { MatchOption (open_fault options.columns options.log_capacity options.log_retention) (Unit {0})
            (λ refusal. result ≡ Err (Refused refusal)) }
    {
        let machine = load(alloc, options, rows, commits)?;
        Ok(Map {
            alloc,
            machine,
            tidies: options.tidies,
        })
    }

    /// Returns how many columns a row has.
    ///
    ///     println!(rt; "{} columns", map.columns())?;
    pub fn columns(&self) -> u8
        ensures { result ≡ self.now.machine.columns }
    {
        self.machine.columns()
    }

    /// Returns how many commits have been made.
    ///
    ///     let seen = map.commits();
    pub fn commits(&self) -> u64
        ensures number { result ≡ newest self.now.machine.log }
        ensures told { (h : History) → Stands self.now.machine h → result ≡ length (moment h).commits }
        ensures stands { (h : History) × Stands self.now.machine h }
    {
        let _stands = self.machine.is_idle();
        self.machine.commits()
    }

    /// Returns how many rows there are.
    ///
    ///     println!(rt; "{} rows", map.len())?;
    pub fn len(&self) -> usize
        ensures { (h : History) → Stands self.now.machine h
            → result ≡ len (rows self.now.machine.columns (moment h)) }
    {
        self.machine.len()
    }

    /// Returns whether there are no rows.
    ///
    ///     if map.is_empty() {
    ///         println!(rt; "nothing is left")?;
    ///     }
    pub fn is_empty(&self) -> bool
        ensures { (h : History) → Stands self.now.machine h
            → IsTrue result ↔ (rows self.now.machine.columns (moment h) ≡ empty) }
    {
        self.len() == 0
    }

    /// Returns how many of the `MAX_NODES` node numbers are occupied.
    ///
    ///     println!(rt; "{} nodes", map.nodes())?;
    pub fn nodes(&self) -> usize
        ensures { result ≡ occupied self.now.machine.tree.nodes }
    {
        self.machine.nodes()
    }

    /// Returns the row of `key`, borrowed, or `None` if it has none.
    ///
    ///     if let Some(row) = map.get(b"apple")? {
    ///         println!(rt; "{} bytes, version {}", row.columns.get_or_empty(0).len(), row.version)?;
    ///     }
    ///
    /// Costs the visit of each node on the way to the key. Allocates nothing, and copies nothing.
    ///
    /// # Errors
    ///
    /// `KeyTooLong` if the key has more than `MAX_KEY_BYTES` bytes.
    pub fn get(&self, key: &[u8]) -> Result<Option<&Row>, Refusal>
        ensures row { IfOk result (λ row. (h : History) → Stands self.now.machine h
            → option_copied row ≡ get (rows self.now.machine.columns (moment h)) key.now) }
        ensures fault { MatchOption (key_fault key.now) (IsOk result) (λ refusal. result ≡ Err refusal) }
    {
        if let Some(refusal) = key_fault(key) {
            return Err(refusal);
        }
        Ok(self.machine.row(key))
    }

    /// Returns whether `key` has a row. Costs what [`Map::get`] costs.
    ///
    ///     if !map.contains_key(b"apple")? {
    ///         let _ = map.put(b"apple", &[])?;
    ///     }
    ///
    /// # Errors
    ///
    /// `KeyTooLong` if the key has more than `MAX_KEY_BYTES` bytes.
    pub fn contains_key(&self, key: &[u8]) -> Result<bool, Refusal>
        ensures there { IfOk result (λ there. (h : History) → Stands self.now.machine h
            → IsTrue there ↔ IsSome (get (rows self.now.machine.columns (moment h)) key.now)) }
        ensures fault { MatchOption (key_fault key.now) (IsOk result) (λ refusal. result ≡ Err refusal) }
    {
        Ok(self.get(key)?.is_some())
    }

    /// Returns the first rows whose keys are at or after `start`, at most `limit`, in the order of keys, each with the
    /// columns that are asked for, or with all if none is asked for.
    ///
    ///     let pairs = map.pairs(b"a", 10, &[])?;
    ///     println!(rt; "{} rows", pairs.len())?;
    ///
    /// Costs the visit of the nodes on the way to `start`, and of each border from there on. Allocates for the keys,
    /// and for the columns if some are asked for; all columns of a row are shared.
    ///
    /// # Errors
    ///
    /// `KeyTooLong` if `start` has more than `MAX_KEY_BYTES` bytes; `BadColumn` if a column does not exist or is named
    /// twice; `BadLimit` if `limit` is 0 or more than `MAX_RANGE`; `NoMemory` if an allocation is refused. The first of
    /// these that applies.
    pub fn pairs(&self, start: &[u8], limit: u16, columns: &[u8]) -> Result<Pairs, Refusal>
        ensures pairs { IfOk result (λ pairs. (h : History) → Stands self.now.machine h
            → IsRangeOfMap (rows self.now.machine.columns (moment h)) columns.now start.now limit pairs) }
        ensures fault { MatchOption (request_fault self.now.machine.columns (Range start.now limit columns.now))
            (IfErr result (λ refusal. refusal ≡ Refusal.NoMemory)) (λ refusal. result ≡ Err refusal) }
    {
        if let Some(refusal) = range_fault(self.columns(), start, limit, columns) {
            return Err(refusal);
        }
        pairs_of(self.alloc, &self.machine, start, limit, columns)
    }

    /// Returns the deltas of the commits after the first `from`, at most `limit`, in their order, as `Machine::feed`
    /// does.
    ///
    ///     for delta in map.feed(seen, 100)?.iter() {
    ///         println!(rt; "commit {}", delta.number)?;
    ///     }
    ///
    /// # Errors
    ///
    /// `BadLimit` unless `limit` is from 1 to `MAX_RANGE`. `Behind` if some of these deltas were trimmed, with the
    /// number after which the log has them. `NoMemory` if an allocation is refused.
    pub fn feed(&self, from: u64, limit: u16) -> Result<Vec<Delta>, Refusal>
        ensures tells { IfOk result (λ deltas. (h : History) → Stands self.now.machine h
            → deltas.items ≡ take limit (drop from (deltas_of self.now.machine.columns (moment h).commits))) }
        ensures fault { MatchOption (feed_fault self.now.machine.log from limit)
            (IfErr result (λ refusal. refusal ≡ Refusal.NoMemory)) (λ refusal. result ≡ Err refusal) }
    {
        self.machine.feed(self.alloc, from, limit)
    }
}
