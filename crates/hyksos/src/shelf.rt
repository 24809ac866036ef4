//! Shelves: what a session reads through.

ghost use Rattle.std.specs.Prelude.{◌≡◌, ◌≢◌, ◌↔◌, ◌<◌, ◌≤◌, ℕ, List, Some, None, IfOk, IsErrOf, IsSome, Contains, length};
ghost use Rattle.causal_deps.specs.declared.answers.Newest.TheVariants.{Found};
ghost use Rattle.causal_deps.specs.declared.record.Record.{Record as RecordValue};
ghost use Rattle.causal_deps.specs.Logs.{record_at};
ghost use Rattle.hyksos.specs.Shelves.{IsShelf, ShelfState, covered_for, last_at, newest_told, pin_of, pin_told, pinned, record_shown, with_pin};
ghost use Rattle.cz_base.specs.declared.limits.TheConstants.{SESSIONS};

use causal_deps::{LastFault, Newest, Pin, Place, Record, Shown};
use cz_base::{Lid, Name, Seq};

/// What a session reads through.
pub trait Shelf {
    /// Its head, the collected positions, the collection floor, how far each indexer covers the log, and the pins.
    ghost held: { Self → ShelfState };

    /// This is the log that it shows.
    ghost shows: { Self → List RecordValue → Type 0 };

    /// The position up to which the log can be read.
    fn head(&self) -> Lid
        ensures { result ≡ (held self.now).head };

    /// The last update of a key at or below s, where the key's indexer covers the log up to s.
    fn newest(&self, key: &Name, s: Lid) -> Newest
        requires { (log : List RecordValue) × shows self.now log }
        ensures { (log : List RecordValue) → shows self.now log → result ≡ newest_told log (held self.now) key.now s };

    /// What stands at a position. It is filled where it is a put and the last update of its key at a pinned position.
    fn shown(&self, lid: Lid) -> Shown<'_, Record>
        requires first { 1 ≤ lid }
        requires log { (log : List RecordValue) × shows self.now log }
        ensures gone { (result ≡ Shown.Gone) ↔ Contains (held self.now).gone lid }
        ensures filled { (log : List RecordValue) (r : RecordValue) → shows self.now log → record_shown result ≡ Some r → record_at log lid ≡ Some r }
        ensures empty { lid ≤ (held self.now).head → result ≢ Shown.Empty }
        ensures kept { (log : List RecordValue) (key : List ℕ) (n s : ℕ) → shows self.now log → pin_of (held self.now) n ≡ Some s → newest_told log (held self.now) key s ≡ Found lid → IsSome (record_shown result) };

    /// The places of the last `count` records with a tag at or below s, rising, where the tag's indexer covers the
    /// log up to s.
    fn last(&self, tag: &Name, count: u32, s: Lid) -> Result<Seq<Place>, LastFault>
        requires { (log : List RecordValue) × shows self.now log }
        ensures ok { (log : List RecordValue) → shows self.now log → IfOk result (λ places. (s ≤ covered_for (held self.now) tag.now) × (places ≡ last_at log s tag.now count)) }
        ensures behind { (covered : ℕ) → IsErrOf result (LastFault.Behind covered) → (covered < s) × (covered ≡ covered_for (held self.now) tag.now) };

    /// Pins a position for a session that has none, unless it is below the collection floor.
    fn pin(&mut self, session: u32, s: Lid) -> Pin
        requires session { session < SESSIONS }
        requires none { pin_of (held self.old) session ≡ None }
        ensures answer { result ≡ pin_told (held self.old) s }
        ensures held { held self.new ≡ pinned session s (held self.old) }
        ensures log { (log : List RecordValue) → shows self.old log → shows self.new log };

    /// The session's pin is given back.
    fn unpin(&mut self, session: u32)
        requires session { session < SESSIONS }
        requires there { IsSome (pin_of (held self.old) session) }
        ensures held { held self.new ≡ with_pin session None (held self.old) }
        ensures log { (log : List RecordValue) → shows self.old log → shows self.new log };

    /// There is an indexer at least, and no more indexers or sessions than there may be.
    ghost sized: { (shelf : Self) → IsShelf (held shelf) };

    /// The head is no further than the log.
    ghost within: { (shelf : Self) (log : List RecordValue) → shows shelf log → (held shelf).head ≤ length log };
}
