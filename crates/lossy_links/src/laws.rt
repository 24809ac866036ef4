//! What holds of every link. Each law is a function that does nothing: its contract is the law.
ghost use Rattle.std.specs.Prelude.{◌≡◌, ◌⊎◌, ◌↔◌, ℕ, ◌≤◌, List, length, Some, Contains};
ghost use Rattle.lossy_links.specs.Links.{IsFullOf, message_at, without, put_last, copied};
ghost use Rattle.cz_base.specs.declared.limits.TheConstants.{PACKETS};

/// Nothing but what was put is ever on a link or leaves it, byte for byte: each call leaves packets that
/// were held before it or were handed to it, and takes out one that was held.
pub fn packets_stay_as_they_were_put()
    ensures put { (packets : List (List ℕ)) (new packet : List ℕ) → Contains (put_last packets new) packet → Contains packets packet ⊎ (new ≡ packet) }
    ensures taken { (packets : List (List ℕ)) (k : ℕ) (packet : List ℕ) → message_at packets k ≡ Some packet → Contains packets packet }
    ensures left { (packets : List (List ℕ)) (k : ℕ) (packet : List ℕ) → Contains (without packets k) packet → Contains packets packet }
    ensures copied { (packets : List (List ℕ)) (k : ℕ) (packet : List ℕ) → Contains (copied packets k) packet → Contains packets packet }
{}

/// A link that holds no more packets than [`cz_base::limits::PACKETS`] goes on to do so.
pub fn no_more_are_held()
    ensures { (packets : List (List ℕ)) (new : List ℕ) → length packets ≤ PACKETS → length (put_last packets new) ≤ PACKETS }
{}

/// A packet that goes last leaves the list as it was exactly where the link is full and each of its packets is equal to
/// that one. It holds of values as well as of bytes.
pub fn equal_packets_change_nothing<A>()
    ensures { (packets : List A) (new : A) → length packets ≤ PACKETS → (put_last packets new ≡ packets) ↔ IsFullOf new packets }
{}
