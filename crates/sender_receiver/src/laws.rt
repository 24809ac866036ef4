//! What holds of every stock. The law is a function that does nothing: its contract is the law.
ghost use Rattle.std.specs.Prelude.{◌≡◌, ◌↔◌, ℕ, List, Some, None};
ghost use Rattle.sender_receiver.specs.Stocks.{Stocked, IsLeastAbove, IsNoneAbove, IsRisingFrom, place_after};

/// Where places rise, the first place above another is the least above it.
pub fn the_next_place_is_the_least()
    ensures next { (held : List Stocked) (low lid next : ℕ) → IsRisingFrom low held → (place_after held lid ≡ Some next) ↔ IsLeastAbove held lid next }
    ensures none { (held : List Stocked) (low lid : ℕ) → IsRisingFrom low held → (place_after held lid ≡ None) ↔ IsNoneAbove held lid }
{}
