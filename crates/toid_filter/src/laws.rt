//! What holds over any list of takes, and while filters are added. Each law is a function that does nothing: its contract is the law.
ghost use Rattle.std.specs.Prelude.{◌≡◌, ℕ, ◌<◌, ◌≤◌, true, false, [], ◌∷◌, ◌++◌, length, map, sum_by, All, List, Option, None, Some};
ghost use Rattle.causal_deps.specs.declared.record.Record.{Record};
ghost use Rattle.causal_deps.specs.declared.record.Draft.{Draft};
ghost use Rattle.causal_deps.specs.declared.record.Item.TheVariants.{Local, External};
ghost use Rattle.toid_filter.specs.declared.champions.Share.{Share};
ghost use Rattle.toid_filter.specs.declared.filter.AcceptedMark.{AcceptedMark};
ghost use Rattle.toid_filter.specs.declared.filter.Verdict.{Verdict};
ghost use Rattle.toid_filter.specs.Champions.{first_map, grown, last_share};
ghost use Rattle.toid_filter.specs.Filters.{FilterState, Announcement, activated, cancelled, filter_at, handed_out, is_known, is_past, new_filter, times_passed, with_item, with_record, AreSound, FitsFilter, IsSound, IsSteady, IsTaken};
ghost use Rattle.toid_filter.specs.Marks.{accepted_next, asked_next, filters_grown, grown_by};
ghost use Rattle.toid_filter.specs.Sums.{added_by, items_of, LosesNothing};
ghost use Rattle.toid_filter.specs.Growth.{Filtering, AreSoundTogether, GoOn, HaveGained};
ghost use Rattle.toid_filter.specs.Laws.{AreTaken, AreTakenByChampions, HasPassed, HavePassed, IsKnownToChampion, Waits};
ghost use Rattle.cz_base.specs.declared.limits.TheConstants.{DATACENTRES, MEMBERS};

/// What a take leaves is determined: it is the one filter that the record leads to.
pub fn takes_are_determined()
    ensures { (f g : FilterState) (r : Record) (v : Verdict) → IsTaken f r v g → g ≡ with_record f r }
{}

/// What a filter keeps between its calls makes it sound.
pub fn steady_filters_are_sound()
    ensures { (f : FilterState) → IsSteady f → IsSound f }
{}

/// A filter stays sound over any list of takes.
pub fn takes_keep_filters_sound()
    ensures { (f g : FilterState) (rs : List Record) (vs : List Verdict) → IsSteady f → AreTaken f rs vs g → IsSteady g × IsSound g }
{}

/// Over any list of takes a filter passes each number at most once, and those of one host in rising order.
pub fn numbers_pass_once_and_in_order()
    ensures { (f g : FilterState) (rs : List Record) (vs : List Verdict) → IsSteady f → AreTaken f rs vs g → (gained : List Record) × HasPassed f g gained }
{}

/// Nothing is lost: after any list of takes each record taken was passed or is held.
pub fn nothing_is_lost()
    ensures { (f g : FilterState) (rs : List Record) (vs : List Verdict) → IsSteady f → AreTaken f rs vs g → All (λ r. is_known g r.host r.toid ≡ true) rs }
{}

/// What a filter holds waits: as soon as the smaller own numbers were passed and no mark is in the way, it is passed.
pub fn held_records_wait()
    ensures { (f : FilterState) → IsSound f → All (Waits f) f.held }
{}

/// The filters that a datacentre begins with are sound together.
pub fn new_filters_are_sound()
    ensures { (dcs filters : ℕ) (fs : List FilterState) → 1 ≤ dcs → dcs ≤ DATACENTRES → 1 ≤ filters → length fs ≡ filters → ((i : ℕ) → i < filters → filter_at fs i ≡ new_filter i (first_map dcs filters)) → AreSound (first_map dcs filters) None fs }
{}

/// All filters of a datacentre together pass no number twice.
pub fn one_filter_passes_a_number()
    ensures { (shares : List (List Share)) (announcement : Option Announcement) (fs : List FilterState) → AreSound shares announcement fs → (h t : ℕ) → sum_by (times_passed h t) fs ≤ 1 }
{}

/// All filters of a datacentre stay sound over any list of takes by the champions.
pub fn champions_keep_filters_sound()
    ensures { (shares : List (List Share)) (announcement : Option Announcement) (fs gs : List FilterState) (rs : List Record) → AreSound shares announcement fs → AreTakenByChampions shares fs rs gs → AreSound shares announcement gs }
{}

/// Over any list of takes by the champions all filters together pass each number at most once, and each filter those of
/// one host in rising order.
pub fn champions_pass_each_number_once()
    ensures { (shares : List (List Share)) (announcement : Option Announcement) (fs gs : List FilterState) (rs : List Record) → AreSound shares announcement fs → AreTakenByChampions shares fs rs gs → (gained : List (List Record)) × HavePassed fs gs gained }
{}

/// Nothing is lost: after any list of takes by the champions each record taken was passed or is held by its champion.
pub fn champions_lose_nothing()
    ensures { (shares : List (List Share)) (announcement : Option Announcement) (fs gs : List FilterState) (rs : List Record) → AreSound shares announcement fs → AreTakenByChampions shares fs rs gs → All (IsKnownToChampion shares gs) rs }
{}

/// Taking a record loses nothing: by every measure of items what the filter holds and passed on grows by the record, and
/// by nothing where it was dropped; and it passes on one record for each number that it passes.
pub fn taking_loses_nothing()
    ensures { (f g : FilterState) (r : Record) (v : Verdict) → IsSteady f → FitsFilter f r → IsTaken f r v g → LosesNothing f (added_by v r) [] (items_of f ++ External r ∷ []) g }
{}

/// Passing on a draft adds the draft, and nothing else.
pub fn taking_a_draft_loses_nothing()
    ensures { (f : FilterState) (draft : Draft) → LosesNothing f (λ measure. measure (Local draft)) [] (items_of f ++ Local draft ∷ []) (with_item f (Local draft)) }
{}

/// Forgetting a mark loses nothing.
pub fn cancelling_loses_nothing()
    ensures { (f : FilterState) → IsSteady f → LosesNothing f (λ _. 0) [] (items_of f ++ []) (cancelled f) }
{}

/// Taking the map that grew at the accepted mark loses nothing: what the filter does not own by it is handed out.
pub fn activating_loses_nothing()
    ensures { (f : FilterState) (mark : AcceptedMark) → IsSteady f → f.accepted ≡ Some mark → LosesNothing f (λ _. 0) (handed_out (grown f.map mark.host mark.from) f) (items_of f ++ []) (activated (grown f.map mark.host mark.from) f) }
{}

/// The filters stay sound when one filter more is announced for a host.
pub fn announcing_keeps_filters_sound()
    ensures { (shares : List (List Share)) (fs : List FilterState) (h mark : ℕ) → AreSound shares None fs → h < length shares → (last_share shares h).start < mark → (last_share shares h).filters < MEMBERS → AreSound shares (Some (record { host = h; mark = mark; next = 0 })) fs }
{}

/// They stay sound when the next one accepts the mark, where it passed no number of the host at or above it.
pub fn accepting_keeps_filters_sound()
    ensures { (shares : List (List Share)) (a : Announcement) (fs : List FilterState) → AreSound shares (Some a) fs → a.next < length fs → is_past a.host a.mark (filter_at fs a.next) ≡ false → AreSound shares (Some (asked_next a)) (accepted_next a fs) }
{}

/// They stay sound when all of them forget the mark.
pub fn cancelling_keeps_filters_sound()
    ensures { (shares : List (List Share)) (announcement : Option Announcement) (fs : List FilterState) → AreSound shares announcement fs → AreSound shares None (map cancelled fs) }
{}

/// They stay sound, by the grown map, when all accepted the mark and take that map, with one filter more where it is needed;
/// and there are no more than members may be.
pub fn activating_keeps_filters_sound()
    ensures sound { (shares : List (List Share)) (a : Announcement) (fs : List FilterState) → AreSound shares (Some a) fs → length fs ≤ a.next → AreSound (grown_by a shares) None (filters_grown a shares fs) }
    ensures few { (shares : List (List Share)) (a : Announcement) (fs : List FilterState) → AreSound shares (Some a) fs → length fs ≤ a.next → length fs ≤ MEMBERS → length (filters_grown a shares fs) ≤ MEMBERS }
{}

/// Over any list of takes by the champions, announcements, acceptances, cancellations and activations the filters of a
/// datacentre stay sound together, all of them pass each number at most once, and each filter passes those of one host in rising
/// order.
pub fn growing_filters_pass_each_number_once()
    ensures sound { (z y : Filtering) (steps : List Filtering) → AreSoundTogether z → GoOn z steps y → AreSoundTogether y }
    ensures once { (z y : Filtering) (steps : List Filtering) → AreSoundTogether z → GoOn z steps y → (gained : List (List Record)) × HaveGained z.filters y.filters gained }
{}
