//! Marks, epochs and heads: what passes know of the datacentres' logs without the turn.
ghost use Rattle.std.specs.Prelude.{◌≡◌, ℕ, ◌+◌, ◌<◌, ◌≤◌, ◌∷◌, ◌↔◌, ◌++◌, length, Some, true, IsTrue, IfOk, OnErr};
ghost use Rattle.cz_base.specs.declared.limits.TheConstants.{MEMBERS, NUMBERS_END};
ghost use Rattle.flstore_rounds.specs.Epochs.{IsEpochList, last_epoch, with_epoch};
ghost use Rattle.flstore_rounds.specs.Heads.{head};
ghost use Rattle.journal_lock.specs.declared.duty.Duty.TheVariants.{Maintainer, Token};
ghost use Rattle.journal_lock.specs.declared.law.Note.TheVariants.{Found};
ghost use Rattle.journal_lock.specs.Duties.{datacentre, has, stamped, Has};
ghost use Rattle.journal_lock.specs.Words.{mark_word, epoch_word, code};
ghost use Rattle.journal_lock.specs.Finds.{best, read_notes};
ghost use Rattle.journal_lock.specs.Marks.{MayRise, decoded};
ghost use Rattle.journal_lock.specs.Heads.{IsTold, is_end, known_list, known_marks, risen_notes, settled, tell_notes};
ghost use Rattle.journal_lock.specs.Listing.{IsListed, marks_found};

use crate::law::{Look, Planned, Raise, Read, See, Tell, Write};
use crate::lock::{JournalLock, Pass};
use crate::row::EpochRow;
use crate::words::{epoch_place, from_word, mark_place, to_word};
use cz_base::limits::MEMBERS;
use cz_base::{DcId, Lid, NoMemory};
use flstore_rounds::{Epoch, Epochs, head_of};
use std::marker::Brand;

impl JournalLock {
    /// A mark of a maintainer, no less than the pass knew, and just that where it has the maintainer's duty. The pass
    /// notes it.
    pub fn load_mark(&self, pass: &mut Pass, dc: DcId, member: u32) -> Lid
        requires lock { pass.old.table ≡ self.now.table }
        requires member { member < MEMBERS }
        ensures no_less { best (mark_word dc member) pass.old.notes ≤ result }
        ensures own { Has (Maintainer dc member) pass.old.duties → result ≡ best (mark_word dc member) pass.old.notes }
        ensures noted { pass.new ≡ record pass.old { notes = Found (mark_word dc member) result ∷ pass.old.notes } }
    {
        let word = mark_place(dc, member);
        self.table.shared.load::<Look>(&mut pass.seat, word)
    }

    /// Raises the mark of a maintainer, to at most one more than the length of its log. The pass has placed each of the
    /// maintainer's positions below it, and knows that they stay its own. The pass notes the mark, and that it is told
    /// with the epochs that the pass knows.
    pub fn raise_mark(&self, pass: &mut Pass, dc: DcId, member: u32, mark: Lid)
        requires lock { pass.old.table ≡ self.now.table }
        requires member { member < MEMBERS }
        requires duty { Has (Maintainer dc member) pass.old.duties }
        requires within { mark ≤ has datacentre dc (stamped pass.old.seen) + 1 }
        requires placed { MayRise self.now.round dc member mark pass.old.notes pass.old.placed }
        ensures { pass.new ≡ record pass.old { notes = risen_notes self.now.round dc member mark pass.old.notes } }
    {
        self.raise_by::<Brand>(pass, dc, member, mark);
    }

    fn raise_by<C: Planned>(&self, pass: &mut Pass, dc: DcId, member: u32, mark: Lid)
        requires lock { pass.old.table ≡ self.now.table }
        requires plan { C.round ≡ self.now.round }
        requires member { member < MEMBERS }
        requires duty { Has (Maintainer dc member) pass.old.duties }
        requires within { mark ≤ has datacentre dc (stamped pass.old.seen) + 1 }
        requires placed { MayRise self.now.round dc member mark pass.old.notes pass.old.placed }
        ensures { pass.new ≡ record pass.old { notes = risen_notes self.now.round dc member mark pass.old.notes } }
    {
        let word = mark_place(dc, member);
        self.table
            .shared
            .fetch_max::<Raise<C>>(&mut pass.seat, word, mark);
    }

    /// The epoch of a datacentre at this place, counted from 0, where there is one. It is the one that the pass knew,
    /// if it knew one, and just what the pass knew where it has the token's duty. The pass notes it, and where there is
    /// none, that later ones start above what it has seen of the log.
    pub fn load_epoch(&self, pass: &mut Pass, dc: DcId, at: usize) -> Option<Epoch>
        requires lock { pass.old.table ≡ self.now.table }
        requires at { at < MEMBERS }
        ensures no_less { 0 < best (epoch_word dc at) pass.old.notes → code result ≡ best (epoch_word dc at) pass.old.notes }
        ensures own { Has (Token dc) pass.old.duties → code result ≡ best (epoch_word dc at) pass.old.notes }
        ensures noted { pass.new ≡ record pass.old { notes = read_notes (epoch_word dc at) (has datacentre dc (stamped pass.old.seen)) (code result) ++ pass.old.notes } }
    {
        let word = self
            .table
            .shared
            .load::<Read>(&mut pass.seat, epoch_place(dc, at));
        from_word(word)
    }

    /// The epoch goes last in the list of a datacentre. It starts above the last one and above every position that the
    /// log has, and has more members. The pass, which has the token and so knows the whole list, notes it.
    pub fn write_epoch(&self, pass: &mut Pass, dc: DcId, epoch: Epoch)
        requires lock { pass.old.table ≡ self.now.table }
        requires duty { Has (Token dc) pass.old.duties }
        requires after { (last_epoch (known_list self.now.round dc pass.old.notes)).start < epoch.start }
        requires above { has datacentre dc (stamped pass.old.seen) < epoch.start }
        requires more { (last_epoch (known_list self.now.round dc pass.old.notes)).members < epoch.members }
        requires within { (epoch.start < NUMBERS_END) × (epoch.members ≤ MEMBERS) }
        ensures noted { pass.new ≡ record pass.old { notes = Found (epoch_word dc (length (known_list self.now.round dc pass.old.notes).list)) (code (Some epoch)) ∷ pass.old.notes } }
        ensures last { known_list self.now.round dc pass.new.notes ≡ with_epoch (known_list self.now.round dc pass.old.notes) epoch }
    {
        for at in 0..MEMBERS {
            if self.holds_none::<Brand>(pass, dc, at) {
                self.store_epoch(pass, dc, at, epoch);
                return;
            }
        }
        unreachable!()
    }

    // Whether a datacentre has no epoch at this place, asked by who has its token.
    fn holds_none<C: Planned>(&self, pass: &mut Pass, dc: DcId, at: usize) -> bool
        requires lock { pass.old.table ≡ self.now.table }
        requires plan { C.round ≡ self.now.round }
        requires duty { Has (Token dc) pass.old.duties }
        requires at { at < MEMBERS }
        ensures same { pass.new ≡ pass.old }
        ensures none { IsTrue result ↔ (best (epoch_word dc at) pass.old.notes ≡ 0) }
        ensures rounds { IsEpochList (known_list self.now.round dc pass.old.notes) }
        ensures rest { IsTrue result → (k : ℕ) → at ≤ k → k < MEMBERS → best (epoch_word dc k) pass.old.notes ≡ 0 }
    {
        self.table
            .shared
            .load::<See<C>>(&mut pass.seat, epoch_place(dc, at))
            == 0
    }

    // The epoch goes to this place, the first at which the datacentre has none.
    fn store_epoch(&self, pass: &mut Pass, dc: DcId, at: usize, epoch: Epoch)
        requires lock { pass.old.table ≡ self.now.table }
        requires duty { Has (Token dc) pass.old.duties }
        requires at { (at < MEMBERS) × (at ≡ length (known_list self.now.round dc pass.old.notes).list) }
        requires rest { (k : ℕ) → at ≤ k → k < MEMBERS → best (epoch_word dc k) pass.old.notes ≡ 0 }
        requires after { (last_epoch (known_list self.now.round dc pass.old.notes)).start < epoch.start }
        requires above { has datacentre dc (stamped pass.old.seen) < epoch.start }
        requires more { (last_epoch (known_list self.now.round dc pass.old.notes)).members < epoch.members }
        requires within { (epoch.start < NUMBERS_END) × (epoch.members ≤ MEMBERS) }
        ensures noted { pass.new ≡ record pass.old { notes = Found (epoch_word dc at) (code (Some epoch)) ∷ pass.old.notes } }
        ensures last { known_list self.now.round dc pass.new.notes ≡ with_epoch (known_list self.now.round dc pass.old.notes) epoch }
    {
        self.table
            .shared
            .store::<Write>(&mut pass.seat, epoch_place(dc, at), to_word(epoch));
    }

    /// The epochs of a datacentre, no fewer than the pass was told, and just those that it knew where it has the
    /// token's duty. The pass notes them, and that they are told with the marks that it knew.
    pub fn load_epochs(&self, pass: &mut Pass, dc: DcId) -> Result<Epochs, NoMemory>
        requires lock { pass.old.table ≡ self.now.table }
        requires dc { dc < self.now.workload.dcs }
        ensures ok { IfOk result (λ epochs. IsListed self.now dc pass.old pass.new epochs) }
        ensures own { IfOk result (λ epochs. Has (Token dc) pass.old.duties → epochs ≡ known_list self.now.round dc pass.old.notes) }
        ensures err { OnErr result (pass.new ≡ pass.old) }
    {
        let mut list = Vec::with_capacity(self.plan.maintainers.alloc(), MEMBERS)?;
        let row = self.load_row(pass, dc);
        for epoch in row.as_slice() {
            list.push_reserved(*epoch);
        }
        Ok(Epochs::from_list(self.plan.round, list))
    }

    /// The head of a datacentre's log by its marks and its epochs as they are found, first those and then these. It is no
    /// lower than any that the pass was told, and the head of all that the pass is then told.
    pub fn load_head(&self, pass: &mut Pass, dc: DcId) -> Lid
        requires lock { pass.old.table ≡ self.now.table }
        requires dc { dc < self.now.workload.dcs }
        ensures value { result ≡ head (settled self.now.round dc pass.new.notes) }
        ensures no_less { head (settled self.now.round dc pass.old.notes) ≤ result }
        ensures kept { pass.new ≡ record pass.old { notes = pass.new.notes } }
    {
        let marks = self.load_marks(pass, dc);
        let row = self.load_row(pass, dc);
        head_of(self.plan.round, row.as_slice(), &marks)
    }

    // The marks of a datacentre, which the pass notes.
    fn load_marks(&self, pass: &mut Pass, dc: DcId) -> [Lid; MEMBERS]
        requires { pass.old.table ≡ self.now.table }
        ensures noted { pass.new ≡ record pass.old { notes = marks_found dc result pass.old.notes } }
        ensures known { result ≡ known_marks dc pass.new.notes }
    {
        let mut marks = [0; MEMBERS];
        for member in 0..MEMBERS {
            marks[member] = self.load_mark(pass, dc, member as u32);
        }
        marks
    }

    // The epochs of a datacentre, one word after another up to the first that holds none.
    fn load_row(&self, pass: &mut Pass, dc: DcId) -> EpochRow
        requires lock { pass.old.table ≡ self.now.table }
        requires dc { dc < self.now.workload.dcs }
        ensures listed { IsListed self.now dc pass.old pass.new (record { round = self.now.round; list = result }) }
        ensures rounds { IsEpochList (record { round = self.now.round; list = result }) }
        ensures own { Has (Token dc) pass.old.duties → record { round = self.now.round; list = result } ≡ known_list self.now.round dc pass.old.notes }
    {
        let mut row = EpochRow::new();
        for at in 0..MEMBERS {
            match self.tell_epoch::<Brand>(pass, dc, at) {
                Some(epoch) => row.push(epoch),
                None => return row,
            }
        }
        row
    }

    // The epoch at this place, where the pass knows those before it. Where the list ends there, the pass is told it.
    fn tell_epoch<C: Planned>(&self, pass: &mut Pass, dc: DcId, at: usize) -> Option<Epoch>
        requires lock { pass.old.table ≡ self.now.table }
        requires plan { (C.load ≡ self.now.workload) × (C.round ≡ self.now.round) }
        requires at { at < MEMBERS }
        requires before { (k : ℕ) → k < at → 0 < best (epoch_word dc k) pass.old.notes }
        ensures known { 0 < best (epoch_word dc at) pass.old.notes → code result ≡ best (epoch_word dc at) pass.old.notes }
        ensures own { Has (Token dc) pass.old.duties → code result ≡ best (epoch_word dc at) pass.old.notes }
        ensures noted { pass.new ≡ record pass.old { notes = tell_notes self.now.round (epoch_word dc at) (has datacentre dc (stamped pass.old.seen)) (code result) pass.old.notes } }
        ensures decoded { result ≡ decoded (code result) }
        ensures told { is_end (epoch_word dc at) (code result) ≡ true → IsTold self.now.round self.now.workload.dcs dc (read_notes (epoch_word dc at) (has datacentre dc (stamped pass.old.seen)) (code result) ++ pass.old.notes) }
    {
        let word = self
            .table
            .shared
            .load::<Tell<C>>(&mut pass.seat, epoch_place(dc, at));
        from_word(word)
    }
}
