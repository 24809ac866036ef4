//! A session goes on with its command.
ghost use Rattle.std.specs.Prelude.{◌≡◌, ◌<◌, ◌≤◌, ◌^◌, ℕ, true, List, Some, None, IfOk, IsSome, IsSomeAnd, OnErr, OnOk, length};
ghost use Rattle.causal_deps.specs.declared.record.Record.{Record as RecordValue};
ghost use Rattle.abstract_log.specs.declared.command.Command.{Command as CommandValue};
ghost use Rattle.hyksos.specs.Looking.{sight};
ghost use Rattle.hyksos.specs.Sessions.{AreCommands, HasFound, IsFoundAt, begun, is_look, next_command, next_index, next_keys, reading, replied, with_found};
ghost use Rattle.hyksos.specs.Shelves.{pin_of, with_pin};
ghost use Rattle.hyksos.specs.Turns.{IsAfterTurn, IsWriteTurn, look, look_turn, opened, read_turn, reply, found_at_pin, session_turn, turned, wait, write_turn};
ghost use Rattle.cz_base.specs.declared.limits.TheConstants.{SESSIONS};

use crate::looking::{Seen, list, look_up, read};
use crate::{Next, Session, SessionTurnDone, Shelf};
use abstract_log::{Answer, Command, Found, raise_answer};
use causal_deps::Pin;
use cz_base::{Lid, NoMemory};

impl Session {
    /// The session begins its next command, or goes on with the one that is open. A refused call changes neither
    /// the session nor what the shelf holds.
    pub fn try_next<V: Shelf>(&mut self, shelf: &mut V) -> Result<SessionTurnDone, NoMemory>
        requires number { self.old.number < SESSIONS }
        requires log { (log : List RecordValue) × V.shows shelf.old log }
        requires pin { pin_of (V.held shelf.old) self.old.number ≡ self.old.pin }
        ensures turned { (log : List RecordValue) → V.shows shelf.old log → HasFound log self.old → IfOk result (λ t. t ≡ turned log (V.held shelf.old) self.old) }
        ensures session { (log : List RecordValue) → V.shows shelf.old log → HasFound log self.old → OnOk result (self.new ≡ (session_turn log (V.held shelf.old) self.old).session) }
        ensures shelf { (log : List RecordValue) → V.shows shelf.old log → HasFound log self.old → OnOk result (V.held shelf.new ≡ (session_turn log (V.held shelf.old) self.old).shelf) }
        ensures log { (log : List RecordValue) → V.shows shelf.old log → V.shows shelf.new log }
        ensures refused { OnErr result ((self.new ≡ self.old) × (V.held shelf.new ≡ V.held shelf.old)) }
    {
        let opened = self.opened();
        let next = self.go(shelf)?;
        Ok(SessionTurnDone { opened, next })
    }

    // How far the command is after this turn.
    fn go<V: Shelf>(&mut self, shelf: &mut V) -> Result<Next, NoMemory>
        requires number { self.old.number < SESSIONS }
        requires log { (log : List RecordValue) × V.shows shelf.old log }
        requires pin { pin_of (V.held shelf.old) self.old.number ≡ self.old.pin }
        ensures ok { (log : List RecordValue) → V.shows shelf.old log → HasFound log self.old → IfOk result (λ next. IsAfterTurn (session_turn log (V.held shelf.old) self.old) next self.new (V.held shelf.new)) }
        ensures log { (log : List RecordValue) → V.shows shelf.old log → V.shows shelf.new log }
        ensures refused { OnErr result ((self.new ≡ self.old) × (V.held shelf.new ≡ V.held shelf.old)) }
    {
        match self.next() {
            None => Ok(Next::Finished),
            Some(Command::Append { .. }) => self.write(),
            Some(Command::Put { .. }) => self.write(),
            Some(Command::Del { .. }) => self.write(),
            Some(Command::Get { .. }) => self.look(shelf),
            Some(Command::Tx { .. }) => self.look(shelf),
            Some(Command::Read { lid }) => {
                let lid = *lid;
                self.read(shelf, lid)
            }
            Some(Command::Last { .. }) => self.look(shelf),
        }
    }

    // The number of the next command, if it is there and not open yet.
    fn opened(&self) -> Option<u32>
        ensures { result ≡ opened self.now }
    {
        if self.standing.begun || !self.unanswered() {
            return None;
        }
        Some(self.index())
    }

    // The draft of a write that is not open yet.
    fn write(&mut self) -> Result<Next, NoMemory>
        requires { IsSome (next_command self.old) }
        ensures ok { (c : CommandValue) → next_command self.old ≡ Some c → IfOk result (λ next. IsWriteTurn c self.old next self.new) }
        ensures refused { OnErr result (self.new ≡ self.old) }
    {
        let index = self.index();
        if self.standing.begun {
            return Ok(Next::Unacknowledged { index });
        }
        let draft = self.draft()?;
        self.standing.begun = true;
        match draft {
            Some(draft) => Ok(Next::Submitted(draft)),
            None => Ok(Next::Finished),
        }
    }

    // A read of a position is answered at the head.
    fn read<V: Shelf>(&mut self, shelf: &V, lid: Lid) -> Result<Next, NoMemory>
        requires next { IsSome (next_command self.old) }
        requires first { 1 ≤ lid }
        requires log { (log : List RecordValue) × V.shows shelf.now log }
        ensures ok { (log : List RecordValue) → V.shows shelf.now log → IfOk result (λ next. IsAfterTurn (read_turn log (V.held shelf.now) self.old lid) next self.new (V.held shelf.now)) }
        ensures refused { OnErr result (self.new ≡ self.old) }
    {
        let head = shelf.head();
        if head < self.standing.floor {
            return Ok(self.wait(head));
        }
        let shown = read(shelf, lid, head)?;
        Ok(self.reply(head, Answer::Read(shown)))
    }

    // A look-up goes on at its pin. Without one the head is pinned, unless that is too low.
    fn look<V: Shelf>(&mut self, shelf: &mut V) -> Result<Next, NoMemory>
        requires number { self.old.number < SESSIONS }
        requires log { (log : List RecordValue) × V.shows shelf.old log }
        requires pin { pin_of (V.held shelf.old) self.old.number ≡ self.old.pin }
        requires looks { IsSomeAnd (next_command self.old) (λ c. is_look c ≡ true) }
        ensures ok { (log : List RecordValue) (c : CommandValue) → V.shows shelf.old log → HasFound log self.old → next_command self.old ≡ Some c → IfOk result (λ next. IsAfterTurn (look_turn log (V.held shelf.old) self.old c) next self.new (V.held shelf.new)) }
        ensures log { (log : List RecordValue) → V.shows shelf.old log → V.shows shelf.new log }
        ensures refused { OnErr result ((self.new ≡ self.old) × (V.held shelf.new ≡ V.held shelf.old)) }
    {
        if let Some(s) = self.pin {
            return self.look_at(shelf, s);
        }
        let head = shelf.head();
        if head < self.standing.floor {
            return Ok(self.wait(head));
        }
        match shelf.pin(self.number, head) {
            Pin::BelowFloor { floor } => {
                self.standing.begun = true;
                Ok(Next::Below {
                    index: self.index(),
                    floor,
                })
            }
            Pin::Pinned => self.look_first(shelf, head),
        }
    }

    // The same at a position that was pinned just now. Where it is refused, the pin is given back.
    fn look_first<V: Shelf>(&mut self, shelf: &mut V, s: Lid) -> Result<Next, NoMemory>
        requires number { self.old.number < SESSIONS }
        requires log { (log : List RecordValue) × V.shows shelf.old log }
        requires pin { pin_of (V.held shelf.old) self.old.number ≡ Some s }
        requires looks { IsSomeAnd (next_command self.old) (λ c. is_look c ≡ true) }
        ensures ok { (log : List RecordValue) (c : CommandValue) → V.shows shelf.old log → IsFoundAt log s self.old → next_command self.old ≡ Some c → IfOk result (λ next. IsAfterTurn (look log c (V.held shelf.old) self.old s) next self.new (V.held shelf.new)) }
        ensures log { (log : List RecordValue) → V.shows shelf.old log → V.shows shelf.new log }
        ensures refused { OnErr result ((self.new ≡ self.old) × (V.held shelf.new ≡ with_pin self.old.number None (V.held shelf.old))) }
    {
        match self.look_at(shelf, s) {
            Ok(next) => Ok(next),
            Err(NoMemory) => {
                shelf.unpin(self.number);
                Err(NoMemory)
            }
        }
    }

    // A look-up goes on at the pinned position s.
    fn look_at<V: Shelf>(&mut self, shelf: &mut V, s: Lid) -> Result<Next, NoMemory>
        requires number { self.old.number < SESSIONS }
        requires log { (log : List RecordValue) × V.shows shelf.old log }
        requires pin { pin_of (V.held shelf.old) self.old.number ≡ Some s }
        requires looks { IsSomeAnd (next_command self.old) (λ c. is_look c ≡ true) }
        ensures ok { (log : List RecordValue) (c : CommandValue) → V.shows shelf.old log → IsFoundAt log s self.old → next_command self.old ≡ Some c → IfOk result (λ next. IsAfterTurn (look log c (V.held shelf.old) self.old s) next self.new (V.held shelf.new)) }
        ensures log { (log : List RecordValue) → V.shows shelf.old log → V.shows shelf.new log }
        ensures refused { OnErr result ((self.new ≡ self.old) × (V.held shelf.new ≡ V.held shelf.old)) }
    {
        match self.see(shelf, s)? {
            Seen::Behind { covered } => {
                self.read_on(s);
                Ok(Next::Behind {
                    index: self.index(),
                    covered,
                })
            }
            Seen::Key(found) => {
                self.add(found)?;
                Ok(self.go_on(shelf, s))
            }
            Seen::Whole => Ok(self.go_on(shelf, s)),
            Seen::Places(places) => Ok(self.give_back(shelf, s, Answer::Last(places))),
        }
    }

    // What the look-up sees at the pinned position s.
    fn see<V: Shelf>(&self, shelf: &V, s: Lid) -> Result<Seen, NoMemory>
        requires log { (log : List RecordValue) × V.shows shelf.now log }
        requires pin { pin_of (V.held shelf.now) self.now.number ≡ Some s }
        requires looks { IsSomeAnd (next_command self.now) (λ c. is_look c ≡ true) }
        ensures { (log : List RecordValue) (c : CommandValue) → V.shows shelf.now log → next_command self.now ≡ Some c → IfOk result (λ seen. seen ≡ sight log c (V.held shelf.now) (length self.now.found) s) }
    {
        match self.next() {
            Some(Command::Get { key }) => {
                if self.found.is_empty() {
                    look_up(shelf, key, s)
                } else {
                    Ok(Seen::Whole)
                }
            }
            Some(Command::Tx { keys }) => match keys.get(self.found.len()) {
                Some(key) => look_up(shelf, key, s),
                None => Ok(Seen::Whole),
            },
            Some(Command::Last { tag, count }) => list(shelf, tag, *count, s),
            Some(Command::Append { .. }) => unreachable!(),
            Some(Command::Put { .. }) => unreachable!(),
            Some(Command::Del { .. }) => unreachable!(),
            Some(Command::Read { .. }) => unreachable!(),
            None => unreachable!(),
        }
    }

    // One more key is found.
    fn add(&mut self, found: Found) -> Result<(), NoMemory>
        ensures ok { OnOk result (self.new ≡ with_found found self.old) }
        ensures refused { OnErr result (self.new ≡ self.old) }
    {
        self.found.push(found)?;
        Ok(())
    }

    // With what is found now, the command is answered where no key is left.
    fn go_on<V: Shelf>(&mut self, shelf: &mut V, s: Lid) -> Next
        requires number { self.old.number < SESSIONS }
        requires pin { IsSome (pin_of (V.held shelf.old) self.old.number) }
        requires next { IsSome (next_command self.old) }
        ensures taken { (log : List RecordValue) → IsFoundAt log s self.old → IsAfterTurn (found_at_pin log (next_keys self.old) (V.held shelf.old) self.old s self.old.found) result self.new (V.held shelf.new) }
        ensures log { (log : List RecordValue) → V.shows shelf.old log → V.shows shelf.new log }
    {
        let done = self.found.len();
        let of = self.keys();
        if done < of {
            self.read_on(s);
            return Next::Key {
                index: self.index(),
                done: done as u32,
                of: of as u32,
                at: s,
            };
        }
        let items = self.found.take();
        self.give_back(shelf, s, Answer::Items(items))
    }

    // How many keys the command looks up.
    fn keys(&self) -> usize
        ensures value { result ≡ length (next_keys self.now) }
        ensures few { result < 2 ^ 32 }
    {
        match self.next() {
            Some(Command::Get { .. }) => 1,
            Some(Command::Tx { keys }) => keys.len(),
            Some(Command::Last { .. }) => 0,
            Some(Command::Append { .. }) => 0,
            Some(Command::Put { .. }) => 0,
            Some(Command::Del { .. }) => 0,
            Some(Command::Read { .. }) => 0,
            None => 0,
        }
    }

    // The command is answered at the pinned position s, and the pin is given back.
    fn give_back<V: Shelf>(&mut self, shelf: &mut V, s: Lid, answer: Answer) -> Next
        requires number { self.old.number < SESSIONS }
        requires pin { IsSome (pin_of (V.held shelf.old) self.old.number) }
        requires next { IsSome (next_command self.old) }
        ensures taken { IsAfterTurn (reply (V.held shelf.old) self.old s answer) result self.new (V.held shelf.new) }
        ensures log { (log : List RecordValue) → V.shows shelf.old log → V.shows shelf.new log }
    {
        let number = self.number;
        shelf.unpin(number);
        self.reply(s, answer)
    }

    // The command is answered at a position.
    fn reply(&mut self, at: Lid, answer: Answer) -> Next
        requires { IsSome (next_command self.old) }
        ensures next { result ≡ Next.Replied (next_index self.old) at answer }
        ensures session { self.new ≡ replied answer at self.old }
    {
        let index = self.index();
        raise_answer(&mut self.standing.past, &answer);
        self.standing.answered = index;
        self.standing.begun = false;
        self.standing.floor = at;
        self.pin = None;
        let _found = self.found.take();
        Next::Replied { index, at, answer }
    }

    // The command is open, and waits for the head to reach what the session has seen.
    fn wait(&mut self, head: Lid) -> Next
        requires { IsSome (next_command self.old) }
        ensures next { result ≡ Next.Waiting (next_index self.old) self.old.standing.floor head }
        ensures session { self.new ≡ begun self.old }
    {
        self.standing.begun = true;
        Next::Waiting {
            index: self.index(),
            floor: self.standing.floor,
            head,
        }
    }

    // The command is open, and reads on at s.
    fn read_on(&mut self, s: Lid)
        ensures { self.new ≡ reading s self.old.found self.old }
    {
        self.standing.begun = true;
        self.pin = Some(s);
    }
}
