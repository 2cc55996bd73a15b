// Connections in memory, of which some calls fail.
ghost use Rattle.std.specs.Prelude.{◌≡◌, ◌<◌, ◌-◌, ◌^◌, ℕ, Option, Some, None, IfOk, [], map, All, length, option_map, is_some, IsSome};
ghost use Rattle.std.specs.Io.{ReadsAtMost, WritesAtMost};
ghost use Rattle.sheet_outside.specs.Causes.{HasCause};
ghost use Rattle.sheet_outside.specs.Memory.{uncalled, IsNextCall};
ghost use Rattle.sheet_outside.specs.Talk.{Talk, new_talk, ReceiveTakes, SendAdds, Same, Accepts};
ghost use Rattle.sheet_outside.specs.Doors.{Wire, IsFresh, coming_of, ended_of};

use crate::Failed;
use crate::calls::Calls;
use crate::link::{Link, SureLink};
use crate::listener::Listener;
use std::marker::Model;

/// A connection in memory, of which some calls fail. It tells its bytes until there is no memory, or until the number of a
/// call can't be stored.
#[derive(Drop)]
pub struct MemoryLink {
    bytes: SureLink,
    calls: Calls,
    receive_faults: u64,
    send_faults: u64,
    tells: bool,
}

impl Model for MemoryLink {
    ghost use Rattle.std.specs.Prelude.{None, if◌then◌else◌};
    ghost use Rattle.sheet_outside.specs.Doors.{Wire};

    ghost Value = { Wire };

    ghost view = { λ l. record { told = if l.tells then l.bytes else None; calls = l.calls; receive_faults = l.receive_faults; send_faults = l.send_faults } };
}

impl MemoryLink {
    /// Nothing was sent yet. Calls are counted from 1, receiving and sending together, and those in `fails` fail.
    pub fn new(content: Vec<u8>, fails: Vec<u64>) -> Self
        ensures { result ≡ record { told = Some (new_talk content.items); calls = uncalled fails.items; receive_faults = 0; send_faults = 0 } }
    {
        MemoryLink {
            bytes: SureLink::new(content),
            calls: Calls::new(fails),
            receive_faults: 0,
            send_faults: 0,
            tells: true,
        }
    }

    /// What was sent, where it is told.
    pub fn sent(&self) -> Option<&[u8]>
        ensures { option_map (λ b. b.now) result ≡ option_map (λ (t : Talk). t.sent) self.now.told }
    {
        if self.tells { self.bytes.sent() } else { None }
    }

    /// Whether it still tells.
    pub fn tells(&self) -> bool
        ensures { result ≡ is_some self.now.told }
    {
        self.tells && self.bytes.tells()
    }
}

impl Link for MemoryLink {
    ghost told = { λ l. l.told };

    ghost receive_faults = { λ l. l.receive_faults };

    ghost send_faults = { λ l. l.send_faults };

    fn receive(&mut self, piece: &mut [u8]) -> Result<usize, Failed>
        ensures bound { ReadsAtMost result piece.new }
        ensures bytes { ReceiveTakes self.old.told self.new.told result piece.new }
        ensures cause { HasCause self.old.receive_faults self.new.receive_faults result }
        ensures other { self.new.send_faults ≡ self.old.send_faults }
        ensures call { IsNextCall self.old.calls self.new.calls result }
        ensures tells { self.old.calls.made < 2 ^ 64 - 1 → IsSome self.old.told → IsSome self.new.told }
    {
        match self.calls.count() {
            Ok(true) => {}
            Ok(false) => self.tells = false,
            Err(Failed) => {
                self.receive_faults = self.receive_faults.saturating_add(1);
                return Err(Failed);
            }
        }
        self.bytes.receive(piece)
    }

    fn send(&mut self, piece: &[u8]) -> Result<usize, Failed>
        ensures bound { WritesAtMost result piece.now }
        ensures takes { IfOk result (λ count. 0 < length piece.now → 0 < count) }
        ensures bytes { SendAdds self.old.told self.new.told result piece.now }
        ensures cause { HasCause self.old.send_faults self.new.send_faults result }
        ensures other { self.new.receive_faults ≡ self.old.receive_faults }
        ensures call { IsNextCall self.old.calls self.new.calls result }
    {
        match self.calls.count() {
            Ok(true) => {}
            Ok(false) => self.tells = false,
            Err(Failed) => {
                self.send_faults = self.send_faults.saturating_add(1);
                return Err(Failed);
            }
        }
        self.bytes.send(piece)
    }
}

/// Connections in memory, with a listener of which some calls fail. It tells them until it gets back one that tells no
/// longer, until there is no memory, or until the number of a call can't be stored.
#[derive(Drop)]
pub struct MemoryListener {
    content: Vec<MemoryLink>,
    finished: Vec<MemoryLink>,
    calls: Calls,
    tells: bool,
}

impl Model for MemoryListener {
    ghost use Rattle.std.specs.Prelude.{Some, None, map, All, if◌then◌else◌};
    ghost use Rattle.sheet_outside.specs.Doors.{Hall, IsFresh, coming_of, ended_of};

    ghost Value = { Hall };

    ghost view = { λ l. record { told = if l.tells then Some (record { to_come = map coming_of l.content.items; finished = map ended_of l.finished.items }) else None; calls = l.calls } };

    ghost invariant = { λ l. All IsFresh l.content.items };
}

impl MemoryListener {
    /// The connections to come, in order, on which nothing was called yet. Calls of `listen` and `accept` are counted from
    /// 1, together, and those in `fails` fail.
    pub fn new(content: Vec<MemoryLink>, fails: Vec<u64>) -> Self
        requires { All IsFresh content.items }
        ensures { result ≡ record { told = Some (record { to_come = map coming_of content.items; finished = [] }); calls = uncalled fails.items } }
    {
        let finished = Vec::new(*content.allocator());
        MemoryListener {
            content,
            finished,
            calls: Calls::new(fails),
            tells: true,
        }
    }

    /// The finished connection at `k`.
    pub fn finished(&self, k: usize) -> Option<&MemoryLink> {
        self.finished.get(k)
    }
}

impl Listener for MemoryListener {
    type Conn = MemoryLink;

    ghost told = { λ l. l.told };

    ghost faults = { λ l. l.calls.faults };

    fn listen(&mut self, _port: u16) -> Result<(), Failed>
        ensures same { Same self.old.told self.new.told }
        ensures cause { HasCause self.old.calls.faults self.new.calls.faults result }
        ensures call { IsNextCall self.old.calls self.new.calls result }
        ensures tells { self.old.calls.made < 2 ^ 64 - 1 → IsSome self.old.told → IsSome self.new.told }
    {
        if !self.calls.count()? {
            self.tells = false;
        }
        Ok(())
    }

    fn accept(&mut self) -> Result<Option<MemoryLink>, Failed>
        ensures accepts { Accepts (λ (l : Wire). l.told) (λ (l : Wire). l.receive_faults) (λ (l : Wire). l.send_faults) self.old.told self.new.told result }
        ensures cause { HasCause self.old.calls.faults self.new.calls.faults result }
        ensures call { IsNextCall self.old.calls self.new.calls result }
        ensures tells { self.old.calls.made < 2 ^ 64 - 1 → IsSome self.old.told → IsSome self.new.told }
    {
        if !self.calls.count()? {
            self.tells = false;
        }
        if self.content.is_empty() {
            return Ok(None);
        }
        let link = self.content.remove(0);
        Ok(Some(link))
    }

    fn finish(&mut self, link: MemoryLink) {
        if !link.tells() || self.finished.push(link).is_err() {
            self.tells = false;
        }
    }
}
