// Connections.
ghost use Rattle.std.specs.Prelude.{◌≡◌, ◌<◌, ◌-◌, ◌^◌, List, ℕ, ◌≤◌, Option, Some, None, IfOk, take, drop, length, vec_len, if◌then◌else◌, option_map, is_some, IsSome};
ghost use Rattle.std.specs.Io.{ReadsAtMost, WritesAtMost};
ghost use Rattle.sheet_outside.specs.Causes.{HasCause};
ghost use Rattle.sheet_outside.specs.Talk.{Talk, new_talk, ReceiveTakes, SendAdds};

use crate::Failed;
use std::marker::Model;

/// A connection.
pub trait Link {
    /// The bytes left, received and sent, where the connection tells them.
    ghost told: { Self → Option Talk };

    /// How often receiving has failed, and how often sending has. The counts never fall.
    ghost receive_faults: { Self → ℕ };

    ghost send_faults: { Self → ℕ };

    /// Fills the front of the piece from the front of the bytes that are left, and answers how many bytes it gave.
    /// 0 for a piece that isn't empty is the end. A call that fails takes no byte.
    fn receive(&mut self, piece: &mut [u8]) -> Result<usize, Failed>
        ensures bound { ReadsAtMost result piece.new }
        ensures bytes { ReceiveTakes (told self.old) (told self.new) result piece.new }
        ensures cause { HasCause (receive_faults self.old) (receive_faults self.new) result }
        ensures other { send_faults self.new ≡ send_faults self.old };

    /// Sends the front of the piece, and some of it where there is some. A call that fails sends no byte.
    fn send(&mut self, piece: &[u8]) -> Result<usize, Failed>
        ensures bound { WritesAtMost result piece.now }
        ensures takes { IfOk result (λ count. 0 < length piece.now → 0 < count) }
        ensures bytes { SendAdds (told self.old) (told self.new) result piece.now }
        ensures cause { HasCause (send_faults self.old) (send_faults self.new) result }
        ensures other { receive_faults self.new ≡ receive_faults self.old };
}

/// A connection in memory. It never fails: where there is no memory, it tells its bytes no longer.
/// Seen as what it tells.
#[derive(Drop)]
pub struct SureLink {
    content: Vec<u8>,
    at: usize,
    sent: Vec<u8>,
    tells: bool,
}

impl Model for SureLink {
    ghost use Rattle.std.specs.Prelude.{Option, Some, None, take, drop, vec_len, ◌≤◌, if◌then◌else◌};
    ghost use Rattle.sheet_outside.specs.Talk.{Talk};

    ghost Value = { Option Talk };

    ghost view = { λ l. if l.tells then Some (record { left = drop l.at l.content.items; received = take l.at l.content.items; sent = l.sent.items }) else None };

    ghost invariant = { λ l. l.at ≤ vec_len l.content };
}

impl SureLink {
    /// Nothing was sent yet.
    pub fn new(content: Vec<u8>) -> Self
        ensures { result ≡ Some (new_talk content.items) }
    {
        let sent = Vec::new(*content.allocator());
        SureLink {
            content,
            at: 0,
            sent,
            tells: true,
        }
    }

    /// What was sent, where it is told.
    pub fn sent(&self) -> Option<&[u8]>
        ensures { option_map (λ b. b.now) result ≡ option_map (λ (t : Talk). t.sent) self.now }
    {
        if self.tells {
            Some(self.sent.as_slice())
        } else {
            None
        }
    }

    /// Whether it still tells.
    pub fn tells(&self) -> bool
        ensures { result ≡ is_some self.now }
    {
        self.tells
    }
}

impl Link for SureLink {
    ghost told = { λ s. s };

    ghost receive_faults = { λ _. 0 };

    ghost send_faults = { λ _. 0 };

    fn receive(&mut self, piece: &mut [u8]) -> Result<usize, Failed>
        ensures bound { ReadsAtMost result piece.new }
        ensures bytes { ReceiveTakes self.old self.new result piece.new }
        ensures cause { HasCause 0 0 result }
        ensures other { ◌≡◌ {A = ℕ} 0 0 }
        ensures tells { IsSome self.old → IsSome self.new }
    {
        let (_, rest) = self.content.split_at(self.at);
        let count = piece.len().min(rest.len());
        let (front, _) = rest.split_at(count);
        piece[..count].copy_from_slice(front);
        self.at += count;
        Ok(count)
    }

    fn send(&mut self, piece: &[u8]) -> Result<usize, Failed> {
        if self.sent.extend_from_slice(piece).is_err() {
            self.tells = false;
        }
        Ok(piece.len())
    }
}
