// The five lent buffers of a session, borrowed together: to read it, and to push into it.
ghost use Rattle.std.specs.Prelude.{◌≡◌, length};
ghost use Rattle.isdb_mmt.specs.Memory.Layout.{table_ids};
ghost use Rattle.isdb_mmt.specs.Memory.Lending.{lent_by, lent_mut, session_asked};
ghost use Rattle.isdb_mmt.specs.Memory.Octets.{Lent};

use crate::decoder::limits::Lengths;
use crate::decoder::refusal::Refusal;
use crate::decoder::{check, place};

#[derive(Clone, Copy)]
pub struct Session<'a> {
    pub state: &'a [u8],
    pub others: &'a [u64; 256],
    pub objects: &'a [u8],
    pub messages: &'a [u8],
    pub tables: &'a [u8],
}

impl<'a> Session<'a> {
    // Question 5.
    pub(crate) fn is_session(self) -> Result<(), Refusal>
        ensures { result ≡ session_asked (lent_by self.entry) }
    {
        let lengths = Lengths {
            state: self.state.len() as u64,
            objects: self.objects.len() as u64,
            messages: self.messages.len() as u64,
            tables: self.tables.len() as u64,
        };
        let others = self.others;
        if check::ready(self.state, others, lengths) {
            return Ok(());
        }
        Err(Refusal::NotASession)
    }
}

// A session as it is pushed into. What takes one leaves its buffers in their places.
#[derive(Drop)]
pub struct SessionMut<'a> {
    pub state: &'a mut [u8],
    pub others: &'a mut [u64; 256],
    pub objects: &'a mut [u8],
    pub messages: &'a mut [u8],
    pub tables: &'a mut [u8],
}

impl SessionMut<'_> {
    // The same, to be read.
    pub fn read(&self) -> Session<'_>
        ensures { lent_by result ≡ lent_mut self.now }
    {
        Session {
            state: self.state,
            others: self.others,
            objects: self.objects,
            messages: self.messages,
            tables: self.tables,
        }
    }

    // What the buffers' types say: they are bytes, and there is a count for each table id.
    pub(crate) fn typed(&self)
        ensures bytes { Lent (lent_mut self.now) }
        ensures counts { length (lent_mut self.now).others ≡ table_ids }
    {
        let session = self.read();
        let others = session.others;
        let counts: &[u64] = others;
        place::octets(session.state);
        place::octets(session.objects);
        place::octets(session.messages);
        place::octets(session.tables);
    }
}
