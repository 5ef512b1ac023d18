//! Where windows and credits come from, on all connections.

use crate::link::LinkOrigin;
use crate::session::{Opened, SessionOrigin};
use amqp_perf::{Begin, Performative};
use capture_view::{ChannelKey, Happened, RecordView, Said};
use std::alloc::{AllocError, Global};
use std::collections::HashMap;

/// Where windows and credits come from, of the sessions and links that live.
#[derive(Debug, Drop)]
pub struct Origins {
    alloc: Global,
    // The client's last begin on each channel.
    begins: HashMap<ChannelKey, Opened>,
    sessions: HashMap<ChannelKey, SessionOrigin>,
}

impl Origins {
    ghost use Rattle.std.specs.Prelude.{◌≡◌, ℕ, List, [], Some, None, OnOk, option_map};
    ghost use Rattle.std.specs.Option.{option_copied};
    ghost use Rattle.amqp_perf.specs.View.{view};
    ghost use Rattle.capture_view.specs.declared.names.ChannelKey.{ChannelKey};
    ghost use Rattle.capture_view.specs.Saying.{saying};
    ghost use Rattle.capture_view.specs.Viewed.{In, Out, Viewed, viewed};
    ghost use Rattle.refusal_words.specs.Session.{AnyEnd, OurBegin, TheirBegin, event_by, heard, session_of, session_events, written};
    ghost use Rattle.refusal_words.specs.Link.{Over, heard_of_link, link_by, link_past, written_of_link};
    ghost use Rattle.refusal_words.specs.Tables.{MovesChannel, MovesTo, StandsFor, TakesOneMore, link_told, session_told};

    /// No records.
    pub fn new(alloc: Global) -> Origins
        ensures { StandsFor result [] }
    {
        Origins {
            alloc,
            begins: HashMap::new(alloc),
            sessions: HashMap::new(alloc),
        }
    }

    /// The record follows those so far.
    ///
    /// # Errors
    ///
    /// Memory was refused; then a session or a link that this record begins may not be known.
    pub fn take(&mut self, view: &RecordView<'_>) -> Result<(), AllocError>
        ensures { OnOk result (TakesOneMore self.old self.new (viewed view.now)) }
    {
        match view.happened {
            Happened::In(said) => self.take_in(view.number, view.connection, said),
            Happened::Out(said) => self.take_out(view.number, view.connection, said),
            Happened::Opened | Happened::Lost | Happened::Broken => Ok(()),
        }
    }

    /// What a frame of the client says.
    fn take_in(&mut self, number: u64, connection: u32, said: Said<'_>) -> Result<(), AllocError>
        ensures { OnOk result (MovesTo (λ q. event_by q number connection (In (saying said.entry))) (λ q handle. link_by q handle number connection (In (saying said.entry))) self.old self.new) }
    {
        let Said::Says {
            channel,
            performative,
            ..
        } = said
        else {
            return Ok(());
        };
        let key = ChannelKey {
            connection,
            channel,
        };
        self.hear(number, key, &performative)
    }

    /// What a frame of the router says.
    fn take_out(&mut self, number: u64, connection: u32, said: Said<'_>) -> Result<(), AllocError>
        ensures { OnOk result (MovesTo (λ q. event_by q number connection (Out (saying said.entry))) (λ q handle. link_by q handle number connection (Out (saying said.entry))) self.old self.new) }
    {
        let Said::Says {
            channel,
            performative,
            ..
        } = said
        else {
            return Ok(());
        };
        let key = ChannelKey {
            connection,
            channel,
        };
        self.write(number, key, &performative)
    }

    /// A performative of the client.
    fn hear(
        &mut self,
        number: u64,
        key: ChannelKey,
        performative: &Performative,
    ) -> Result<(), AllocError>
        ensures { OnOk result (MovesChannel key (heard number (view performative.now)) (λ handle. heard_of_link handle number (view performative.now)) self.old self.new) }
    {
        match performative {
            Performative::Begin(begin) => self.open(number, key, begin)?,
            Performative::End(_) => self.end(key),
            _ => {
                if let Some(session) = self.sessions.get_mut(&key) {
                    session.hear(number, performative);
                }
            }
        }
        Ok(())
    }

    /// A performative of the router.
    fn write(
        &mut self,
        number: u64,
        key: ChannelKey,
        performative: &Performative,
    ) -> Result<(), AllocError>
        ensures { OnOk result (MovesChannel key (written number (view performative.now)) (λ handle. written_of_link handle number (view performative.now)) self.old self.new) }
    {
        match performative {
            Performative::Begin(_) => self.begin(number, key)?,
            Performative::End(_) => self.end(key),
            _ => {
                if let Some(session) = self.sessions.get_mut(&key) {
                    session.write(self.alloc, number, performative)?;
                }
            }
        }
        Ok(())
    }

    /// The client's begin.
    fn open(&mut self, number: u64, key: ChannelKey, begin: &Begin) -> Result<(), AllocError>
        ensures { OnOk result (MovesChannel key (Some (TheirBegin number begin.now)) (λ handle. None) self.old self.new) }
    {
        let opened = Opened {
            number,
            incoming_window: begin.incoming_window,
        };
        self.begins.insert(key, opened)?;
        Ok(())
    }

    /// The router's begin.
    fn begin(&mut self, number: u64, key: ChannelKey) -> Result<(), AllocError>
        ensures { OnOk result (MovesChannel key (Some (OurBegin number)) (λ handle. Some Over) self.old self.new) }
    {
        let opened = self.begins.get(&key).copied();
        let session = SessionOrigin::new(self.alloc, number, opened);
        self.sessions.insert(key, session)?;
        Ok(())
    }

    /// An end in either direction.
    fn end(&mut self, key: ChannelKey)
        ensures { MovesChannel key (Some AnyEnd) (λ handle. Some Over) self.old self.new }
    {
        self.sessions.remove(&key);
    }

    /// Where the window of the session comes from that the router began last on the channel, if no end stands there since.
    pub fn session(&self, connection: u32, channel: u16) -> Option<&SessionOrigin>
        ensures { (past : List Viewed) → StandsFor self.now past
            → option_map session_told (option_copied result) ≡ session_of (session_events (record { connection = connection; channel = channel }) past) }
    {
        self.sessions.get(&ChannelKey {
            connection,
            channel,
        })
    }

    /// Where the credit of the link comes from that the router attached last to the handle on that session, if no detach
    /// stands there since.
    pub fn link(&self, connection: u32, channel: u16, handle: u32) -> Option<&LinkOrigin>
        ensures { (past : List Viewed) → StandsFor self.now past
            → option_map link_told (option_copied result) ≡ link_past (record { connection = connection; channel = channel }) handle past }
    {
        let key = ChannelKey {
            connection,
            channel,
        };
        self.sessions.get(&key)?.link(handle)
    }
}
