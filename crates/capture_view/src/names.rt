//! Which link a record names.

use crate::link::Link;
use crate::told::{LinkTold, Writer, link_told};
use crate::{Happened, RecordView, Said};
use amqp_perf::Performative;
use std::alloc::{AllocError, Global};
use std::collections::HashMap;

/// A handle on a channel of a connection.
#[derive(Clone, Copy, Debug, PartialEq, Eq, Hash)]
pub struct LinkKey {
    pub connection: u32,
    pub channel: u16,
    pub handle: u32,
}

/// A channel of a connection.
#[derive(Clone, Copy, Debug, PartialEq, Eq, Hash)]
pub struct ChannelKey {
    pub connection: u32,
    pub channel: u16,
}

/// A link, and the record of the attach that told it.
#[derive(Debug, Drop)]
struct Attached {
    number: u64,
    link: Link,
}

/// What the last attach of each handle told.
#[derive(Debug, Drop)]
pub struct Names {
    alloc: Global,
    attached: HashMap<LinkKey, Attached>,
    // The record of the last begin of each channel.
    begun: HashMap<ChannelKey, u64>,
}

impl Names {
    ghost use Rattle.std.specs.Prelude.{◌≡◌, ◌↔◌, List, [], IsTrue, IsSome, OnOk, option_and_then, option_map};
    ghost use Rattle.std.specs.Option.{option_copied};
    ghost use Rattle.capture_view.specs.Saying.{saying};
    ghost use Rattle.capture_view.specs.Viewed.{Viewed, viewed};
    ghost use Rattle.std.specs.HashMap.{get};
    ghost use Rattle.capture_view.specs.declared.names.ChannelKey.{ChannelKey};
    ghost use Rattle.capture_view.specs.declared.names.LinkKey.{LinkKey};
    ghost use Rattle.capture_view.specs.Told.{told_text};
    ghost use Rattle.capture_view.specs.Named.{attached_or, begun_or, channel_of, is_channel, is_link, last_begin, key_of, link_named, link_text};
    ghost use Rattle.capture_view.specs.Tables.{StandsFor, TakesOneMore, TakesSaid, attachment};

    /// Knows no link.
    pub fn new(alloc: Global) -> Names
        ensures { StandsFor result [] }
    {
        Names {
            alloc,
            attached: HashMap::new(alloc),
            begun: HashMap::new(alloc),
        }
    }

    /// Takes one record more. After an error a link or a begin of this record may not be known.
    pub fn take(&mut self, view: &RecordView<'_>) -> Result<(), AllocError>
        ensures { OnOk result (TakesOneMore self.old self.new (viewed view.now)) }
    {
        match view.happened {
            Happened::In(said) => self.take_said(
                view.number,
                view.connection,
                Writer::Client,
                said,
            ),
            Happened::Out(said) => self.take_said(
                view.number,
                view.connection,
                Writer::Router,
                said,
            ),
            Happened::Opened | Happened::Lost | Happened::Broken => Ok(()),
        }
    }

    /// Takes what the frame of a record says.
    fn take_said(
        &mut self,
        number: u64,
        connection: u32,
        writer: Writer,
        said: Said<'_>,
    ) -> Result<(), AllocError>
        ensures { OnOk result (TakesSaid self.old self.new number connection writer (saying said.entry)) }
    {
        let Said::Says {
            channel,
            performative,
            ..
        } = said
        else {
            return Ok(());
        };
        match performative {
            Performative::Begin(_) => self.begin(
                number,
                ChannelKey {
                    connection,
                    channel,
                },
            ),
            Performative::Attach(attach) => self.attach(
                number,
                LinkKey {
                    connection,
                    channel,
                    handle: attach.handle,
                },
                link_told(writer, &attach),
            ),
            _ => Ok(()),
        }
    }

    /// A session begins on the channel.
    fn begin(&mut self, number: u64, channel: ChannelKey) -> Result<(), AllocError>
        ensures begun { OnOk result ((q : ChannelKey) → get is_channel self.new.begun q ≡ begun_or (Some channel) number q (get is_channel self.old.begun q)) }
        ensures attached { self.new.attached ≡ self.old.attached }
    {
        self.begun.insert(channel, number)?;
        Ok(())
    }

    /// An attach tells this link of the handle.
    fn attach(&mut self, number: u64, key: LinkKey, told: LinkTold<'_>) -> Result<(), AllocError>
        ensures attached { OnOk result ((q : LinkKey) → option_map attachment (get is_link self.new.attached q)
            ≡ attached_or (Some (record { key = key; link = told_text told.entry })) number q (option_map attachment (get is_link self.old.attached q))) }
        ensures begun { self.new.begun ≡ self.old.begun }
    {
        let link = Link::new(self.alloc, &told)?;
        self.attached.insert(key, Attached { number, link })?;
        Ok(())
    }

    /// The link of a handle, where an attach of it was taken and no begin of its channel behind that.
    pub fn link(&self, key: LinkKey) -> Option<&Link>
        ensures { (past : List Viewed) → StandsFor self.now past → option_map link_text (option_copied result) ≡ link_named past key }
    {
        let attached = self.attached.get(&key)?;
        let channel = ChannelKey {
            connection: key.connection,
            channel: key.channel,
        };
        match self.begun.get(&channel) {
            Some(begun) if attached.number < *begun => None,
            _ => Some(&attached.link),
        }
    }

    /// The link that a record's frame names.
    pub fn named_by(&self, view: &RecordView<'_>) -> Option<LinkTold<'_>>
        ensures { (past : List Viewed) → StandsFor self.now past → option_map told_text result ≡ option_and_then (link_named past) (key_of (viewed view.now)) }
    {
        let key = key_of(view)?;
        let link = self.link(key)?;
        Some(link.told())
    }

    /// Whether a record's frame stands on a session that has begun.
    pub fn has_session_of(&self, view: &RecordView<'_>) -> bool
        ensures { (past : List Viewed) → StandsFor self.now past
            → IsTrue result ↔ IsSome (option_and_then (last_begin past) (channel_of (viewed view.now))) }
    {
        match view.happened {
            Happened::In(Said::Says { channel, .. }) | Happened::Out(Said::Says { channel, .. }) =>
                { self.has_session(view.connection, channel) }
            _ => false,
        }
    }

    /// Whether a begin of the channel was taken.
    pub fn has_session(&self, connection: u32, channel: u16) -> bool
        ensures { (past : List Viewed) → StandsFor self.now past
            → IsTrue result ↔ IsSome (last_begin past (record { connection = connection; channel = channel })) }
    {
        let key = ChannelKey {
            connection,
            channel,
        };
        self.begun.contains_key(&key)
    }
}

ghost use Rattle.std.specs.Prelude.{◌≡◌};
ghost use Rattle.capture_view.specs.Viewed.{viewed};
ghost use Rattle.capture_view.specs.Named.{key_of};

/// The handle that a record names: that of an attach, a flow of a link, a transfer or a detach.
pub fn key_of(view: &RecordView<'_>) -> Option<LinkKey>
    ensures { result ≡ key_of (viewed view.now) }
{
    let said = match view.happened {
        Happened::In(said) | Happened::Out(said) => said,
        Happened::Opened | Happened::Lost | Happened::Broken => return None,
    };
    let Said::Says {
        channel,
        performative,
        ..
    } = said
    else {
        return None;
    };
    let handle = match performative {
        Performative::Attach(attach) => attach.handle,
        Performative::Flow(flow) => flow.handle?,
        Performative::Transfer(transfer) => transfer.handle,
        Performative::Detach(detach) => detach.handle,
        _ => return None,
    };
    Some(LinkKey {
        connection: view.connection,
        channel,
        handle,
    })
}
