//! The links of a capture, with what came of their deliveries.

use crate::deliveries::Part;
use crate::row::{Delivery, Row};
use crate::waiting::ToSend;
use amqp_perf::{Attach, Performative};
use capture_view::{
    Happened, Ids, Link, LinkKey, RecordView, Said, Scope, Sender, Writer, link_told,
};
use std::alloc::{AllocError, Global};
use std::collections::{HashMap, HashSet};

/// Connections, sessions and links of the records so far.
#[derive(Debug, Drop)]
pub(crate) struct Links {
    alloc: Global,
    pub(crate) connections: HashSet<u32>,
    pub(crate) sessions: u64,
    pub(crate) rows: Vec<Row>,
    /// The number of the link that each handle has, in the order in which the router attached them.
    pub(crate) live: HashMap<LinkKey, usize>,
    /// The undecided deliveries.
    pub(crate) ids: Ids<Delivery>,
    /// The deliveries of clients that are to be sent on, each by the record of its first transfer.
    pub(crate) to_send: HashMap<u64, ToSend>,
}

impl Links {
    /// Of no records.
    pub(crate) fn new(alloc: Global) -> Links {
        Links {
            alloc,
            connections: HashSet::new(alloc),
            sessions: 0,
            rows: Vec::new(alloc),
            live: HashMap::new(alloc),
            ids: Ids::new(alloc),
            to_send: HashMap::new(alloc),
        }
    }

    /// Takes one record more. After an error what its frame says may not count.
    pub(crate) fn take(&mut self, view: &RecordView<'_>) -> Result<(), AllocError> {
        self.connections.insert(view.connection)?;
        match view.happened {
            Happened::In(said) => self.take_said(view, Writer::Client, said),
            Happened::Out(said) => self.take_said(view, Writer::Router, said),
            Happened::Opened | Happened::Lost | Happened::Broken => Ok(()),
        }
    }

    fn take_said(
        &mut self,
        view: &RecordView<'_>,
        writer: Writer,
        said: Said<'_>,
    ) -> Result<(), AllocError> {
        let Said::Says {
            channel,
            performative,
            rest,
        } = said
        else {
            return Ok(());
        };
        let connection = view.connection;
        match performative {
            Performative::Begin(_) => self.begin(connection, channel, writer),
            Performative::Attach(attach) => {
                return self.attach(connection, channel, writer, &attach);
            }
            Performative::Transfer(transfer) => {
                let part = Part {
                    record: view.number,
                    connection,
                    channel,
                    writer,
                    transfer,
                    octets: rest.len(),
                };
                return self.take_transfer(&part, view.note);
            }
            Performative::Disposition(disposition) => {
                self.take_disposition(connection, channel, writer, &disposition);
            }
            _ => {}
        }
        Ok(())
    }

    /// Another session begins on the channel: ids of the one before name nothing any more.
    fn begin(&mut self, connection: u32, channel: u16, writer: Writer) {
        if writer == Writer::Client {
            return;
        }
        self.sessions = self.sessions.saturating_add(1);
        for sender in [Sender::Client, Sender::Router] {
            self.ids.clear(Scope {
                connection,
                channel,
                sender,
            });
        }
    }

    /// The router attaches a link, unless its attach has no source or no target: then it refuses one.
    fn attach(
        &mut self,
        connection: u32,
        channel: u16,
        writer: Writer,
        attach: &Attach<'_>,
    ) -> Result<(), AllocError> {
        if writer == Writer::Client || attach.source.is_none() || attach.target.is_none() {
            return Ok(());
        }
        let handle = attach.handle;
        let link = Link::new(self.alloc, &link_told(writer, attach))?;
        let number = self.rows.len();
        let key = LinkKey {
            connection,
            channel,
            handle,
        };
        self.live.insert(key, number)?;
        self.rows.push(Row::new(connection, channel, handle, link))?;
        Ok(())
    }
}
