//! Whose outcome a record tells.

use amqp_perf::{Performative, Role, Transfer};
use capture_view::{Happened, LinkKey, RecordView, Said};
use std::alloc::{AllocError, Global};
use std::collections::{HashMap, HashSet};

/// An id of a delivery from a client, on a channel of a connection.
#[derive(Clone, Copy, Debug, PartialEq, Eq, Hash)]
struct DeliveryKey {
    connection: u32,
    channel: u16,
    id: u32,
}

/// A client's transfer that gives an id.
#[derive(Clone, Copy, Debug)]
struct Sent {
    link: LinkKey,
    id: u32,
    is_settled: bool,
}

/// What a record says of a delivery.
#[derive(Clone, Copy, Debug)]
struct Change {
    key: DeliveryKey,
    /// The record, where the delivery begins in it and its outcome is to be told; else there is none any more.
    begun: Option<u64>,
}

/// Whether a delivery from a client is in progress on a handle.
#[derive(Clone, Copy, Debug)]
struct Going {
    link: LinkKey,
    goes_on: bool,
}

/// The session that a record ends, or all those of a connection.
#[derive(Clone, Copy, Debug)]
struct Ended {
    connection: u32,
    channel: Option<u16>,
}

/// The deliveries from clients whose outcomes are still to be told, by the records so far. It takes memory for these, until they are
/// told or their session ends, and for the links on which one is in progress.
#[derive(Debug, Drop)]
pub struct Outcomes {
    /// The records in which they began.
    begun: HashMap<DeliveryKey, u64>,
    /// The handles on which one is in progress.
    going: HashSet<LinkKey>,
}

impl Outcomes {
    ghost use Rattle.std.specs.Prelude.{◌≡◌, ◌&&◌, not, List, [], Option, None, IfOk, IfSome, OnOk, if◌then◌else◌};
    ghost use Rattle.std.specs.HashMap.{get};
    ghost use Rattle.std.specs.HashSet.{contains};
    ghost use Rattle.capture_view.specs.Viewed.{Viewed, viewed};
    ghost use Rattle.capture_view.specs.Named.{is_link};
    ghost use Rattle.capture_view.specs.declared.names.LinkKey.{LinkKey};
    ghost use Rattle.capture_chart.specs.declared.outcomes.DeliveryKey.{DeliveryKey};
    ghost use Rattle.capture_chart.specs.Outcomes.{IsOutcomeOf, StandsFor, TakesOneMore, begun_by, change_of, changed_or, goes_or, is_delivery, is_ended, outcome_told};

    /// Of no records.
    pub fn new(alloc: Global) -> Outcomes
        ensures { StandsFor result [] }
    {
        Outcomes {
            begun: HashMap::new(alloc),
            going: HashSet::new(alloc),
        }
    }

    /// Takes one record more, and gives the record of the first transfer of the delivery whose outcome it tells. After an error a
    /// delivery that begins in this record, or its progress, may not be known.
    pub fn take(&mut self, view: &RecordView<'_>) -> Result<Option<u64>, AllocError>
        ensures tables { OnOk result (TakesOneMore self.old self.new (viewed view.now)) }
        // It is that of the last delivery of the id that is still to be told.
        ensures told { IfOk result (λ told. (past : List Viewed) → StandsFor self.old past → told ≡ outcome_told past (viewed view.now)) }
        // So it is a transfer of the client in front, on the channel and with the id that the router's disposition names, and none
        // between tells it.
        ensures sound { IfOk result (λ told. (past : List Viewed) → StandsFor self.old past → IfSome told (IsOutcomeOf past (viewed view.now))) }
    {
        let told = self.outcome_told(view);
        let change = self.change_of(view);
        self.end(ended_by(view));
        self.change(change)?;
        self.go(goes_by(view))?;
        Ok(told)
    }

    /// The record in which the delivery began whose outcome a record tells.
    fn outcome_told(&self, view: &RecordView<'_>) -> Option<u64>
        ensures { (past : List Viewed) → StandsFor self.now past → result ≡ outcome_told past (viewed view.now) }
    {
        let key = told_by(view)?;
        self.begun.get(&key).copied()
    }

    /// What a record says of a delivery.
    fn change_of(&self, view: &RecordView<'_>) -> Option<Change>
        ensures { (past : List Viewed) → StandsFor self.now past → result ≡ change_of past (viewed view.now) }
    {
        match view.happened {
            Happened::In(said) => self.begun_by(view.number, sent_on(view.connection, said)?),
            Happened::Out(said) => Some(Change {
                key: told_on(view.connection, said)?,
                begun: None,
            }),
            Happened::Opened | Happened::Lost | Happened::Broken => None,
        }
    }

    /// The delivery that a client's transfer begins.
    fn begun_by(&self, number: u64, sent: Sent) -> Option<Change>
        ensures { (past : List Viewed) → StandsFor self.now past → result ≡ begun_by past number (Some sent) }
    {
        if self.going.contains(&sent.link) {
            return None;
        }
        Some(Change {
            key: key_of(sent),
            begun: if sent.is_settled { None } else { Some(number) },
        })
    }

    /// Forgets what stands on sessions that end.
    fn end(&mut self, ended: Option<Ended>)
        ensures begun { (key : DeliveryKey) → get is_delivery self.new.begun key ≡ (if is_ended ended key.connection key.channel then None else get is_delivery self.old.begun key) }
        ensures going { (link : LinkKey) → contains is_link self.new.going link ≡ (contains is_link self.old.going link && not (is_ended ended link.connection link.channel)) }
    {
        if let Some(ended) = ended {
            end_begun(&mut self.begun, ended);
            end_going(&mut self.going, ended);
        }
    }

    /// Notes what a record says of a delivery.
    fn change(&mut self, change: Option<Change>) -> Result<(), AllocError>
        ensures begun { OnOk result ((key : DeliveryKey) → get is_delivery self.new.begun key ≡ changed_or change key (get is_delivery self.old.begun key)) }
        ensures going { self.new.going ≡ self.old.going }
    {
        match change {
            Some(
                Change {
                    key,
                    begun: Some(number),
                },
            ) => {
                self.begun.insert(key, number)?;
            }
            Some(Change { key, begun: None }) => {
                self.begun.remove(&key);
            }
            None => {}
        }
        Ok(())
    }

    /// Notes whether a delivery is in progress on a handle.
    fn go(&mut self, going: Option<Going>) -> Result<(), AllocError>
        ensures begun { self.new.begun ≡ self.old.begun }
        ensures going { OnOk result ((link : LinkKey) → contains is_link self.new.going link ≡ goes_or going link (contains is_link self.old.going link)) }
    {
        match going {
            Some(
                Going {
                    link,
                    goes_on: true,
                },
            ) => {
                self.going.insert(link)?;
            }
            Some(
                Going {
                    link,
                    goes_on: false,
                },
            ) => {
                self.going.remove(&link);
            }
            None => {}
        }
        Ok(())
    }
}

ghost use Rattle.std.specs.Prelude.{◌≡◌, ◌&&◌, not, None, if◌then◌else◌};
ghost use Rattle.std.specs.HashMap.{get};
ghost use Rattle.std.specs.HashSet.{contains};
ghost use Rattle.amqp_perf.specs.View as meanings;
ghost use Rattle.capture_view.specs.Saying.{saying};
ghost use Rattle.capture_view.specs.Viewed.{happening, viewed};
ghost use Rattle.capture_view.specs.Named.{is_link};
ghost use Rattle.capture_view.specs.declared.names.LinkKey.{LinkKey};
ghost use Rattle.capture_chart.specs.declared.outcomes.DeliveryKey.{DeliveryKey};
ghost use Rattle.capture_chart.specs.Outcomes as spec;

impl Ended {
    ghost use Rattle.std.specs.Prelude.{◌≡◌};
    ghost use Rattle.capture_chart.specs.Outcomes.{is_over};

    /// Whether what stands on a channel ended.
    fn has(&self, connection: u32, channel: u16) -> bool
        ensures { result ≡ is_over self.now connection channel }
    {
        self.connection == connection
            && match self.channel {
                Some(ended) => ended == channel,
                None => true,
            }
    }
}

/// Forgets the deliveries of sessions that end.
fn end_begun(begun: &mut HashMap<DeliveryKey, u64>, ended: Ended)
    ensures { (key : DeliveryKey) → get spec.is_delivery begun.new key ≡ (if spec.is_over ended key.connection key.channel then None else get spec.is_delivery begun.old key) }
{
    begun.retain(|key, _| !ended.has(key.connection, key.channel));
}

/// Forgets the handles of sessions that end.
fn end_going(going: &mut HashSet<LinkKey>, ended: Ended)
    ensures { (link : LinkKey) → contains is_link going.new link ≡ (contains is_link going.old link && not (spec.is_over ended link.connection link.channel)) }
{
    going.retain(|link| !ended.has(link.connection, link.channel));
}

fn key_of(sent: Sent) -> DeliveryKey
    ensures { result ≡ spec.key_of sent }
{
    DeliveryKey {
        connection: sent.link.connection,
        channel: sent.link.channel,
        id: sent.id,
    }
}

/// A transfer with an id.
fn sent_on(connection: u32, said: Said<'_>) -> Option<Sent>
    ensures { result ≡ spec.sent_on connection (saying said.entry) }
{
    match said {
        Said::Says {
            channel,
            performative: Performative::Transfer(transfer),
            ..
        } => sent_in(connection, channel, &transfer),
        _ => None,
    }
}

fn sent_in(connection: u32, channel: u16, transfer: &Transfer<'_>) -> Option<Sent>
    ensures { result ≡ spec.sent_in connection channel (meanings.transfer_fields transfer.now) }
{
    let id = transfer.delivery_id?;
    Some(Sent {
        link: LinkKey {
            connection,
            channel,
            handle: transfer.handle,
        },
        id,
        is_settled: transfer.settled.unwrap_or(false),
    })
}

/// The id whose outcome the router tells.
fn told_by(view: &RecordView<'_>) -> Option<DeliveryKey>
    ensures { result ≡ spec.id_told (viewed view.now) }
{
    match view.happened {
        Happened::Out(said) => told_on(view.connection, said),
        Happened::In(_) | Happened::Opened | Happened::Lost | Happened::Broken => None,
    }
}

fn told_on(connection: u32, said: Said<'_>) -> Option<DeliveryKey>
    ensures { result ≡ spec.told_on connection (saying said.entry) }
{
    match said {
        Said::Says {
            channel,
            performative: Performative::Disposition(disposition),
            ..
        } => match disposition.role {
            Role::Receiver => Some(DeliveryKey {
                connection,
                channel,
                id: disposition.first,
            }),
            Role::Sender => None,
        },
        _ => None,
    }
}

/// The session that a record ends, or all those of its connection.
fn ended_by(view: &RecordView<'_>) -> Option<Ended>
    ensures { result ≡ spec.ended_by view.now.connection (happening view.now.happened) }
{
    match view.happened {
        Happened::In(said) | Happened::Out(said) => ended_on(view.connection, said),
        Happened::Lost | Happened::Broken => Some(Ended {
            connection: view.connection,
            channel: None,
        }),
        Happened::Opened => None,
    }
}

fn ended_on(connection: u32, said: Said<'_>) -> Option<Ended>
    ensures { result ≡ spec.ended_on connection (saying said.entry) }
{
    let Said::Says {
        channel,
        performative,
        ..
    } = said
    else {
        return None;
    };
    match performative {
        Performative::Begin(_) | Performative::End(_) => Some(Ended {
            connection,
            channel: Some(channel),
        }),
        Performative::Close(_) => Some(Ended {
            connection,
            channel: None,
        }),
        _ => None,
    }
}

/// What a record says of the progress on a handle.
fn goes_by(view: &RecordView<'_>) -> Option<Going>
    ensures { result ≡ spec.goes_by view.now.connection (happening view.now.happened) }
{
    match view.happened {
        Happened::In(said) => goes_on(view.connection, said),
        Happened::Out(said) => halts_on(view.connection, said),
        Happened::Opened | Happened::Lost | Happened::Broken => None,
    }
}

fn goes_on(connection: u32, said: Said<'_>) -> Option<Going>
    ensures { result ≡ spec.goes_on connection (saying said.entry) }
{
    match said {
        Said::Says {
            channel,
            performative: Performative::Transfer(transfer),
            ..
        } => Some(Going {
            link: LinkKey {
                connection,
                channel,
                handle: transfer.handle,
            },
            goes_on: transfer.has_more() && !transfer.is_aborted(),
        }),
        _ => halts_on(connection, said),
    }
}

/// What a detach says of it, whichever side wrote it.
fn halts_on(connection: u32, said: Said<'_>) -> Option<Going>
    ensures { result ≡ spec.halts_on connection (saying said.entry) }
{
    match said {
        Said::Says {
            channel,
            performative: Performative::Detach(detach),
            ..
        } => Some(Going {
            link: LinkKey {
                connection,
                channel,
                handle: detach.handle,
            },
            goes_on: false,
        }),
        _ => None,
    }
}
