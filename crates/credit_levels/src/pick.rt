//! Which link, and where it stands.

ghost use Rattle.std.specs.Prelude.{◌≡◌};
ghost use Rattle.trace_events.specs.View.{moment_view, spoken_view};
ghost use Rattle.credit_levels.specs.Pick as spec;

use amqp_perf::Performative;
use trace_events::{Moment, Spoken};

/// The links of a consumer for which all that is given holds.
#[derive(Clone, Copy, Debug)]
pub struct Pick<'a> {
    /// On this connection.
    pub connection: Option<u32>,
    /// Of this name.
    pub name: Option<&'a str>,
}

/// Where a link stands. It is named by the record of the attach with which the router opened it.
#[derive(Clone, Copy, Debug, PartialEq, Eq)]
pub struct PickedLink {
    /// That record.
    pub number: u64,
    pub connection: u32,
    pub channel: u16,
    pub handle: u32,
}

impl Pick<'_> {
    /// A link of this name on this connection is picked.
    fn picks(&self, connection: u32, name: &str) -> bool
        ensures { result ≡ spec.picks self.now connection name.now }
    {
        let is_on = match self.connection {
            Some(asked) => asked == connection,
            None => true,
        };
        let is_named = match self.name {
            Some(asked) => asked == name,
            None => true,
        };
        is_on && is_named
    }

    /// Where the link stands that an attach of the router's asks for in the record of this number, if it is picked.
    pub(crate) fn attached(
        &self,
        number: u64,
        connection: u32,
        moment: &Moment<'_>,
    ) -> Option<PickedLink>
        ensures { result ≡ spec.attached self.now number connection (moment_view moment.now) }
    {
        match moment {
            Moment::Out(frame) => self.attached_by(number, connection, frame.spoken()?),
            _ => None,
        }
    }

    fn attached_by(&self, number: u64, connection: u32, spoken: &Spoken<'_>) -> Option<PickedLink>
        ensures { result ≡ spec.attached_by self.now number connection (spoken_view spoken.now) }
    {
        match &spoken.performative {
            Performative::Attach(attach) if self.picks(connection, attach.name) => Some(
                PickedLink {
                    number,
                    connection,
                    channel: spoken.channel,
                    handle: attach.handle,
                },
            ),
            _ => None,
        }
    }
}
