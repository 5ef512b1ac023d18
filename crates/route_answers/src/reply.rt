//! The frames of an answer, as what they say. They take no memory: what they repeat is lent.

use amqp_perf::{Attach, ErrorCondition, Flow, SenderSettleMode};

/// The address of a link to a consumer.
#[derive(Clone, Copy, Debug, PartialEq, Eq)]
pub enum Source<'a> {
    Given(&'a str),
    /// One that is made up, for the attach in this record.
    Made(u64),
}

/// What a frame of an answer says.
#[derive(Clone, Copy, Debug, PartialEq, Eq)]
pub enum Saying<'a> {
    /// The router's open.
    Open,
    Close(Option<ErrorCondition>),
    /// The answer to a begin on its channel.
    Begin,
    End(Option<ErrorCondition>),
    /// The answer to a producer's attach, for this address.
    ToProducer(Attach<'a>, &'a str),
    /// The answer to an anonymous sender's attach.
    ToAnonymous(Attach<'a>),
    /// The answer to a consumer's attach, for this address, where the router settles so.
    ToConsumer(Attach<'a>, Source<'a>, SenderSettleMode),
    /// The answer to an attach that is refused.
    Refused(Attach<'a>),
    /// A detach of this handle, closed or not.
    Detach(u32, bool, Option<ErrorCondition>),
    Flow(Flow),
}

/// A frame of an answer: what it says, and the channel.
#[derive(Clone, Copy, Debug, PartialEq, Eq)]
pub struct Reply<'a> {
    pub channel: u16,
    pub saying: Saying<'a>,
}

/// The frames of an answer, in order.
#[derive(Clone, Copy, Debug, PartialEq, Eq)]
pub enum Answer<'a> {
    Nothing,
    One(Reply<'a>),
    Two(Reply<'a>, Reply<'a>),
}

impl<'a> Answer<'a> {
    ghost use Rattle.std.specs.Prelude.{◌≡◌};
    ghost use Rattle.route_answers.specs.declared.reply.Answer.TheVariants as answers;

    /// One frame.
    pub(crate) fn one(channel: u16, saying: Saying<'a>) -> Answer<'a>
        ensures { result ≡ answers.One (record { channel = channel; saying = saying.entry }) }
    {
        Answer::One(Reply { channel, saying })
    }
}
