//! What an arrow tells of what happened.

ghost use Rattle.std.specs.Prelude.{◌≡◌};
ghost use Rattle.amqp_perf.specs.View as meanings;
ghost use Rattle.capture_view.specs.Saying.{saying};
ghost use Rattle.capture_view.specs.Viewed.{happening};
ghost use Rattle.capture_chart.specs.Shown as shown;

use amqp_perf::Performative;
use capture_view::{Happened, Said};

/// Where a frame goes.
#[derive(Clone, Copy, Debug, PartialEq, Eq)]
pub enum Course {
    ToRouter,
    ToClient,
    /// There is no frame.
    Beside,
}

/// What happened: of a frame, which performative its octets are, or that they are none.
#[derive(Clone, Copy, Debug, PartialEq, Eq)]
pub enum Topic {
    Open,
    Begin,
    Attach,
    Flow,
    Transfer,
    Disposition,
    Detach,
    End,
    Close,
    EmptyFrame,
    NoPerformative,
    NoFrame,
    Opened,
    Lost,
    Broken,
}

pub(crate) fn course_of(happened: Happened<'_>) -> Course
    ensures { result ≡ shown.course_of (happening happened.entry) }
{
    match happened {
        Happened::In(_) => Course::ToRouter,
        Happened::Out(_) => Course::ToClient,
        Happened::Opened | Happened::Lost | Happened::Broken => Course::Beside,
    }
}

pub(crate) fn topic_of(happened: Happened<'_>) -> Topic
    ensures { result ≡ shown.topic_of (happening happened.entry) }
{
    match happened {
        Happened::Opened => Topic::Opened,
        Happened::In(said) | Happened::Out(said) => topic_said(said),
        Happened::Lost => Topic::Lost,
        Happened::Broken => Topic::Broken,
    }
}

fn topic_said(said: Said<'_>) -> Topic
    ensures { result ≡ shown.topic_said (saying said.entry) }
{
    match said {
        Said::NoFrame { .. } => Topic::NoFrame,
        Said::Empty { .. } => Topic::EmptyFrame,
        Said::NoPerformative { .. } => Topic::NoPerformative,
        Said::Says { performative, .. } => topic_in(&performative),
    }
}

fn topic_in(performative: &Performative<'_>) -> Topic
    ensures { result ≡ shown.topic_in (meanings.view performative.now) }
{
    match performative {
        Performative::Open(_) => Topic::Open,
        Performative::Begin(_) => Topic::Begin,
        Performative::Attach(_) => Topic::Attach,
        Performative::Flow(_) => Topic::Flow,
        Performative::Transfer(_) => Topic::Transfer,
        Performative::Disposition(_) => Topic::Disposition,
        Performative::Detach(_) => Topic::Detach,
        Performative::End(_) => Topic::End,
        Performative::Close(_) => Topic::Close,
    }
}

impl Topic {
    ghost use Rattle.capture_chart.specs.Shown.{topic_words};

    pub(crate) fn words(self) -> &'static str
        ensures { result.now ≡ topic_words self }
    {
        match self {
            Topic::Open => "open",
            Topic::Begin => "begin",
            Topic::Attach => "attach",
            Topic::Flow => "flow",
            Topic::Transfer => "transfer",
            Topic::Disposition => "disposition",
            Topic::Detach => "detach",
            Topic::End => "end",
            Topic::Close => "close",
            Topic::EmptyFrame => "empty frame",
            Topic::NoPerformative => "no performative",
            Topic::NoFrame => "no frame",
            Topic::Opened => "opened",
            Topic::Lost => "lost",
            Topic::Broken => "broken",
        }
    }
}

impl Course {
    ghost use Rattle.capture_chart.specs.Shown.{course_words};

    pub(crate) fn words(self) -> &'static str
        ensures { result.now ≡ course_words self }
    {
        match self {
            Course::ToRouter => " to router: ",
            Course::ToClient => " from router: ",
            Course::Beside => ": ",
        }
    }
}
