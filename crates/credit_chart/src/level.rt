//! What stood at a record.

/// What stood at a record, of a consumer's link.
#[derive(Clone, Copy, Debug, PartialEq, Eq)]
pub struct Level {
    /// How many deliveries might still begin on the link.
    pub credit: u32,
    /// How many transfers might still be sent on its session.
    pub window: u32,
    /// How many deliveries waited at its address.
    pub waiting: u32,
    /// How many deliveries on it were unsettled.
    pub unsettled: u32,
    /// Its client asked that the credit be used up.
    pub is_draining: bool,
}

/// One of the numbers of a level.
#[derive(Clone, Copy, Debug, PartialEq, Eq)]
pub enum Quantity {
    Credit,
    Window,
    Waiting,
    Unsettled,
    /// 1 where the client asked that the credit be used up, else 0.
    Draining,
}

impl Quantity {
    ghost use Rattle.std.specs.Prelude.{◌≡◌};
    ghost use Rattle.credit_chart.specs.Levels.{class_of, name_of, value_of};

    /// Its value at a level.
    pub fn value_of(self, level: Level) -> u32
        ensures { result ≡ value_of self level }
    {
        match self {
            Quantity::Credit => level.credit,
            Quantity::Window => level.window,
            Quantity::Waiting => level.waiting,
            Quantity::Unsettled => level.unsettled,
            Quantity::Draining => u32::from(level.is_draining),
        }
    }

    pub(crate) fn name(self) -> &'static str
        ensures { result.now ≡ name_of self }
    {
        match self {
            Quantity::Credit => "link credit",
            Quantity::Window => "session window",
            Quantity::Waiting => "deliveries waiting at the address",
            Quantity::Unsettled => "deliveries unsettled on the link",
            Quantity::Draining => "the client drains the link",
        }
    }

    pub(crate) fn class(self) -> &'static str
        ensures { result.now ≡ class_of self }
    {
        match self {
            Quantity::Credit => "credit",
            Quantity::Window => "window",
            Quantity::Waiting => "waiting",
            Quantity::Unsettled => "unsettled",
            Quantity::Draining => "draining",
        }
    }
}
