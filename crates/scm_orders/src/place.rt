//! The places of operations.
ghost use Rattle.std.specs.Prelude.{◌↔◌, IsTrue};
ghost use Rattle.scm_orders.specs.Facts.{IsUpTo, IsEarlier};

/// Where an operation stands: at this place of this process, both from 0.
#[derive(Clone, Copy, Debug, PartialEq, Eq, Hash)]
pub struct Place {
    pub process: u8,
    pub at: u32,
}

impl Place {
    /// Whether it is the other one, or stands before it in its process.
    pub(crate) fn is_up_to(self, other: Place) -> bool
        ensures { IsTrue result ↔ IsUpTo self other }
    {
        self.process == other.process && self.at <= other.at
    }

    /// Whether it stands before the other one in its process.
    pub(crate) fn is_earlier(self, other: Place) -> bool
        ensures { IsTrue result ↔ IsEarlier self other }
    {
        self.process == other.process && self.at < other.at
    }
}
