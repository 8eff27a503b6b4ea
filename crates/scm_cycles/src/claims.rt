//! What is said of every legal schedule, by the numbers of operations.

/// What kind of thing is said of two operations, or of a read, which is both then.
#[derive(Clone, Copy, PartialEq, Eq)]
pub(crate) enum Kind {
    Before,
    Sees,
    SeesFirst,
    Unseen,
    UnseenFirst,
}

/// `from` comes before `to`; the read `to` sees the write `from`, or first contents, or it doesn't.
#[derive(Clone, Copy, PartialEq, Eq)]
pub(crate) struct Claim {
    pub(crate) kind: Kind,
    pub(crate) from: u32,
    pub(crate) to: u32,
}

impl Claim {
    pub(crate) fn before(from: u32, to: u32) -> Claim {
        let kind = Kind::Before;
        Claim { kind, from, to }
    }

    pub(crate) fn sees(write: u32, read: u32) -> Claim {
        Claim {
            kind: Kind::Sees,
            from: write,
            to: read,
        }
    }

    pub(crate) fn sees_first(read: u32) -> Claim {
        Claim {
            kind: Kind::SeesFirst,
            from: read,
            to: read,
        }
    }

    /// What holds where it doesn't.
    pub(crate) fn negation(self) -> Claim {
        let kind = match self.kind {
            Kind::Before => return Claim::before(self.to, self.from),
            Kind::Sees => Kind::Unseen,
            Kind::SeesFirst => Kind::UnseenFirst,
            Kind::Unseen => Kind::Sees,
            Kind::UnseenFirst => Kind::SeesFirst,
        };
        Claim { kind, ..self }
    }

    /// Whether it puts the one operation before the other.
    pub(crate) fn is_order(self) -> bool {
        matches!(self.kind, Kind::Before | Kind::Sees)
    }

    /// The operation at whose change it may turn out to be false.
    pub(crate) fn watched(self) -> u32 {
        match self.kind {
            Kind::Before => self.from,
            _ => self.to,
        }
    }
}
