//! The kinds of messages, and the numbers that name them.

ghost use Rattle.std.specs.Prelude.{◌≡◌};
ghost use Rattle.lard_message.specs.Kinds.{first_kind, is_version, kind_named, kind_number, second_kind, version_of};

/// What a message is about. Each kind has a version and, in it, a number. A later version is further kinds.
#[derive(Clone, Copy, Debug, PartialEq, Eq)]
pub enum Kind {
    Offer,
    Taken,
    Forward,
    Ask,
    Tag,
    Fetch,
    Content,
    Ended,
    EndedAck,
    Refused,
    Give,
    Given,
}

/// The first version.
const FIRST: u8 = 1;

/// The second: a node need not take a connection, and may give it back.
const SECOND: u8 = 2;

/// Whether some kind has this version.
pub fn is_version(version: u8) -> bool
    ensures { result ≡ is_version version }
{
    version == FIRST || version == SECOND
}

/// The kind with this version and number, or `None` where there is none.
pub fn kind_named(version: u8, number: u8) -> Option<Kind>
    ensures { result ≡ kind_named version number }
{
    if version == FIRST {
        return first_kind(number);
    }
    if version == SECOND {
        return second_kind(number);
    }
    None
}

/// The kind of the first version with this number.
fn first_kind(number: u8) -> Option<Kind>
    ensures { result ≡ first_kind number }
{
    match number {
        1 => Some(Kind::Offer),
        2 => Some(Kind::Taken),
        4 => Some(Kind::Forward),
        5 => Some(Kind::Ask),
        6 => Some(Kind::Tag),
        7 => Some(Kind::Fetch),
        8 => Some(Kind::Content),
        9 => Some(Kind::Ended),
        10 => Some(Kind::EndedAck),
        _ => None,
    }
}

/// The kind of the second version with this number.
fn second_kind(number: u8) -> Option<Kind>
    ensures { result ≡ second_kind number }
{
    match number {
        3 => Some(Kind::Refused),
        11 => Some(Kind::Give),
        12 => Some(Kind::Given),
        _ => None,
    }
}

impl Kind {
    /// The version that the kind came with.
    pub fn version(self) -> u8
        ensures { result ≡ version_of self }
    {
        match self {
            Kind::Refused => SECOND,
            Kind::Give => SECOND,
            Kind::Given => SECOND,
            _ => FIRST,
        }
    }

    /// Its number in its version.
    pub fn number(self) -> u8
        ensures { result ≡ kind_number self }
    {
        match self {
            Kind::Offer => 1,
            Kind::Taken => 2,
            Kind::Forward => 4,
            Kind::Ask => 5,
            Kind::Tag => 6,
            Kind::Fetch => 7,
            Kind::Content => 8,
            Kind::Ended => 9,
            Kind::EndedAck => 10,
            Kind::Refused => 3,
            Kind::Give => 11,
            Kind::Given => 12,
        }
    }
}
