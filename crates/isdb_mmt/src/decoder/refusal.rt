// Why a call is turned down: by the first question that is answered no.
ghost use Rattle.std.specs.Prelude.{◌≡◌};
ghost use Rattle.isdb_mmt.specs.Memory.Refusals.{number_of};

#[derive(Clone, Copy, Debug, PartialEq, Eq)]
pub enum Refusal {
    // More or fewer places than a session may have.
    PlacesOutOfRange,
    // An area smaller or larger than a session may have.
    AreasOutOfRange,
    BufferTooShort,
    // No packets are allowed, or too many.
    PacketsOutOfRange,
    // The lent bytes hold no session, or a kept table does not parse any more.
    NotASession,
    PacketTooLong,
    PacketsUsedUp,
    NoPlaceFree,
    AreaTooSmall,
    OutputTooSmall,
}

impl Refusal {
    // The question's number.
    pub fn number(self) -> u8
        ensures { result ≡ number_of self }
    {
        match self {
            Refusal::PlacesOutOfRange => 1,
            Refusal::AreasOutOfRange => 2,
            Refusal::BufferTooShort => 3,
            Refusal::PacketsOutOfRange => 4,
            Refusal::NotASession => 5,
            Refusal::PacketTooLong => 6,
            Refusal::PacketsUsedUp => 7,
            Refusal::NoPlaceFree => 8,
            Refusal::AreaTooSmall => 9,
            Refusal::OutputTooSmall => 10,
        }
    }
}
