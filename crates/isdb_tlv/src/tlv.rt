// TLV packets (ARIB STD-B32 Part 3, 3.5): the kind of data that a packet carries.
// Translated from tlv.rs of isdb-rs (Apache-2.0, see NOTICE) and changed.
ghost use Rattle.std.specs.Prelude.{◌≡◌};
ghost use Rattle.isdb_tlv.specs.Tlv.{packet_type};

#[derive(Clone, Copy, Debug, PartialEq, Eq)]
pub enum PacketType {
    // An IPv4 packet (01h).
    Ipv4,
    // An IPv6 packet (02h).
    Ipv6,
    // A header-compressed IP packet (03h).
    Compressed,
    // A transmission control signal (FEh).
    Control,
    // Null (FFh).
    Null,
    // A value that the standard leaves undefined.
    Other(u8),
}

// From the type byte.
impl From<u8> for PacketType {
    ghost from_gives = { λ b t. t ≡ packet_type b };

    #[tactic(auto, unfolding(crate::specs::Tlv::packet_type))]
    fn from(b: u8) -> PacketType {
        match b {
            0x01 => PacketType::Ipv4,
            0x02 => PacketType::Ipv6,
            0x03 => PacketType::Compressed,
            0xFE => PacketType::Control,
            0xFF => PacketType::Null,
            v => PacketType::Other(v),
        }
    }
}
