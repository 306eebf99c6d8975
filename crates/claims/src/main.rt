// Claims about the values that the libraries' contracts and definitions decide: theorems in specs/, and functions here where a
// contract speaks for itself. Nothing is run.
#![tactic(auto)]

ghost use Rattle.std.specs.Prelude.{◌≡◌, take, drop};
ghost use Rattle.isdb_mmt.specs.Memory.Refusals.{answer_number};
ghost use Rattle.claims.specs.Session.{Refused};

use isdb_mmt::decoder;
use isdb_mmt::decoder::limits::Limits;
use isdb_mmt::decoder::refusal::Refusal;
use isdb_mmt::part::Part;
use isdb_tlv::bytes;
use isdb_tlv::ip::Datagram;
use isdb_tlv::mmtp::{FecType, Header, Packet, PayloadType};
use isdb_tlv::si::Section;

// bytes::rest
// wrong: drop 3 => drop 4 (from the place behind)
// wrong: drop 3 => drop 0 (all)
fn rest_from_3(b: &[u8]) -> &[u8]
    ensures { result.now ≡ drop 3 b.now }
{
    bytes::rest(b, 3)
}

// bytes::part
// wrong: take 2 (drop 3 => take 3 (drop 2 (length and place exchanged)
// wrong: take 2 => take 9 (to the end)
fn two_from_3(b: &[u8]) -> &[u8]
    ensures { result.now ≡ take 2 (drop 3 b.now) }
{
    bytes::part(b, 3, 2)
}

// Part::of
// wrong: take 2 (drop 3 => take 3 (drop 2 (length and place exchanged)
// wrong: take 2 => take 9 (to the end)
fn part_of(b: &[u8]) -> &[u8]
    ensures { result.now ≡ take 2 (drop 3 b.now) }
{
    let p = Part {
        start: 3,
        length: 2,
    };
    p.of(b)
}

// Datagram::payload
// wrong: drop 28 => drop 0 (the whole packet)
// wrong: drop 28 => drop 20 (from the UDP header on)
fn datagram_payload(b: &[u8]) -> &[u8]
    ensures { result.now ≡ drop 28 b.now }
{
    let d = Datagram {
        context: None,
        flow: None,
        start: 28,
    };
    d.payload(b)
}

// Packet::payload
// wrong: drop 16 => drop 0 (the whole packet)
// wrong: drop 16 => drop 12 (behind the twelve bytes alone)
fn packet_payload(b: &[u8]) -> &[u8]
    ensures { result.now ≡ drop 16 b.now }
{
    let header = Header {
        fec_type: FecType::NotProtected,
        rap: false,
        payload_type: PayloadType::Mpu,
        packet_id: 0xF100,
        sequence: 5,
        scramble_info: false,
        scramble_control: None,
    };
    let p = Packet { header, start: 16 };
    p.payload(b)
}

// Section::bytes
// wrong: drop 1 => drop 0 (from the data's first byte)
// wrong: take 16 => take 13 (as its length field says)
fn section_bytes(b: &[u8]) -> &[u8]
    ensures { result.now ≡ take 16 (drop 1 b.now) }
{
    let s = Section {
        offset: 1,
        table_id: 0x40,
        extension: 4,
        version: 1,
        size: 16,
    };
    s.bytes(b)
}

// decoder::open, with no media id: turned down, and what was lent stays
// wrong: Refused 1 => Refused 2 (the areas first)
// wrong: others.old others.new => others.new (replicate 256 0) (the counts cleared first)
fn no_media_id(
    state: &mut [u8],
    others: &mut [u64; 256],
    objects: &[u8],
    messages: &[u8],
    tables: &[u8],
) -> Result<(), Refusal>
    ensures { Refused 1 (answer_number result) state.old state.new others.old others.new }
{
    let l = Limits {
        media_ids: 0,
        control_ids: 1,
        sections: 1,
        mfu_area: 0,
        message_area: 1,
        table_area: 1,
        packets: 1,
        pass_scrambled: false,
    };
    decoder::open(l, state, others, objects, messages, tables)
}

fn main() {}
