// What each reading finds.
use crate::print::{Hex, HexAddress, HexNumber, field};
use crate::walk::Walk;
use crate::{tables, units};
use isdb_tlv::ip::{Datagram, Flow, IpError};
use isdb_tlv::mmtp::{Header, Message, MessageStep, Packet};
use isdb_tlv::si::Section;
use isdb_tlv::tlv::PacketType;
use isdb_tlv::{bytes, crc, ip, mmtp, si};
use std::io;

pub fn answer(rt: &impl Print, word: &[u8], b: &[u8]) -> io::Result<()> {
    match word {
        b"crc" => field(rt, "crc", HexNumber(crc::crc32(b) as u64, 8)),
        b"tlv" => packet_type(rt, PacketType::from(bytes::get_u8(b, 0))),
        b"ipv4" => datagram(rt, ip::ipv4(b), b),
        b"ipv6" => datagram(rt, ip::ipv6(b), b),
        b"compressed" => datagram(rt, ip::compressed(b), b),
        b"wire" => wire(rt, ip::wire_check(b).letter()),
        b"mmtp" => packet(rt, mmtp::parse(b), b),
        b"messages" => messages(rt, b),
        b"sections" => sections(rt, b),
        b"units" => units::payload(rt, b),
        b"control" => units::control(rt, b),
        b"lost" => units::lost(rt, bytes::get_u32(b, 0), bytes::get_u32(b, 4)),
        _ => table(rt, word, b),
    }
}

fn table(rt: &impl Print, word: &[u8], b: &[u8]) -> io::Result<()> {
    match word {
        b"location" => tables::located(rt, b),
        b"descriptors" => tables::descriptor_loop(rt, b),
        b"mpt" => tables::mpt_table(rt, b),
        b"plt" => tables::plt_table(rt, b),
        b"eit" => tables::eit_section(rt, b),
        b"sdt" => tables::sdt_section(rt, b),
        b"tot" => tables::tot_section(rt, b),
        b"bit" => tables::bit_section(rt, b),
        b"nit" => tables::nit_section(rt, b),
        b"amt" => tables::amt_section(rt, b),
        b"ntp" => tables::ntp_time(rt, bytes::get_u64(b, 0)),
        _ => print!(rt; " no such reading"),
    }
}

fn packet_type(rt: &impl Print, t: PacketType) -> io::Result<()> {
    match t {
        PacketType::Ipv4 => print!(rt; " ipv4"),
        PacketType::Ipv6 => print!(rt; " ipv6"),
        PacketType::Compressed => print!(rt; " compressed"),
        PacketType::Control => print!(rt; " control"),
        PacketType::Null => print!(rt; " null"),
        PacketType::Other(v) => field(rt, "other", v),
    }
}

fn wire(rt: &impl Print, letter: u8) -> io::Result<()> {
    if letter == 0 {
        return print!(rt; " good");
    }
    print!(rt; " {}", letter as char)
}

fn datagram(rt: &impl Print, r: Result<Datagram, IpError>, b: &[u8]) -> io::Result<()> {
    match r {
        Ok(d) => found(rt, d, b),
        Err(IpError::Truncated) => print!(rt; " truncated"),
        Err(IpError::NotUdp(p)) => field(rt, "not_udp", p),
        Err(IpError::HeaderType(t)) => field(rt, "header_type", t),
        Err(IpError::Version(v)) => field(rt, "version", v),
    }
}

fn found(rt: &impl Print, d: Datagram, b: &[u8]) -> io::Result<()> {
    match d.context {
        None => print!(rt; " context none")?,
        Some(c) => field(rt, "context", c)?,
    }
    match d.flow {
        None => print!(rt; " flow none")?,
        Some(f) => ends(rt, f)?,
    }
    field(rt, "payload", Hex(d.payload(b)))
}

fn ends(rt: &impl Print, f: Flow) -> io::Result<()> {
    field(rt, "src", HexAddress(f.src))?;
    field(rt, "dst", HexAddress(f.dst))?;
    field(rt, "sport", f.sport)?;
    field(rt, "dport", f.dport)
}

fn packet(rt: &impl Print, r: Option<Packet>, b: &[u8]) -> io::Result<()> {
    let Some(p) = r else {
        return print!(rt; " none");
    };
    header(rt, p.header)?;
    field(rt, "payload", Hex(p.payload(b)))
}

fn header(rt: &impl Print, h: Header) -> io::Result<()> {
    field(rt, "fec", u8::from(h.fec_type))?;
    field(rt, "rap", h.rap as u8)?;
    field(rt, "type", u8::from(h.payload_type))?;
    field(rt, "id", h.packet_id)?;
    field(rt, "sequence", h.sequence)?;
    field(rt, "scrambled", h.scramble_info as u8)?;
    match h.scramble_control {
        None => print!(rt; " control none"),
        Some(c) => field(rt, "control", c),
    }
}

fn messages(rt: &impl Print, b: &[u8]) -> io::Result<()> {
    let Some(n) = mmtp::messages(b) else {
        return print!(rt; " refused");
    };
    field(rt, "messages", n)?;
    let step = |at| match mmtp::next_message(b, at) {
        MessageStep::Found(m, next) => Some((m, next)),
        _ => None,
    };
    for m in Walk::new(2, n, step) {
        message(rt, m)?;
    }
    Ok(())
}

fn message(rt: &impl Print, m: Message) -> io::Result<()> {
    field(rt, "id", HexNumber(m.id as u64, 4))?;
    print!(rt; " tables")?;
    let tables = m.tables;
    for id in (0..=255u8).filter(|id| tables.contains(*id)) {
        print!(rt; " {}", HexNumber(id as u64, 2))?;
    }
    Ok(())
}

// There are fewer sections than bytes.
fn sections(rt: &impl Print, b: &[u8]) -> io::Result<()> {
    if si::next_section(b, 0).is_none() {
        return print!(rt; " none");
    }
    let step = |at| si::next_section(b, at).map(|s| (s, s.offset.wrapping_add(s.size)));
    for s in Walk::new(0, b.len(), step) {
        section(rt, s, b)?;
    }
    Ok(())
}

fn section(rt: &impl Print, s: Section, b: &[u8]) -> io::Result<()> {
    field(rt, "at", s.offset)?;
    field(rt, "table", HexNumber(s.table_id as u64, 2))?;
    field(rt, "extension", s.extension)?;
    field(rt, "version", s.version)?;
    field(rt, "bytes", Hex(s.bytes(b)))
}
