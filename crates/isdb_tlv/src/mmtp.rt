// MMTP packets (ISO/IEC 23008-1; ARIB STD-B60, 6.4.1.1, Table 6-4) and the control messages of an undivided payload
// (STD-B60, 4.2 and 7.2.3, Tables 4-6 and 4-8).
// Translated from mmtp.rs of isdb-rs (Apache-2.0, see NOTICE) and changed.
ghost use Rattle.std.specs.Prelude.{◌≡◌, ◌+◌, ◌≤◌, ◌<◌, length, drop};
ghost use Rattle.isdb_tlv.specs.Mmtp.{fec_code_of, fec_type_of, payload_code_of, payload_type_of, entries, scramble_info_of, scramble_control_of, fixed_size, extension_at, after_fixed, header_of, mmtp_of};
ghost use Rattle.isdb_tlv.specs.Messages.{no_table_ids, has, insert, insert_all, set_of, listed_from, walked_from, pa_tables, pa_message, section_message, message_of, message_in, prefixed_at, message_at, message_step, counted, messages_of};

use crate::bytes;

// FEC_type (Table 6-5).
#[derive(Clone, Copy, Debug, PartialEq, Eq)]
pub enum FecType {
    // 0: not protected by AL-FEC.
    NotProtected,
    // 1: a source packet.
    Source,
    // 2: a repair packet.
    Repair,
    // 3: reserved for future use.
    Reserved,
}

// From the 2-bit field; higher bits of code are not looked at.
impl From<u8> for FecType {
    ghost from_gives = { λ code t. t ≡ fec_type_of code };

    #[tactic(auto, unfolding(crate::specs::Mmtp::fec_type_of))]
    fn from(code: u8) -> FecType {
        match code % 4 {
            0 => FecType::NotProtected,
            1 => FecType::Source,
            2 => FecType::Repair,
            _ => FecType::Reserved,
        }
    }
}

impl From<FecType> for u8 {
    ghost from_gives = { λ t code. code ≡ fec_code_of t };

    fn from(t: FecType) -> u8 {
        match t {
            FecType::NotProtected => 0,
            FecType::Source => 1,
            FecType::Repair => 2,
            FecType::Reserved => 3,
        }
    }
}

// payload_type (Table 6-6).
#[derive(Clone, Copy, Debug, PartialEq, Eq)]
pub enum PayloadType {
    // 0x00: a fragment of an MPU.
    Mpu,
    // 0x01: a generic object.
    GenericObject,
    // 0x02: control messages.
    Messages,
    // 0x03: a repair symbol of AL-FEC.
    FecRepair,
    // 0x04 to 0x3F, as read.
    Reserved(u8),
}

// From the 6-bit field; higher bits of code are not looked at.
impl From<u8> for PayloadType {
    ghost from_gives = { λ code t. t ≡ payload_type_of code };

    #[tactic(auto, unfolding(crate::specs::Mmtp::payload_type_of))]
    fn from(code: u8) -> PayloadType {
        match code % 64 {
            0 => PayloadType::Mpu,
            1 => PayloadType::GenericObject,
            2 => PayloadType::Messages,
            3 => PayloadType::FecRepair,
            c => PayloadType::Reserved(c),
        }
    }
}

impl From<PayloadType> for u8 {
    ghost from_gives = { λ t code. code ≡ payload_code_of t };

    fn from(t: PayloadType) -> u8 {
        match t {
            PayloadType::Mpu => 0,
            PayloadType::GenericObject => 1,
            PayloadType::Messages => 2,
            PayloadType::FecRepair => 3,
            PayloadType::Reserved(c) => c,
        }
    }
}

// What a multi-type header extension says of scrambling.
#[derive(Clone, Copy, Debug, PartialEq, Eq)]
pub enum Scramble {
    // No entry of type 1.
    Absent,
    // The entry ends with the extension, before its first byte.
    NoByte,
    // Bits 4 and 3 of the entry's first byte.
    Bits(u8),
}

impl Scramble {
    // Whether the payload counts as scrambled: bits of 2 or 3, or no byte to say.
    pub fn info(self) -> bool
        ensures { result ≡ scramble_info_of self }
    {
        match self {
            Scramble::Absent => false,
            Scramble::NoByte => true,
            Scramble::Bits(c) => 2 <= c,
        }
    }

    pub fn control(self) -> Option<u8>
        ensures { result ≡ scramble_control_of self }
    {
        match self {
            Scramble::Absent => None,
            Scramble::NoByte => None,
            Scramble::Bits(c) => Some(c),
        }
    }
}

// The fields of the header that are used here.
#[derive(Clone, Copy)]
pub struct Header {
    pub fec_type: FecType,
    // Random access point.
    pub rap: bool,
    pub payload_type: PayloadType,
    pub packet_id: u16,
    pub sequence: u32,
    // The header extension has scramble information (type 0001h of ARIB STD-B61; STD-B60, Tables 6-7 to 6-9), and that
    // does not say that the payload is in the clear.
    pub scramble_info: bool,
    // Bits 4 and 3 of that information's first byte: 00 in the clear, also where a scrambled stream was descrambled and
    // kept the extension; 10 and 11 scrambled. So they are seen on air; STD-B61 is not public.
    pub scramble_control: Option<u8>,
}

// A packet: its payload runs from start to the end of the data.
#[derive(Clone, Copy)]
pub struct Packet {
    pub header: Header,
    pub start: usize,
}

impl Packet {
    // The payload, a part of the packet b.
    pub fn payload(self, b: &[u8]) -> &[u8]
        ensures { result.now ≡ drop self.start b.now }
    {
        let start = self.start;
        bytes::rest(b, start)
    }
}

// The entries of a multi-type header extension: the first of type 1 decides.
#[tactic(auto, using(crate::proofs::Extension::entries_end, crate::proofs::Extension::entries_found, crate::proofs::Extension::entries_last, crate::proofs::Extension::entries_next), unfolding(crate::specs::Mmtp::bits_of))]
fn scramble_of(s: &[u8]) -> Scramble
    ensures { result ≡ entries s.now 0 }
{
    let mut q: usize = 0;
    // By a cursor: it jumps by what was read, which no iterator of std does.
    while q < s.len() {
        if s.len() - q < 4 {
            return Scramble::Absent;
        }
        let entry_type = bytes::get_u16(s, q);
        let scrambles = entry_type % 32768 == 1;
        if scrambles {
            let p = q + 4;
            if p < s.len() {
                return Scramble::Bits(s[p] / 8 % 4);
            }
            return Scramble::NoByte;
        }
        if 128 <= s[q] {
            return Scramble::Absent;
        }
        q = q + 4 + bytes::get_u16(s, q + 2) as usize;
    }
    Scramble::Absent
}

// The extension at a place: type, length and so many bytes.
#[tactic(auto, unfolding(crate::specs::Mmtp::extension_at))]
fn extension_at(b: &[u8], at: usize) -> Option<(Scramble, usize)>
    ensures { result ≡ extension_at b.now at }
{
    if b.len() < at {
        return None;
    }
    if b.len() - at < 4 {
        return None;
    }
    let p = at + 4;
    let n = bytes::get_u16(b, at + 2) as usize;
    if b.len() - p < n {
        return None;
    }
    let e = p + n;
    if bytes::get_u16(b, at) == 0 {
        return Some((scramble_of(bytes::part(b, p, n)), e));
    }
    Some((Scramble::Absent, e))
}

// A packet counter of 4 bytes may follow the 12.
fn fixed_size(flags: u8) -> usize
    ensures { result ≡ fixed_size flags }
{
    if flags / 32 % 2 == 0 { 12 } else { 16 }
}

#[tactic(auto, unfolding(crate::specs::Mmtp::after_fixed))]
fn after_fixed(b: &[u8], flags: u8) -> Option<(Scramble, usize)>
    ensures { result ≡ after_fixed b.now flags }
{
    let at = fixed_size(flags);
    if flags / 2 % 2 == 0 {
        if b.len() < at {
            return None;
        }
        return Some((Scramble::Absent, at));
    }
    extension_at(b, at)
}

// The header's fields. The caller has seen the 12 bytes.
fn header_of(b: &[u8], flags: u8, scramble: Scramble) -> Header
    requires { 12 ≤ length b.now }
    ensures { result ≡ header_of b.now flags scramble }
{
    Header {
        fec_type: FecType::from(flags / 8),
        rap: flags % 2 == 1,
        payload_type: PayloadType::from(b[1]),
        packet_id: bytes::get_u16(b, 2),
        sequence: bytes::get_u32(b, 8),
        scramble_info: scramble.info(),
        scramble_control: scramble.control(),
    }
}

// An MMTP packet: its header, and where its payload starts.
#[tactic(auto, unfolding(crate::specs::Mmtp::mmtp_of))]
pub fn parse(b: &[u8]) -> Option<Packet>
    ensures { result ≡ mmtp_of b.now }
{
    if b.len() < 12 {
        return None;
    }
    let flags = b[0];
    if flags / 64 != 0 {
        return None;
    }
    let (scramble, start) = after_fixed(b, flags)?;
    Some(Packet {
        header: header_of(b, flags, scramble),
        start,
    })
}

// A set of table ids: bit i of word k stands for the id 64 k + i.
#[derive(Clone, Copy, Debug, PartialEq, Eq)]
pub struct TableIds {
    pub words: [u64; 4],
}

const NO_TABLE_IDS: TableIds = TableIds { words: [0; 4] };

impl TableIds {
    // Whether an id is in the set.
    #[tactic(auto, unfolding(crate::specs::Messages::has))]
    pub fn contains(self, id: u8) -> bool
        ensures { result ≡ has self id }
    {
        (self.words[usize::from(id / 64)] >> (id % 64)) % 2 == 1
    }
}

#[tactic(auto, unfolding(crate::specs::Messages::insert))]
fn insert_id(t: TableIds, id: u8) -> TableIds
    ensures { result ≡ insert id t }
{
    let k = usize::from(id / 64);
    let mut s = t;
    s.words[k] = bytes::with_bit(s.words[k], id);
    s
}

// Message ids (Table 4-6). CA, 0x8001, lies between the last two.
pub const PA_MESSAGE: u16 = 0x0000;

pub const M2_SECTION_MESSAGE: u16 = 0x8000;

pub const M2_SHORT_SECTION_MESSAGE: u16 = 0x8002;

// A control message: its id and the ids of the tables it carries.
#[derive(Clone, Copy, Debug, PartialEq, Eq)]
pub struct Message {
    pub id: u16,
    pub tables: TableIds,
}

// The ids in the table list of a PA message's body, n of them or as many as are present.
fn listed(body: &[u8], n: u8) -> TableIds
    ensures { result ≡ insert_all (listed_from n body.now 1) no_table_ids }
{
    let mut t = NO_TABLE_IDS;
    for k in 0..n {
        let at = 1 + 4 * usize::from(k);
        if body.len() <= at {
            return t;
        }
        t = insert_id(t, body[at]);
    }
    t
}

// The ids of the tables themselves, which stand one behind the other from a place on.
#[tactic(auto, using(crate::proofs::Messages::walked_next, crate::proofs::Messages::walked_end))]
fn walked(body: &[u8], from: usize, known: TableIds) -> TableIds
    ensures { result ≡ insert_all (walked_from body.now from) known }
{
    let mut t = known;
    let mut at = from;
    // By a cursor, as above.
    while at < body.len() {
        if body.len() - at < 4 {
            return t;
        }
        t = insert_id(t, body[at]);
        at = at + 4 + bytes::get_u16(body, at + 2) as usize;
    }
    t
}

// The table ids of a PA message's body.
#[tactic(auto, using(crate::proofs::Messages::insert_both), unfolding(crate::specs::Messages::set_of, crate::specs::Messages::pa_tables))]
fn pa_tables(body: &[u8]) -> TableIds
    requires { 0 < length body.now }
    ensures { result ≡ set_of (pa_tables body.now) }
{
    let n = body[0];
    walked(body, 1 + 4 * n as usize, listed(body, n))
}

#[tactic(auto, unfolding(crate::specs::Messages::pa_message))]
fn pa_message(m: &[u8]) -> Option<Message>
    ensures { result ≡ pa_message m.now }
{
    if m.len() < 7 {
        return None;
    }
    let body = bytes::part(m, 7, bytes::get_u32(m, 3) as usize);
    if body.len() == 0 {
        return None;
    }
    Some(Message {
        id: PA_MESSAGE,
        tables: pa_tables(body),
    })
}

// An M2 section, CA or M2 short section message: the table id follows id, version and length.
#[tactic(auto, unfolding(crate::specs::Messages::section_message, crate::specs::Messages::set_of))]
fn section_message(m: &[u8], id: u16) -> Option<Message>
    ensures { result ≡ section_message m.now id }
{
    if m.len() < 6 {
        return None;
    }
    Some(Message {
        id,
        tables: insert_id(NO_TABLE_IDS, m[5]),
    })
}

// One message.
#[tactic(auto, unfolding(crate::specs::Messages::message_of))]
fn message_of(m: &[u8]) -> Option<Message>
    ensures { result ≡ message_of m.now }
{
    if m.len() < 2 {
        return None;
    }
    let id = bytes::get_u16(m, 0);
    match id {
        PA_MESSAGE => pa_message(m),
        M2_SECTION_MESSAGE..=M2_SHORT_SECTION_MESSAGE => section_message(m, id),
        _ => Some(other(id)),
    }
}

// A message whose tables are not looked at.
fn other(id: u16) -> Message
    ensures { result ≡ record { id = id; tables = no_table_ids } }
{
    Message {
        id,
        tables: NO_TABLE_IDS,
    }
}

// What stands at a place of a payload: a message and the place behind it, or nothing more, or what makes the whole
// payload refused.
// Three cases, two of which end the walk: an Option of a Result names none of them.
#[derive(Clone, Copy, Debug, PartialEq, Eq)]
pub enum MessageStep {
    Refused,
    End,
    Found(Message, usize),
}

// The message in the bytes from at to end.
#[tactic(auto, unfolding(crate::specs::Messages::message_in))]
fn message_in(p: &[u8], at: usize, end: usize) -> MessageStep
    requires { (at ≤ end) × (end ≤ length p.now) }
    ensures { result ≡ message_in p.now at end }
{
    match message_of(&p[at..end]) {
        None => MessageStep::Refused,
        Some(m) => MessageStep::Found(m, end),
    }
}

// The message behind a length of w bytes.
#[tactic(auto, using(crate::proofs::Numbers::be_whole), unfolding(crate::specs::Messages::prefixed_at))]
fn prefixed(p: &[u8], at: usize, w: usize) -> MessageStep
    requires { (at ≤ length p.now) × (w ≤ 4) }
    ensures { result ≡ prefixed_at p.now at w }
{
    if p.len() - at < w {
        return MessageStep::Refused;
    }
    let from = at + w;
    let n = bytes::number(p, at, w as u8) as usize;
    if p.len() - from < n {
        return MessageStep::Refused;
    }
    message_in(p, from, from + n)
}

// The message at a place, alone or aggregated.
#[tactic(auto, unfolding(crate::specs::Messages::message_at))]
fn message_at(p: &[u8], at: usize) -> MessageStep
    requires { (at ≤ length p.now) × (2 ≤ length p.now) }
    ensures { result ≡ message_at p.now at }
{
    let flags = p[0];
    if flags % 2 == 0 {
        return message_in(p, at, p.len());
    }
    if flags / 2 % 2 == 0 {
        return prefixed(p, at, 2);
    }
    prefixed(p, at, 4)
}

// The messages of an undivided control payload, by a cursor: the first one stands at 2, and a place before it means it too.
#[tactic(auto, unfolding(crate::specs::Messages::message_step))]
pub fn next_message(p: &[u8], at: usize) -> MessageStep
    ensures { result ≡ message_step p.now at }
{
    if p.len() < 2 {
        return MessageStep::Refused;
    }
    if p[0] / 64 != 0 {
        return MessageStep::Refused;
    }
    if at <= 2 {
        return message_at(p, 2);
    }
    if p.len() <= at {
        return MessageStep::End;
    }
    message_at(p, at)
}

// Whether a control payload is an undivided one whose messages can all be identified, and how many there are.
#[tactic(auto, using(crate::proofs::Messages::messages_at, crate::proofs::Messages::step_ahead, crate::proofs::Messages::one_more), unfolding(crate::specs::Messages::messages_of, crate::specs::Messages::counted))]
pub fn messages(p: &[u8]) -> Option<usize>
    ensures { result ≡ counted (messages_of p.now) }
{
    let mut at: usize = 2;
    let mut n: usize = 0;
    // No iterator: a step may refuse the whole payload, and has three answers.
    loop {
        match next_message(p, at) {
            MessageStep::Refused => return None,
            MessageStep::End => return Some(n),
            MessageStep::Found(_, next) => {
                n += 1;
                at = next;
            }
        }
    }
}
