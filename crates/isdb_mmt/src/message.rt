// MMT-SI messages (ARIB STD-B60, 7.2, Tables 7-1 to 7-4) of control payloads: an aggregated payload is cut into messages, a
// message into the tables it carries.
// Translated from message.rs of isdb-rs (Apache-2.0, see NOTICE) and changed.
ghost use Rattle.std.specs.Prelude.{◌≡◌, ◌≤◌, length};
ghost use Rattle.isdb_mmt.specs.Formats.Message.{fragment_of, prefix_width, aggregated_at, body_part, section_table, pa_tables, content_of, table_at};

use crate::part;
use crate::part::Part;
use crate::walk_step::WalkStep;
use isdb_tlv::{bytes, mmtp};

// What a control payload's first byte says.
#[derive(Clone, Copy, Debug, PartialEq, Eq)]
pub enum Division {
    // 00: a whole message.
    Undivided,
    // 01: the first part.
    First,
    // 10: neither the first nor the last.
    Middle,
    // 11: the last part.
    Last,
}

#[derive(Clone, Copy, Debug, PartialEq, Eq)]
pub struct Fragment {
    pub division: Division,
    // Lengths of 4 bytes where aggregated, else of 2.
    pub long_length: bool,
    pub aggregated: bool,
}

// From the first byte of a payload. Its data start at 2.
impl From<u8> for Fragment {
    ghost from_gives = { λ flags f. f ≡ fragment_of flags };

    #[tactic(auto, unfolding(crate::specs::Formats::Message::division_of))]
    fn from(flags: u8) -> Fragment {
        Fragment {
            division: match flags / 64 {
                0 => Division::Undivided,
                1 => Division::First,
                2 => Division::Middle,
                _ => Division::Last,
            },
            long_length: flags / 2 % 2 == 1,
            aggregated: flags % 2 == 1,
        }
    }
}

fn prefix_width(long: bool) -> u8
    ensures { result ≡ prefix_width long }
{
    if long { 4 } else { 2 }
}

// The messages of an aggregated payload's data, by a cursor that starts at 0.
#[tactic(auto, using(crate::proofs::AggregatedMessages::length_whole), unfolding(crate::specs::Formats::Message::aggregated_at))]
pub fn next_message(b: &[u8], long: bool, at: usize) -> WalkStep<Part>
    ensures { result ≡ aggregated_at b.now long at }
{
    let w = prefix_width(long);
    let k = w as usize;
    if part::left(b, at) < k {
        return WalkStep::End;
    }
    let start = at + k;
    let n = bytes::number(b, at, w) as usize;
    if b.len() - start < n {
        return WalkStep::Malformed;
    }
    WalkStep::Entry(Part { start, length: n }, start + n)
}

// What a message holds.
#[derive(Clone, Copy)]
pub enum Content {
    // Too short for its id, its length or its table.
    Malformed,
    // No table.
    Nothing,
    // One table.
    Table(Part),
    // A PA message's body: tables one behind the other, from its own byte at on.
    Tables { body: Part, at: usize },
}

// The body of a PA message: the declared bytes, as far as they are there.
fn body_part(m: &[u8]) -> Part
    requires { 7 ≤ length m.now }
    ensures { result ≡ body_part m.now }
{
    Part {
        start: 7,
        length: (m.len() - 7).min(bytes::get_u32(m, 3) as usize),
    }
}

#[tactic(auto, unfolding(crate::specs::Formats::Message::section_table))]
fn section_table(m: &[u8]) -> Content
    ensures { result ≡ section_table m.now }
{
    if m.len() < 5 {
        return Content::Malformed;
    }
    let n = bytes::get_u16(m, 3) as usize;
    if m.len() - 5 < n {
        return Content::Malformed;
    }
    Content::Table(Part {
        start: 5,
        length: n,
    })
}

#[tactic(auto, using(isdb_tlv::proofs::Fields::be_one), unfolding(crate::specs::Formats::Message::pa_tables))]
fn pa_tables(m: &[u8]) -> Content
    ensures { result ≡ pa_tables m.now }
{
    if m.len() < 7 {
        return Content::Malformed;
    }
    let body = body_part(m);
    if body.length == 0 {
        return Content::Nothing;
    }
    Content::Tables {
        body,
        at: bytes::get_u8(m, 7) as usize * 4 + 1,
    }
}

// A message, by its id: PA, M2 section, CA, M2 short section; others hold no table.
#[tactic(auto, unfolding(crate::specs::Formats::Message::content_of))]
pub fn content_of(m: &[u8]) -> Content
    ensures { result ≡ content_of m.now }
{
    if m.len() < 2 {
        return Content::Malformed;
    }
    match bytes::get_u16(m, 0) {
        mmtp::PA_MESSAGE => pa_tables(m),
        mmtp::M2_SECTION_MESSAGE..=mmtp::M2_SHORT_SECTION_MESSAGE => section_table(m),
        _ => Content::Nothing,
    }
}

// The tables of a PA message's body, by a cursor that starts where content says.
#[tactic(auto, unfolding(crate::specs::Formats::Message::table_at))]
pub fn next_table(body: &[u8], at: usize) -> WalkStep<Part>
    ensures { result ≡ table_at body.now at }
{
    let left = part::left(body, at);
    if left < 4 {
        return WalkStep::End;
    }
    let n = bytes::get_u16(body, at + 2) as usize + 4;
    if left < n {
        return WalkStep::Malformed;
    }
    WalkStep::Entry(
        Part {
            start: at,
            length: n,
        },
        at + n,
    )
}
