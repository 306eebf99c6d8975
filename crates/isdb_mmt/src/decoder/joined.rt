// A joined message in two pieces, one behind the other: a lies in the message area, b in the packet that makes it whole. An
// undivided message is b alone.
ghost use Rattle.std.specs.Prelude.{◌≡◌, ◌+◌, ◌*◌, ◌≤◌, ◌++◌, length, slice_index};
ghost use Rattle.isdb_tlv.specs.Bytes.{be};
ghost use Rattle.isdb_mmt.specs.Memory.Layout.{most_message_area};
ghost use Rattle.isdb_mmt.specs.Formats.Message.{prefix_width, aggregated_at, body_part, section_table, pa_tables, content_of, table_at};
ghost use Rattle.isdb_mmt.specs.Pushes.Placed.{behind as behind_in};

use crate::message::Content;
use crate::part::Part;
use crate::walk_step::WalkStep;
use isdb_tlv::bytes;

// Of a part of the message, where the first piece has n bytes: what lies in the second.
#[tactic(auto, unfolding(crate::specs::Pushes::Placed::behind))]
pub(crate) fn behind(n: usize, p: Part) -> Part
    ensures { result ≡ behind_in n p }
{
    Part {
        start: p.start.saturating_sub(n),
        length: p.length.saturating_sub(n.saturating_sub(p.start)),
    }
}

fn size(a: &[u8], b: &[u8]) -> usize
    requires { length (a.now ++ b.now) ≤ most_message_area }
    ensures { result ≡ length (a.now ++ b.now) }
{
    a.len() + b.len()
}

#[tactic(auto, using(crate::proofs::Joined::byte_left, crate::proofs::Joined::byte_right))]
fn byte(a: &[u8], b: &[u8], i: usize) -> u8
    ensures { result ≡ slice_index (a.now ++ b.now) i }
{
    if i < a.len() {
        return a[i];
    }
    bytes::get_u8(b, i - a.len())
}

#[tactic(auto, unfolding(isdb_tlv::specs::Bytes::be))]
fn half(a: &[u8], b: &[u8], at: usize) -> u16
    requires { at ≤ 2 * most_message_area }
    ensures { result ≡ be 2 (a.now ++ b.now) at }
{
    byte(a, b, at) as u16 * 256 + byte(a, b, at + 1) as u16
}

fn word(a: &[u8], b: &[u8], at: usize) -> u32
    requires { at ≤ most_message_area }
    ensures { result ≡ be 4 (a.now ++ b.now) at }
{
    half(a, b, at) as u32 * 65536 + half(a, b, at + 2) as u32
}

// The length before a message of an aggregated payload, and the bytes that it has.
fn prefix(a: &[u8], b: &[u8], long: bool, at: usize) -> usize
    requires { at ≤ most_message_area }
    ensures { result ≡ be (prefix_width long) (a.now ++ b.now) at }
{
    if long {
        return word(a, b, at) as usize;
    }
    half(a, b, at) as usize
}

fn prefix_width(long: bool) -> usize
    ensures { result ≡ prefix_width long }
{
    if long { 4 } else { 2 }
}

// The messages of an aggregated payload, by a cursor that starts at 0.
#[tactic(auto, unfolding(crate::specs::Formats::Message::aggregated_at))]
pub(crate) fn next_message(a: &[u8], b: &[u8], long: bool, at: usize) -> WalkStep<Part>
    requires { length (a.now ++ b.now) ≤ most_message_area }
    ensures { result ≡ aggregated_at (a.now ++ b.now) long at }
{
    let k = prefix_width(long);
    let all = size(a, b);
    if all.saturating_sub(at) < k {
        return WalkStep::End;
    }
    let start = at + k;
    let n = prefix(a, b, long, at);
    if all - start < n {
        return WalkStep::Malformed;
    }
    WalkStep::Entry(Part { start, length: n }, start + n)
}

fn body_part(a: &[u8], b: &[u8]) -> Part
    requires { length (a.now ++ b.now) ≤ most_message_area }
    ensures { result ≡ body_part (a.now ++ b.now) }
{
    let n = word(a, b, 3) as usize;
    Part {
        start: 7,
        length: size(a, b).saturating_sub(7).min(n),
    }
}

#[tactic(auto, unfolding(crate::specs::Formats::Message::section_table))]
fn section_table(a: &[u8], b: &[u8]) -> Content
    requires { length (a.now ++ b.now) ≤ most_message_area }
    ensures { result ≡ section_table (a.now ++ b.now) }
{
    let all = size(a, b);
    if all < 5 {
        return Content::Malformed;
    }
    let n = half(a, b, 3) as usize;
    if all - 5 < n {
        return Content::Malformed;
    }
    Content::Table(Part {
        start: 5,
        length: n,
    })
}

#[tactic(auto, unfolding(crate::specs::Formats::Message::pa_tables))]
fn pa_tables(a: &[u8], b: &[u8]) -> Content
    requires { length (a.now ++ b.now) ≤ most_message_area }
    ensures { result ≡ pa_tables (a.now ++ b.now) }
{
    if size(a, b) < 7 {
        return Content::Malformed;
    }
    let body = body_part(a, b);
    if body.length == 0 {
        return Content::Nothing;
    }
    Content::Tables {
        body,
        at: byte(a, b, 7) as usize * 4 + 1,
    }
}

// What a message holds.
#[tactic(auto, unfolding(crate::specs::Formats::Message::content_of))]
pub(crate) fn content_of(a: &[u8], b: &[u8]) -> Content
    requires { length (a.now ++ b.now) ≤ most_message_area }
    ensures { result ≡ content_of (a.now ++ b.now) }
{
    if size(a, b) < 2 {
        return Content::Malformed;
    }
    match half(a, b, 0) {
        0x0000 => pa_tables(a, b),
        0x8000..=0x8002 => section_table(a, b),
        _ => Content::Nothing,
    }
}

// The tables of a PA message's body, by a cursor that starts where content says.
#[tactic(auto, unfolding(crate::specs::Formats::Message::table_at))]
pub(crate) fn next_table(a: &[u8], b: &[u8], at: usize) -> WalkStep<Part>
    requires { length (a.now ++ b.now) ≤ most_message_area }
    ensures { result ≡ table_at (a.now ++ b.now) at }
{
    let left = size(a, b).saturating_sub(at);
    if left < 4 {
        return WalkStep::End;
    }
    let n = half(a, b, at + 2) as usize + 4;
    if left < n {
        return WalkStep::Malformed;
    }
    WalkStep::Entry(
        Part {
            start: at,
            length: n,
        },
        at + n,
    )
}
