// The list of a session's media ids and counts, as `feedlist` writes it.
ghost use Rattle.isdb_mmt.specs.Memory.Lending.{lent_by};
ghost use Rattle.isdb_text.specs.Text.{Wrote};
ghost use Rattle.isdb_text.specs.Listing.{media_line, media_text, media_lines, stop_text, last_line, listing_of};

use crate::{fill, text};
use isdb_mmt::decoder::counts::Counters;
use isdb_mmt::decoder::readings::MediaState;
use isdb_mmt::decoder::refusal::Refusal;
use isdb_mmt::decoder::session::Session;
use isdb_mmt::maybe;
use isdb_tlv::cut::Stop;

#[tactic(auto, unfolding(crate::specs::Listing::media_line))]
fn media_row(out: &mut [u8], at: usize, id: u32, m: MediaState) -> usize
    ensures { Wrote out.old at (media_line id m) out.new result }
{
    let s = m.stats;
    let values = [
        id as u64,
        s.packets,
        s.packets_lost,
        s.scrambled_packets,
        s.mfus,
        s.mfus_dropped,
        maybe::given(m.held),
        s.malformed,
    ];
    fill::fill(out, at, b"# # # # # # # #\n", &values)
}

fn media_text(out: &mut [u8], at: usize, id: u32, m: Result<Option<MediaState>, Refusal>) -> usize
    ensures { Wrote out.old at (media_text id m) out.new result }
{
    match m {
        Ok(Some(x)) => media_row(out, at, id, x),
        Ok(None) | Err(_) => text::place(out, at),
    }
}

// A line for each media id, in ascending order.
fn media_lines(session: Session<'_>, out: &mut [u8], at: usize) -> usize
    ensures { Wrote out.old at (media_lines (lent_by session.entry)) out.new result }
{
    let mut p = text::place(out, at);
    let mut from = 0;
    // The next id is known once this one is read.
    for _ in 0..64u8 {
        let Ok(Some(id)) = session.next_media(from) else {
            break;
        };
        p = media_text(out, p, id, session.media(id));
        if id == u32::MAX {
            break;
        }
        from = id + 1;
    }
    p
}

fn stop_text(out: &mut [u8], at: usize, stop: Stop) -> usize
    ensures { Wrote out.old at (stop_text stop) out.new result }
{
    match stop {
        Stop::Clean => text::put(out, at, b"clean\n"),
        Stop::Bad(offset) => fill::fill(out, at, b"bad #\n", &[offset]),
        Stop::Refused(number) => fill::fill(out, at, b"refused #\n", &[number as u64]),
    }
}

#[tactic(auto, using(crate::proofs::Written::writing))]
fn last_line(out: &mut [u8], at: usize, c: Result<Counters, Refusal>, stop: Stop) -> usize
    ensures { Wrote out.old at (last_line c stop) out.new result }
{
    match c {
        Ok(n) => {
            let values = [n.tlv_packets, n.ip_errors, n.non_mmtp];
            let p = fill::fill(out, at, b"tlv # ip # other # end ", &values);
            stop_text(out, p, stop)
        }
        Err(e) => {
            let p = text::put(out, at, b"tlv 0 ip 0 other 0 end ");
            stop_text(out, p, Stop::Refused(e.number()))
        }
    }
}

// The whole list, and where reading the recording stopped.
#[tactic(auto, using(crate::proofs::Written::writing), unfolding(crate::specs::Listing::listing_of))]
pub fn listing(session: Session<'_>, stop: Stop, out: &mut [u8], at: usize) -> usize
    ensures { Wrote out.old at (listing_of (lent_by session.entry) stop) out.new result }
{
    let p = text::put(
        out,
        at,
        b"id packets lost scrambled mfus dropped held malformed\n",
    );
    let q = media_lines(session, out, p);
    last_line(out, q, session.counters(), stop)
}
