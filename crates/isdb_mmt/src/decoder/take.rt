// A packet that is taken: where it leads, and the arm that takes it.
// Translated from decoder.rs of isdb-rs (Apache-2.0, see NOTICE) and changed.
ghost use Rattle.std.specs.Prelude.{◌≡◌};
ghost use Rattle.isdb_tlv.specs.Mmtp.{mmtp_of};
ghost use Rattle.isdb_tlv.specs.Guards.{◌<?◌};
ghost use Rattle.isdb_mmt.specs.Decoder.Packet.{classify, mmtp_in, by_type};
ghost use Rattle.isdb_mmt.specs.Memory.Session.{limits_of, counters_of};
ghost use Rattle.isdb_mmt.specs.Memory.Lending.{lent_mut, SameBuffers};
ghost use Rattle.isdb_mmt.specs.Pushes.Answer.{answered};
ghost use Rattle.isdb_mmt.specs.Pushes.Push.{CanTakePacket, PacketPushed};

use crate::decoder::push_control::push_control;
use crate::decoder::push_media::push_media;
use crate::decoder::push_message::push_message;
use crate::decoder::records::HandedOut;
use crate::decoder::refusal::Refusal;
use crate::decoder::route::Route;
use crate::decoder::session::SessionMut;
use crate::decoder::{counted, layout, records, route};
use isdb_tlv::mmtp::{Header, PayloadType};
use isdb_tlv::{bytes, mmtp};

// Question 7.
#[tactic(auto, unfolding(crate::specs::Memory::Session::counters_of, crate::specs::Memory::Session::limits_of))]
pub(crate) fn may_take(state: &[u8]) -> bool
    ensures { result ≡ ((counters_of state.now).tlv_packets <? (limits_of state.now).packets) }
{
    bytes::get_u64(state, layout::COUNTERS) < bytes::get_u64(state, 48)
}

// An MMTP packet with the header h and the payload b.
fn by_type(
    session: &mut SessionMut<'_>,
    h: Header,
    b: &[u8],
    rows: &mut [u8],
    out: &mut [u8],
) -> Result<HandedOut, Refusal>
    requires { CanTakePacket (lent_mut session.old) b.now }
    ensures same_buffers { SameBuffers session.old session.new }
    ensures pushed { PacketPushed (lent_mut session.old) rows.old out.old (by_type h b.now h.payload_type) (answered result).number (answered result).records (answered result).bytes (lent_mut session.new) rows.new out.new }
{
    match h.payload_type {
        PayloadType::Mpu => push_media(session, h, b, rows, out),
        PayloadType::Messages => {
            push_message(session, h.packet_id, h.sequence, b)?;
            records::accepted(0, 0)
        }
        PayloadType::GenericObject => {
            counted::count_packet(session.state, 0, 0);
            records::accepted(0, 0)
        }
        PayloadType::FecRepair => {
            counted::count_packet(session.state, 0, 0);
            records::accepted(0, 0)
        }
        PayloadType::Reserved(c) => {
            counted::count_packet(session.state, 0, 0);
            records::accepted(0, 0)
        }
    }
}

// The payload of a UDP datagram.
#[tactic(auto, using(crate::proofs::Taking::may_count_non, crate::proofs::Taking::can_within, crate::proofs::Taking::is_mmtp))]
fn push_mmtp(
    session: &mut SessionMut<'_>,
    b: &[u8],
    rows: &mut [u8],
    out: &mut [u8],
) -> Result<HandedOut, Refusal>
    requires { CanTakePacket (lent_mut session.old) b.now }
    ensures same_buffers { SameBuffers session.old session.new }
    ensures pushed { PacketPushed (lent_mut session.old) rows.old out.old (mmtp_in b.now (mmtp_of b.now)) (answered result).number (answered result).records (answered result).bytes (lent_mut session.new) rows.new out.new }
{
    match mmtp::parse(b) {
        None => {
            counted::count_packet(session.state, 0, 1);
            records::accepted(0, 0)
        }
        Some(p) => { by_type(session, p.header, p.payload(b), rows, out) }
    }
}

// A packet, questions 5 to 7 answered. A later call can ask question 5 once for many packets.
pub(crate) fn take(
    session: &mut SessionMut<'_>,
    kind: u8,
    b: &[u8],
    rows: &mut [u8],
    out: &mut [u8],
) -> Result<HandedOut, Refusal>
    requires { CanTakePacket (lent_mut session.old) b.now }
    ensures same_buffers { SameBuffers session.old session.new }
    ensures pushed { PacketPushed (lent_mut session.old) rows.old out.old (classify kind b.now) (answered result).number (answered result).records (answered result).bytes (lent_mut session.new) rows.new out.new }
{
    match route::find_route(kind, b) {
        Route::IpError => {
            counted::count_packet(session.state, 1, 0);
            records::accepted(0, 0)
        }
        Route::Time(at) => {
            counted::push_time(session.state, route::time_in(bytes::rest(b, at)));
            records::accepted(0, 0)
        }
        Route::Mmtp(at) => push_mmtp(session, bytes::rest(b, at), rows, out),
        Route::Control => {
            push_control(session, b)?;
            records::accepted(0, 0)
        }
        Route::Null => {
            counted::count_packet(session.state, 0, 0);
            records::accepted(0, 0)
        }
        Route::Other => {
            counted::count_packet(session.state, 0, 0);
            records::accepted(0, 0)
        }
    }
}
