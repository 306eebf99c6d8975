// Fields as numbers: MPU numbers, addresses, and why a section was not read.
ghost use Rattle.std.specs.Prelude.{◌≡◌};
ghost use Rattle.isdb_host.specs.Fields.{first_mpu_of, last_mpu, wide_address, address_high, address_low, reason_of};

use crate::values;
use isdb_mmt::decoder::readings::MpuRange;
use isdb_mmt::table::section::SectionError;
use isdb_tlv::ip::Address;

// The first and the last of the MPU numbers that were seen.
pub(crate) fn first_mpu(m: Option<MpuRange>) -> u64
    ensures { result ≡ first_mpu_of m }
{
    m.map_or(0, |x| x.first as u64)
}

pub(crate) fn last_mpu(m: Option<MpuRange>) -> u64
    ensures { result ≡ last_mpu m }
{
    m.map_or(0, |x| x.last as u64)
}

// Whether an address is of IPv6, and its two halves; one of IPv4 is the low half. By names: the three are read off one address.
pub(crate) fn wide_address(a: Address) -> u64
    ensures { result ≡ wide_address a }
{
    match a {
        Address::V4(_) => 0,
        Address::V6(_, _) => 1,
    }
}

pub(crate) fn address_high(a: Address) -> u64
    ensures { result ≡ address_high a }
{
    match a {
        Address::V4(_) => 0,
        Address::V6(high, _) => high,
    }
}

pub(crate) fn address_low(a: Address) -> u64
    ensures { result ≡ address_low a }
{
    match a {
        Address::V4(n) => n as u64,
        Address::V6(_, low) => low,
    }
}

// The code of a section that was not read; the codes are this crate's, so that no `From` of isdb_mmt gives them.
pub(crate) fn reason(e: SectionError) -> u8
    ensures { result ≡ reason_of e }
{
    match e {
        SectionError::Truncated => values::TRUNCATED,
        SectionError::Crc => values::BAD_CRC,
        SectionError::Malformed => values::MALFORMED,
    }
}
