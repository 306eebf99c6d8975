// The lower layers of an ISDB-S3 feed: from a TLV packet's kind and data to an MMTP payload or a list of sections.
#![tactic(auto)]

pub mod bytes;
pub mod crc;
pub mod cut;
pub mod ip;
pub mod mmtp;
pub mod si;
pub mod tlv;
