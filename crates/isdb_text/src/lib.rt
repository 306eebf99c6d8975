// Text in lent bytes, and what the programs write.
#![tactic(auto)]

pub mod digits;
pub mod dump_descriptors;
pub mod dump_kept;
pub mod dump_packets;
pub mod dump_session;
pub mod dump_tables;
pub mod fill;
pub mod kept_tables;
pub mod listing;
pub mod replay_kept;
pub mod text;
pub mod window;
