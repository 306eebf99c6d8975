// The upper layers of an ISDB-S3 feed: what an MMTP payload or a section holds.
#![tactic(auto)]

pub mod decoder;
pub mod desc;
pub mod descriptor_walk;
pub mod location;
pub mod maybe;
pub mod message;
pub mod mpu;
pub mod ntp;
pub mod part;
pub mod table;
pub mod timestamp;
pub mod walk_step;
