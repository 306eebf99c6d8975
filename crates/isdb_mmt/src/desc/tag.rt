// The tags of the descriptors that are known here by name (ARIB STD-B60, Table 4-10).

// MPU timestamp descriptor (7.4.3.5).
pub const MPU_TIMESTAMP: u16 = 0x0001;

// Dependency descriptor (7.4.3.6).
pub const DEPENDENCY: u16 = 0x0002;

// Access control descriptor (7.4.3.7).
pub const ACCESS_CONTROL: u16 = 0x8004;

// Scrambler descriptor (7.4.3.8).
pub const SCRAMBLER: u16 = 0x8005;

// MH-HEVC descriptor (7.4.3.13).
pub const HEVC: u16 = 0x800A;

// MH-service list descriptor (7.4.3.16).
pub const SERVICE_LIST: u16 = 0x800D;

// MH-stream identifier descriptor (7.4.3.20).
pub const STREAM_IDENTIFIER: u16 = 0x8011;

// MH-content descriptor (7.4.3.21).
pub const CONTENT: u16 = 0x8012;

// MH-broadcaster name descriptor (7.4.3.27).
pub const BROADCASTER_NAME: u16 = 0x8018;

// MH-service descriptor (7.4.3.28).
pub const SERVICE: u16 = 0x8019;

// MPU extended timestamp descriptor (7.4.3.35).
pub const MPU_EXTENDED_TIMESTAMP: u16 = 0x8026;

// MH-short event descriptor (7.4.3.17).
pub const SHORT_EVENT: u16 = 0xF001;
