// NTP timestamps of 64 bits (RFC 5905, 6): seconds since 1900 in the high 32 bits, their fraction in the low 32.
// Translated from desc.rs of isdb-rs (Apache-2.0, see NOTICE) and changed.
ghost use Rattle.isdb_mmt.specs.Formats.Ntp.{Seconds};

// Seconds since the Unix epoch: rounded as the three operations round, exact where the low 11 bits are 0.
pub fn ntp_to_unix(t: u64) -> f64
    ensures { Seconds t result }
{
    (t >> 32) as f64 + (t & 0xFFFF_FFFF) as f64 / 4_294_967_296.0 - 2_208_988_800.0
}
