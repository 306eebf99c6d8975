// MMT-SI tables (ARIB STD-B60, 7.3.3) and TLV-SI tables (5.2), a module each.
pub mod amt;
pub mod bit;
pub mod eit;
pub mod mpt;
pub mod nit;
pub mod plt;
pub mod sdt;
pub mod section;
pub mod tot;
