// A datagram as bits and back (document 01, "What the module does"): first byte first, most significant bit first, from and to any bit of it.
#![tactic(auto)]

mod packing;
mod unpacking;

pub use packing::pack;
pub use unpacking::unpack;
