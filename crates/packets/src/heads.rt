// What a packet of any kind begins with, told by the kinds whose head is that and no more.
use crate::{Default, Stopping};

// NID_PACKET, Q_DIR and L_PACKET: ETCS-254 has no other field.
pub const OUTER_HEAD: usize = Default::HEAD;

// NID_XUSER, Q_DIR and L_PACKET, of a CTCS packet: CTCS-5 has no Q_SCALE behind them.
pub const INNER_HEAD: usize = Stopping::HEAD;

// The bits of an L_PACKET, which is the last field of either head.
const L_PACKET: usize = 13;

// How many bits of its packet stand before an L_PACKET: NID_PACKET 8 or NID_XUSER 9, and Q_DIR 2.
pub const OUTER_L_PACKET: usize = OUTER_HEAD - L_PACKET;

pub const INNER_L_PACKET: usize = INNER_HEAD - L_PACKET;
