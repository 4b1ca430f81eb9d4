// A policy: where its fields lie.
pub const SID_COUNT: usize = 0;

pub const START: usize = 1;

pub const RESERVED: usize = 2;

pub const SIDS: usize = 16;
