// The near end: where GTP-U becomes SRv6.
#![tactic(auto)]

pub mod d4; // d4.rt: H.M.GTP4.D
pub mod gtp6d; // gtp6d.rt: End.M.GTP6.D and End.M.GTP6.D.Di
