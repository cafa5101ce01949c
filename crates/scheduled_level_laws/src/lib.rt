//! The levels of a receiver's coded data buffer that the packets of a schedule give, from whatever
//! packet on it gets them: laws by which entering later makes nothing worse.
#![tactic(auto)]
