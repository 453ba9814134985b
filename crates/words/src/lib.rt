// The channels as u16 words, and a call's result as one u64, for callers in C. specs/ has the rules.
#![tactic(auto)]

pub mod channel;
pub mod result;
pub mod table;
