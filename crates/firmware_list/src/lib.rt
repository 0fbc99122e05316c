// The calls on a list of servers for C: images of 32 octets one after another, and the number of the one in use (docs/C.md).
#![tactic(auto)]

pub mod calls;
mod images;
