// The client and the server for C: plain numbers, and slices that C lends as a pointer and a length (docs/C.md).
#![tactic(auto)]

pub mod client_calls;
pub mod numbers;
pub mod server_calls;
