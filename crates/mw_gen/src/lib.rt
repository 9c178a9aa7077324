//! The text of the workload that `mw gen N` will run. It stands on nothing, and the program doesn't use it yet.
//!
//! `generate` answers an object-oriented module GEN and, on the last line, the command `rewrite accounts(n) moves(n, n)
//! .`; each line ends with a line feed. The module unfolds `accounts(n)` to n accounts with a balance of 100 each, and
//! `moves(n, n)` to n messages; message i moves from 1 to 9 from account i to account i + 1, the last one to account 0.
//! So no account runs short, and messages between different accounts can be delivered at the same time.
//!
//! Proved: the answer is the text of the definition (specs/Workload), byte for byte. Condition: n is from 2 to 2,000.
//! Want of memory may come at any call. Tested by mw_tests: that it answers. Not promised: how many rewrites a run
//! takes (8n + 2 are meant).
#![tactic(auto)]

mod workload;

pub use workload::generate;
