// The send queue for C and Rust programs (include/tevrulig.h): each operation of document 01 on a producer that the caller keeps. What
// is answered is a status, 0 or the number of a refusal of document 01, and values in memory that the caller lends. A refusal leaves
// producer and memory as they were, but for 6, which may flush and answers its two numbers.
#![tactic(auto)]

mod lent;
mod query;
mod send;
mod settings;
mod settle;
mod take;
