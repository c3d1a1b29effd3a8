// The search: of the heaviest matches of the requests, the first in dictionary order. Masks for sets, lists of 32 for partners, no recursion.
// Only `first` and `asking` can be reached from outside; what they are made of asks for what its callers have shown.
// A port is a plain number below 32: it is read from lists of bytes, indexes lists and goes into masks at nearly every step, and a type of its own
// would be unwrapped and wrapped again at each of them.
#![tactic(auto)]

mod choice;
mod heaviest;
mod pairing;
mod problem;
mod reach;
mod rows;
mod settle;

pub use choice::{Found, first};
pub use rows::asking;
