// The calls for hosts in other languages: numbers and slices alone. A call answers a code; 0 says that the sixteen numbers of `v`
// are the answer, all of them set; any other code leaves `v` as it was.
#![tactic(auto)]

mod descriptors;
mod fields;
mod session;
mod tables;
mod values;
