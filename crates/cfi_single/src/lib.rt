//! Laws that a request comes to one result, unless memory is wanting: its program or what it is given as, its entry's name and its policy
//! determine what it is prepared to (the program, the closed graph and the place where the program is entered), what it is hardened to (image, graph
//! and map) or which refusal is the first that stands.
#![tactic(auto)]

pub mod laws;
