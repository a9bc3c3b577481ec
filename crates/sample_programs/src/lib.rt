//! Programs that tests verify and run: the words of their units, their graphs and their data, and what
//! makes their code of them; and how tables of tests are read. They stand here alone, since several crates
//! of tests use them.
#![tactic(auto)]

pub use bytes::{add_words, code, code_of_harts, code_of_harts_lean, code_of_lean};
pub use data::{
    APART_DATA, APART_OF_HARTS_DATA, GROUPS_DATA, JOBS_DATA, JOINED_DATA, JUMP_DATA, P_DATA,
    Q_DATA, Q_OF_HARTS_DATA,
};
pub use graphs::{
    A_CLASS_GRAPH, A_GRAPH, A_OF_HARTS_GRAPH, AIMED_GRAPH, APART_GRAPH, APART_OF_HARTS_GRAPH,
    B_GRAPH, B_OF_HARTS_GRAPH, BEHIND_GRAPH, BREAK_GRAPH, DEEP_GRAPH, ECHO_GRAPH, EDGE_GRAPH,
    GROUPS_GRAPH, H_GRAPH, JOBS_GRAPH, JOINED_GRAPH, JUMP_GRAPH, LOAD_GRAPH, LOOP_GRAPH,
    NARROW_GRAPH, NOWHERE_GRAPH, P_GRAPH, Q_GRAPH, Q_OF_HARTS_GRAPH, RELABELLED_GRAPH,
    SHARED_GRAPH, STATUS_GRAPH, STORES_GRAPH,
};
pub use tables::{is_told_as, rows};
pub use units::{
    A, A_OF_HARTS, AIMED, APART, APART_OF_HARTS, ASTRAY, B, B_OF_HARTS, BEHIND, BREAK, DEEP, ECHO,
    EDGE, GROUPS, H, JOBS, JOINED, JUMP, LOAD, LOOP, NARROW, NOWHERE, OTHER, P, PROLOGUE,
    PROLOGUE_OF_HARTS, PROLOGUE_OF_HARTS_LEAN, PROLOGUE_OF_LEAN, Q, Q_OF_HARTS, RELABELLED, SECOND,
    SHARED, STATUS, STORES,
};

mod bytes;
mod data;
mod graphs;
pub mod numbers;
mod tables;
mod units;
