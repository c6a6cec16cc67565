//! A caller of each library, for a reader who would call it; docs/CRATES.md says what each is.
#![tactic(auto)]

pub mod arena;
pub mod canon;
pub mod flow;
pub mod graph;
pub mod hall;
pub mod net;
pub mod parts;
pub mod paths;
pub mod program;
pub mod rents;
pub mod rounds;
pub mod rules;
pub mod saved;
pub mod table;
pub mod tenant;
pub mod text;
