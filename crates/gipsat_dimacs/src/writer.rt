//! The writer of clauses in the DIMACS form.

pub use gipsat_cnf::dimacs::write_clause;
