//! A synchronous machine by its clock cycles: its runs, and what it is for one machine to refine another.
#![tactic(auto)]
