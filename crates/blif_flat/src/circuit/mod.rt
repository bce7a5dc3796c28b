//! The instances, their covers and latches, and the nets that join their names.
pub mod connect;
pub mod instances;
pub mod net_table;
pub mod nets;
