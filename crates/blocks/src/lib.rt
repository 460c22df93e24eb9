#![tactic(auto)]

// The services on a block: give, take, cut, merge.
pub mod cut_service;
pub mod give_service;
pub mod merge_service;
pub mod pick;
pub mod take_service;
pub mod unloading;
