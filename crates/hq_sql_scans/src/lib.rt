//! The places at which a scan looks, their order, how many of them a page needs, the keys of the rows that an EXISTS
//! keeps, and what LIKE says where its pattern was read before.
#![tactic(auto)]

pub mod key_set;
pub mod likes;
pub mod links;
pub mod ordered;
pub mod pages;
pub mod positions;
