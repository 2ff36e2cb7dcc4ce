//! Support sets under exchange: smallest circles and spheres, and the distance of polytopes.
//!
//! - `items`: the items that supports are chosen from, points or differences of points
//! - `support`: weighted items
//! - `sums`: what slacks are computed from
//! - `search`: the part of a few items whose supports settle them
//! - `unsettled`: supports that are exchanged for greater ones
//! - `least_slack`: an item of least slack
//! - `settling`: the exchange until no item is low
//! - `laws`: why an exchange finds its supports, why their value rises, and why that ends
#![tactic(auto)]

mod items;
pub mod laws;
mod least_slack;
mod search;
mod settling;
mod sums;
mod support;
mod unsettled;

pub use items::{Id, Items};
pub use settling::settle;
pub use support::Support;
pub use unsettled::Corral;
