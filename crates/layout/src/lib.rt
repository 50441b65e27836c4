//! The layout of a table: which two imagers each baseline has, and which baselines are doubtful.

#![tactic(auto)]

// The table as rows, and the stars that they tell.
mod load;
mod near;
mod rows;
mod stars;

// The search on one cluster.
mod order;
mod settle;
mod spread;
mod starts;
mod verify;
mod walk;

// All clusters, and the numbers of the imagers.
mod clusters;
mod numbering;
mod numbers;
mod placing;

pub use placing::place;
