//! What the table of a tree has of each box, by its slot, and how it is kept.

pub(crate) mod blends;
pub(crate) mod cells;
pub(crate) mod climb;
pub(crate) mod extent;
pub(crate) mod fill;
pub(crate) mod hulls;
pub(crate) mod renew;
pub(crate) mod row;
pub(crate) mod rows;
pub(crate) mod settle;
pub(crate) mod whole;
