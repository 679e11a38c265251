//! Tests of the public calls of the crates from rectangles to lists, merges, the painter, tiles and wires. They are checked as soon as
//! these crates are proved, and those of the crates above stand in `rd_tests`.
#![tactic(auto)]

#[cfg(test)]
mod area;
#[cfg(test)]
mod blocks;
#[cfg(test)]
mod clip;
#[cfg(test)]
mod drawing;
#[cfg(test)]
mod geom;
#[cfg(test)]
mod graph;
#[cfg(test)]
mod hit;
#[cfg(test)]
mod item;
#[cfg(test)]
mod keys;
#[cfg(test)]
mod list;
#[cfg(test)]
mod matrix;
#[cfg(test)]
mod merge;
#[cfg(test)]
mod paint;
#[cfg(test)]
mod rects;
#[cfg(test)]
mod streams;
#[cfg(test)]
mod style;
#[cfg(test)]
mod tiles;
#[cfg(test)]
mod wire;
