//! A box with all that it paints.
use crate::path::BoxPath;
use rd_list::PlainList;
use std::marker::Model;

/// A box below another, all that it paints, from bottom to top, and whether that is one group.
#[derive(Drop)]
pub struct Painted {
    pub at: BoxPath,
    pub order: PlainList,
    pub grouped: bool,
}

impl Model for Painted {
    ghost use Rattle.rd_stack.specs.Painting.{Painted};
    ghost use Rattle.std.specs.Coded.{codes};
    ghost use Rattle.rd_list.specs.contracts.plain.PlainList as list;
    ghost use Rattle.rd_stack.specs.contracts.path.BoxPath as path;

    ghost Value = { Painted };

    ghost coded = { Prim.hlevel (codes, list.the_row.coded, path.the_row.coded) };

    ghost view = { λ p. record { at = p.at; order = p.order; grouped = p.grouped } };
}
