//! The size of a canvas that a tree keeps.
ghost use Rattle.std.specs.Prelude.{◌≡◌};
ghost use Rattle.rd_geom.specs.Canvas.{IsCanvas};

use rd_geom::Size;
use std::marker::Model;

/// A size of 1 to 4,096 pixels each way.
#[derive(Drop)]
pub(crate) struct CanvasSize {
    size: Size,
}

impl Model for CanvasSize {
    ghost use Rattle.rd_geom.specs.declared.rect.Size.{Size};
    ghost use Rattle.rd_geom.specs.contracts.rect.Size as canvas_size;
    ghost use Rattle.rd_geom.specs.Canvas.{IsCanvas};

    ghost Value = { Size };

    ghost coded = { canvas_size.the_row.coded };

    ghost view = { λ c. c.size };

    ghost invariant = { λ c. IsCanvas c.size };
}

impl CanvasSize {
    pub(crate) fn new(size: Size) -> CanvasSize
        requires { IsCanvas size }
        ensures { result ≡ size }
    {
        CanvasSize { size }
    }

    pub(crate) fn get(&self) -> Size
        ensures size { result ≡ self.now }
        ensures limits { IsCanvas self.now }
    {
        self.size
    }
}
