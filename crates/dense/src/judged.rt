// A table whose shape holds.
ghost use Rattle.table.proofs.Shape.{Shape};
ghost use Rattle.dense.specs.Lent.{seen};

use crate::View;

#[derive(Clone, Copy)]
pub struct Shaped<'a> {
    pub view: View<'a>,
    pub ghost shape: { Shape (seen view) },
}
