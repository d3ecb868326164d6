// A table that the check of a whole table passes.
ghost use Rattle.std.specs.Prelude.{◌≡◌, true};
ghost use Rattle.table.specs.Sound.{is_sound};
ghost use Rattle.dense.specs.Lent.{seen};

use dense::View;

#[derive(Clone, Copy)]
pub struct Sound<'a> {
    pub view: View<'a>,
    pub ghost sound: { is_sound (seen view) ≡ true },
}
