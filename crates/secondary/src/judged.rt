// A secondary map whose shape holds.
ghost use Rattle.std.specs.Prelude.{◌≡◌, true};
ghost use Rattle.map.specs.Map.{has_shape};
ghost use Rattle.secondary.specs.Answers.{seen_map};

use crate::MapView;

#[derive(Clone, Copy)]
pub struct MapShaped<'a> {
    pub view: MapView<'a>,
    pub ghost shape: { has_shape (seen_map view) ≡ true },
}
