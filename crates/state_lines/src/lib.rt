// A whole table or secondary map as lines in a lent buffer: the header, and each array with its name before it, past what the header counts too.
#![tactic(auto)]

ghost use Rattle.std.specs.Prelude.{◌≡◌};
ghost use Rattle.dense.specs.Lent.{seen};
ghost use Rattle.secondary.specs.Answers.{seen_map};
ghost use Rattle.pieces.specs.Pieces.{page, wrote_all};
ghost use Rattle.state_lines.specs.States.{state_lines, map_state_lines};

use answer_lines::line;
use answers::Answer;
use dense::View;
use lines::named_row;
use secondary::MapView;

// A dense table.
pub fn state(view: View, at: usize, out: &mut [u8]) -> usize
    ensures { page result out.new ≡ wrote_all (page at out.old) (state_lines (seen view.entry)) }
{
    let a = line(Answer::header(view.h), at, out);
    let b = named_row(b"versions", view.versions, a, out);
    let c = named_row(b"links", view.links, b, out);
    let d = named_row(b"keys", view.keys, c, out);
    named_row(b"values", view.values, d, out)
}

// A secondary map.
pub fn map_state(view: MapView, at: usize, out: &mut [u8]) -> usize
    ensures { page result out.new ≡ wrote_all (page at out.old) (map_state_lines (seen_map view.entry)) }
{
    let a = line(Answer::map_header(view.h), at, out);
    let b = named_row(b"versions", view.versions, a, out);
    named_row(b"values", view.values, b, out)
}
