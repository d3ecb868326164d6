// Bytes and digests as hexadecimal digits, for a replay's output.
#![tactic(auto)]

ghost use Rattle.std.specs.Prelude.{◌≡◌, ◌<◌};
ghost use Rattle.pieces.specs.Pieces.{page, wrote_all};
ghost use Rattle.replay_hex.specs.Hex.{hex16, hex32, hex64, hex_line};

fn write_hex16(x: u64, at: usize, out: &mut [u8]) -> usize
    requires { x < 65536 }
    ensures { page result out.new ≡ wrote_all (page at out.old) (hex16 x) }
{
    let n = pieces::hex((x / 256) as u8, at, out);
    pieces::hex((x % 256) as u8, n, out)
}

fn write_hex32(x: u64, at: usize, out: &mut [u8]) -> usize
    requires { x < 4294967296 }
    ensures { page result out.new ≡ wrote_all (page at out.old) (hex32 x) }
{
    let n = write_hex16(x / 65_536, at, out);
    write_hex16(x % 65_536, n, out)
}

// A number as sixteen hexadecimal digits.
pub fn write_hex64(x: u64, at: usize, out: &mut [u8]) -> usize
    ensures { page result out.new ≡ wrote_all (page at out.old) (hex64 x) }
{
    let n = write_hex32(x / 4_294_967_296, at, out);
    write_hex32(x % 4_294_967_296, n, out)
}

// Writes bytes as a line, two hexadecimal digits each.
pub fn write_image(image: &[u8], out: &mut [u8]) -> usize
    ensures { page result out.new ≡ wrote_all (page 0 out.old) (hex_line image.now) }
{
    let mut place = 0;
    for b in image {
        place = pieces::hex(*b, place, out);
    }
    pieces::bytes(b"\n", place, out)
}
