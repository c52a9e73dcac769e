// Frames made into text where they stand, as the translator needs it: their bytes at the front of a buffer, ten of each, give way to their
// characters.
ghost use Rattle.std.specs.Prelude.{◌≡◌, ◌+◌, ◌*◌, ◌≤◌, length, flat_map};
ghost use Rattle.words.specs.lists.Numbers.{range};
ghost use Rattle.words.specs.lists.Sequences.{written};
ghost use Rattle.text.specs.frames.Frame.{ten_bytes_at, frame_text};

use text::frames::sizes::LINE;
use text::frames::{put_frame, ten_at};

// Frame f as text in its place.
fn spread_frame(out: &mut [u8], f: usize)
    requires { LINE * f + LINE ≤ length out.old }
    ensures { out.new ≡ written out.old (LINE * f) (frame_text (ten_bytes_at out.old f)) }
{
    let ten = ten_at(out, f);
    put_frame(out, LINE * f, &ten);
}

/// Makes the first n frames text, each of its ten bytes. The last frame goes first: its text lies behind the bytes of the frames before it.
#[tactic(auto, using(crate::proofs::SpreadSteps::spreading))]
pub fn spread(out: &mut [u8], n: usize)
    requires { LINE * n ≤ length out.old }
    ensures { out.new ≡ written out.old 0
        (flat_map (λ f. frame_text (ten_bytes_at out.old f)) (range 0 n)) }
{
    let mut f = n;
    while 0 < f {
        f -= 1;
        spread_frame(out, f);
    }
}
