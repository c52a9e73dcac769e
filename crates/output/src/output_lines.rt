// Lines put into a lent buffer.
ghost use Rattle.std.specs.Prelude.{◌≡◌, ◌+◌, ◌*◌, ◌≤◌, length, flat_map};
ghost use Rattle.words.specs.lists.Sequences.{written};
ghost use Rattle.text.specs.declared.frames.sizes.TheConstants.{LINE};
ghost use Rattle.output.specs.Lines.{code_line, refusal_line};

use text::frames::put_bytes;

/// Writes a line for each code, three characters, from the front on.
pub fn put_codes(out: &mut [u8], codes: &[u8])
    requires { 3 * length codes.now ≤ length out.old }
    ensures { out.new ≡ written out.old 0 (flat_map code_line codes.now) }
{
    for i in 0..codes.len() {
        let line = crate::printing::code_line(codes[i]);
        put_bytes(out, i * 3, &line);
    }
}

/// Writes the frame of a refusal, 23 characters, from an offset on.
pub fn put_refusal(out: &mut [u8], at: usize, number: u8, index: usize)
    requires { at + LINE ≤ length out.old }
    ensures { out.new ≡ written out.old at (refusal_line number index) }
{
    let line = crate::printing::refusal_line(number, index);
    put_bytes(out, at, &line);
}
