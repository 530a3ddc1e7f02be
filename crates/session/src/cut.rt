// Lines cut out of the input, piece by piece.
ghost use Rattle.std.specs.Prelude.{◌≡◌, ◌+◌, length, drop};
ghost use Rattle.print.specs.Text.{front};
ghost use Rattle.session.specs.Cut.{in_line};

// Where the line that goes on at a place of the piece ends: at the next newline, or with the piece.
pub fn line_end(piece: &[u8], at: usize) -> usize
    ensures { result ≡ at + length (front in_line (drop at piece.now)) }
{
    let Some(rest) = piece.get(at..) else {
        return at;
    };
    at + rest.iter().position(|&b| b == b'\n').unwrap_or(rest.len())
}
