// Lines of an input: byte 10 ends a line, and the last may lack it.
ghost use Rattle.std.specs.Prelude.{◌≡◌, ◌<◌, ◌∷◌, ◌==◌, length};
ghost use Rattle.std.specs.List.{position};
ghost use Rattle.text.specs.Lines.{lines_of, FirstLine, Rejoined};

// Where the first end byte stands.
fn line_end(input: &[u8]) -> Option<usize>
    ensures { result ≡ position (λ b. b == 10) input.now }
{
    input.iter().position(|b| *b == b'\n')
}

// The first line, without its end byte, and what follows it.
#[tactic(auto, using(crate::proofs::Ends::first_ended, crate::proofs::Ends::first_only, crate::proofs::Ends::lines_first, crate::proofs::Ends::lines_only))]
pub fn first_line(input: &[u8]) -> (&[u8], &[u8])
    ensures parts { FirstLine input.now result.0.now result.1.now }
    ensures lines { 0 < length input.now → lines_of input.now ≡ result.0.now ∷ lines_of result.1.now }
    ensures shorter { 0 < length input.now → length result.1.now < length input.now }
    ensures rejoined { Rejoined input.now }
{
    match line_end(input) {
        Some(n) => (&input[..n], &input[n + 1..]),
        None => (input, &[]),
    }
}
