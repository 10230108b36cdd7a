//! Lines without an entry.

ghost use Rattle.std.specs.Prelude.{◌≡◌};
ghost use Rattle.nt_types.specs.Words.{is_space};
ghost use Rattle.nt_types.specs.Lines.{is_blank_line};

fn is_space(byte: u8) -> bool
    ensures { result ≡ is_space byte }
{
    matches!(byte, b' ' | b'\t' | b'\r')
}

/// Whether a line has spaces, tabs and CRs alone: such a line has no entry.
pub fn blank(bytes: &[u8]) -> bool
    ensures { result ≡ is_blank_line bytes.now }
{
    bytes.iter().all(|byte| is_space(*byte))
}
