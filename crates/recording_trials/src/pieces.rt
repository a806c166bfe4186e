// Pieces one after another, each after its length in four bytes, up to the first that is not whole.
ghost use Rattle.std.specs.Prelude.{length};
ghost use Rattle.std.specs.Iterator.{at_most};

#[derive(Drop)]
pub(crate) struct Pieces<'a>(pub(crate) &'a [u8]);

impl<'a> Iterator for Pieces<'a> {
    type Item = &'a [u8];

    ghost remaining = { λ s. at_most (length s.0.now) };

    fn next(&mut self) -> Option<&'a [u8]> {
        let (len, pieces) = self.0.split_first_chunk()?;
        let (piece, rest) = pieces.split_at_checked(u32::from_le_bytes(*len) as usize)?;
        self.0 = rest;
        Some(piece)
    }
}
