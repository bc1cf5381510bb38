// Lent memory, handed out area by area: what a history lends to its table stays lent.
ghost use Rattle.std.specs.Prelude.{◌≡◌, length, IfSome};

// What is left of it.
#[derive(Drop)]
pub(crate) struct Pool<'a> {
    pub words: &'a mut [u64],
    pub bytes: &'a mut [u8],
}

impl<'a> Pool<'a> {
    pub(crate) fn words(&mut self, n: usize) -> Option<&'a mut [u64]>
        ensures { IfSome result (λ area. length area.now ≡ n) }
    {
        if n > self.words.len() {
            return None;
        }
        let (area, rest) = std::mem::take(&mut self.words).split_at_mut(n);
        self.words = rest;
        Some(area)
    }

    pub(crate) fn bytes(&mut self, n: usize) -> Option<&'a mut [u8]>
        ensures { IfSome result (λ area. length area.now ≡ n) }
    {
        if n > self.bytes.len() {
            return None;
        }
        let (area, rest) = std::mem::take(&mut self.bytes).split_at_mut(n);
        self.bytes = rest;
        Some(area)
    }
}
