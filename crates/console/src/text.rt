ghost use Rattle.std.specs.Prelude.{◌≡◌, [], ◌∷◌};
ghost use Rattle.console.specs.Texts.{seen, whole_text, more, joined, Held};

use fixed_vec::FixedVec;

// Bytes of the input as far as they are read; none where there are more than N.
#[derive(Clone, Copy)]
pub struct Text<const N: usize> {
    bytes: Option<FixedVec<u8, N>>,
}

impl<const N: usize> Text<N> {
    // With nothing read.
    pub fn new() -> Text<N>
        ensures { seen result ≡ whole_text [] }
    {
        Text {
            bytes: Some(FixedVec::new(0)),
        }
    }

    // One byte more.
    pub fn push(&mut self, byte: u8)
        ensures { seen self.new ≡ more N (seen self.old) (byte ∷ []) }
    {
        if let Some(bytes) = &mut self.bytes
            && bytes.push(byte).is_err()
        {
            self.bytes = None;
        }
    }

    // What another text holds, behind what this one does.
    pub(crate) fn append(&mut self, behind: &Text<N>)
        ensures { seen self.new ≡ joined N (seen self.old) (seen behind.now) }
    {
        match (&mut self.bytes, &behind.bytes) {
            (Some(bytes), Some(more)) => {
                if bytes.extend_from_slice(more.as_slice()).is_err() {
                    self.bytes = None;
                }
            }
            _ => self.bytes = None,
        }
    }

    // Back to nothing read.
    pub fn clear(&mut self)
        ensures { seen self.new ≡ whole_text [] }
    {
        match &mut self.bytes {
            Some(bytes) => bytes.clear(),
            None => *self = Text::new(),
        }
    }

    // Its bytes, or nothing where there are too many.
    pub fn bytes(&self) -> Option<&[u8]>
        ensures { Held (seen self.now) result }
    {
        Some(self.bytes.as_ref()?.as_slice())
    }
}
