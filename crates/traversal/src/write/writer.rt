ghost use Rattle.std.specs.Prelude.{◌≡◌, [], ◌∷◌, length, replicate};
ghost use Rattle.traversal.specs.Bytes.{HasRoom, Puts};

// A buffer that is filled from its front, and how many bytes were written: those past its end are lost, but counted.
#[derive(Drop)]
pub(super) struct Writer<'b> {
    buffer: &'b mut [u8],
    len: usize,
}

impl<'b> Writer<'b> {
    // With nothing written yet.
    pub(super) fn new(buffer: &'b mut [u8]) -> Writer<'b>
        ensures same_buffer { result.buffer.ghost_name ≡ buffer.entry.ghost_name }
        ensures bytes { result.buffer.now ≡ buffer.old }
        ensures none { result.len ≡ 0 }
    {
        Writer { buffer, len: 0 }
    }

    // How many bytes were written.
    pub(super) fn len(&self) -> usize
        ensures { result ≡ self.now.len }
    {
        self.len
    }

    // One byte. By index: after `get_mut` nothing is known of the other bytes.
    pub(super) fn put(&mut self, byte: u8)
        requires { HasRoom self.old 1 }
        ensures { Puts (byte ∷ []) self.old self.new }
    {
        let at = self.len;
        if at < self.buffer.len() {
            self.buffer[at] = byte;
        }
        self.len += 1;
    }

    // Bytes, one after another.
    pub(super) fn put_all(&mut self, bytes: &[u8])
        requires { HasRoom self.old (length bytes.now) }
        ensures { Puts bytes.now self.old self.new }
    {
        for byte in bytes {
            self.put(*byte);
        }
    }

    // Writes closing parentheses.
    pub(super) fn put_closings(&mut self, count: u32)
        requires { HasRoom self.old count }
        ensures { Puts (replicate count 41) self.old self.new }
    {
        for _k in 0..count {
            self.put(b')');
        }
    }
}
