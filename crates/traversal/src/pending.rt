ghost use Rattle.std.specs.Prelude.{◌≡◌};
ghost use Rattle.traversal.specs.Pendings.{lead_byte};

// What is written before an argument.
#[derive(Clone, Copy)]
pub enum Lead {
    Opening,
    Comma,
}

impl Lead {
    pub fn byte(self) -> u8
        ensures { result ≡ lead_byte self }
    {
        match self {
            Lead::Opening => b'(',
            Lead::Comma => b',',
        }
    }
}

// A term that is still to be written: where it stands, what is written before it, and how many closing parentheses after it.
#[derive(Clone, Copy)]
pub struct Pending {
    pub place: u16,
    pub lead: Option<Lead>,
    pub closings: u32,
}
