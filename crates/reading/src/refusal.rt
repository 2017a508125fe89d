pub mod showing;

// The layer that refuses.
#[derive(Clone, Copy, PartialEq, Eq, Debug)]
pub enum Layer {
    Text,
    Sheet,
    Pool,
    Book,
}

// The four parts of every refusal.
#[derive(Clone, Copy, PartialEq, Eq, Debug)]
pub struct Refusal {
    // as it is printed; the faults themselves are enums, TextFault and SheetFault
    pub number: u8,
    pub layer: Layer,
    pub place: usize,
    pub second: usize,
}
