// Terms as trees on the heap.
use signature::Signature;
use std::alloc::Global;
use std::test::Fail;
use terms::symbol::Symbol;
use terms::view::TermView;

// A symbol over its arguments.
#[derive(Clone, Drop)]
pub(crate) struct Tree {
    pub symbol: Symbol,
    pub arguments: Vec<Tree>,
}

impl Tree {
    // The term at a place of a view. It may have so many levels.
    pub(crate) fn read<V: TermView>(
        heap: Global,
        view: &V,
        place: u16,
        levels: usize,
    ) -> Result<Tree, Fail> {
        if levels == 0 {
            return Err(Fail::from("too many levels"));
        }
        let symbol = view.symbol(place).ok_or("no symbol")?;
        let mut arguments = Vec::new(heap);
        for n in 0..3 {
            if let Some(argument) = view.argument(place, n) {
                arguments.push(Tree::read(heap, view, argument, levels - 1)?)?;
            }
        }
        Ok(Tree { symbol, arguments })
    }

    // How many symbols it has.
    pub(crate) fn symbols(&self) -> usize {
        let mut symbols: usize = 1;
        for argument in &self.arguments {
            symbols = symbols.saturating_add(argument.symbols());
        }
        symbols
    }

    // Writes its text behind a text.
    pub(crate) fn write(&self, signature: &Signature, text: &mut String) -> Result<(), Fail> {
        match self.symbol {
            Symbol::Variable(x) => write!(text, "?{x}")?,
            Symbol::Instrument(n) => write!(text, "#{n}")?,
            Symbol::Operator(f) => text.push_str(std::str::from_utf8(signature.name(f))?)?,
        }
        for (n, argument) in self.arguments.iter().enumerate() {
            text.push(if n == 0 { '(' } else { ',' })?;
            argument.write(signature, text)?;
        }
        if !self.arguments.is_empty() {
            text.push(')')?;
        }
        Ok(())
    }
}
