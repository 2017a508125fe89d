// The pool beside the plain rewriter.
use crate::generating::Generator;
use crate::rewriter::{Rule, reduce, rules_of};
use crate::tree::Tree;
use compiling::compiled_sheet::CompiledSheet;
use engine::reduce::{Reduced, Stop};
use pool::Pool;
use reader::ticket::{TICKET_NODES, read_ticket};
use reading::fault::TextFault;
use sheet::Sheet;
use signature::Signature;
use std::alloc::Global;
use std::process::Abort;
use std::test::Fail;
use terms::layout::Layout;
use terms::node::Node;
use traversal::write::write_text;
use weighing::Weighing;

// What was compared.
#[derive(Clone, Copy)]
pub(crate) struct Tally {
    pub steps: u32,
    pub finished: usize,
    pub spent: usize,
    pub short: usize,
}

impl Tally {
    pub(crate) fn new() -> Tally {
        Tally {
            steps: 0,
            finished: 0,
            spent: 0,
            short: 0,
        }
    }

    fn count(&mut self, reduced: Reduced) {
        self.steps = self.steps.saturating_add(reduced.steps);
        let calls = match reduced.stop {
            Stop::Finished => &mut self.finished,
            Stop::Spent => &mut self.spent,
            Stop::Short => &mut self.short,
        };
        *calls = calls.saturating_add(1);
    }
}

// A sheet as text, its operators, and its rules for the pool and for the plain rewriter.
#[derive(Drop)]
struct Rules {
    text: String,
    signature: Signature,
    compiled: CompiledSheet,
    plain: Vec<Rule>,
}

impl Rules {
    fn read(heap: Global, text: String) -> Result<Rules, Fail> {
        let mut sheet = Sheet::new();
        let mut first = Weighing::missing();
        let mut second = Weighing::missing();
        sheet_reader::read(
            text.as_str().as_bytes(),
            &mut sheet,
            &mut first,
            &mut second,
        )?;
        Ok(Rules {
            text,
            signature: *sheet.signature(),
            compiled: CompiledSheet::of(&sheet),
            plain: rules_of(heap, &sheet)?,
        })
    }

    fn ticket(&self, text: &str) -> Result<Layout<TICKET_NODES>, TextFault> {
        read_ticket(&self.signature, text.as_bytes())
    }
}

// A ticket, the tree of its term, and the place where the pool holds its term.
#[derive(Drop)]
struct Twin {
    ticket: String,
    tree: Tree,
    place: u16,
}

impl Twin {
    fn read(heap: Global, rules: &Rules, ticket: String) -> Result<Twin, Fail> {
        let layout = rules.ticket(ticket.as_str())?;
        let tree = Tree::read(heap, &layout, 0, layout.len())?;
        Ok(Twin {
            ticket,
            tree,
            place: 0,
        })
    }
}

fn symbols_of(twins: &[Twin]) -> usize {
    let mut symbols: usize = 0;
    for twin in twins {
        symbols = symbols.saturating_add(twin.tree.symbols());
    }
    symbols
}

// Tickets in one pool of so many nodes.
#[derive(Drop)]
struct Round<'r> {
    heap: Global,
    rules: &'r Rules,
    nodes: usize,
    pool: Pool<'r>,
    twins: Vec<Twin>,
    // the text of all this, for messages
    case: String,
}

impl<'r> Round<'r> {
    // One to three tickets, in a pool that has just room for them or more.
    fn new(
        heap: Global,
        rules: &'r Rules,
        generator: &mut Generator,
        lent: &'r mut [Node],
    ) -> Result<Round<'r>, Fail> {
        let mut twins = Vec::new(heap);
        for _ in 0..=generator.dice.below(3) {
            twins.push(Twin::read(heap, rules, generator.ticket(heap)?)?)?;
        }
        let more = generator.dice.pick(&[0, 0, 1, 2, 5, 20, 100, 300]);
        let nodes = symbols_of(&twins).saturating_add(more);
        let mut case = format!(in heap; "{}{nodes} nodes\n", rules.text)?;
        let mut pool = Pool::new(lent.get_mut(..nodes).ok_or("few nodes")?).ok_or("many nodes")?;
        for twin in twins.iter_mut() {
            write!(case, "{}\n", twin.ticket)?;
            twin.place = pool.load(&rules.ticket(twin.ticket.as_str())?, 0)?;
        }
        Ok(Round {
            heap,
            rules,
            nodes,
            pool,
            twins,
            case,
        })
    }

    // Reduces a ticket by either rewriter, and compares what comes of it.
    fn reduce(&mut self, rt: &impl Abort, n: usize, allowed: u32) -> Result<Reduced, Fail> {
        let free = self.nodes.saturating_sub(symbols_of(&self.twins));
        let twin = self.twins.get_mut(n).ok_or("no ticket")?;
        let expected = reduce(self.heap, &self.rules.plain, &mut twin.tree, free, allowed)?;
        let found = self
            .pool
            .reduce(&self.rules.compiled, twin.place, allowed)
            .ok_or("not held")?;
        assert_eq!(rt; found, expected, "{}ticket {n}, {allowed} steps", self.case);
        let free = self.nodes.saturating_sub(symbols_of(&self.twins));
        assert_eq!(rt;
            self.pool.free(),
            free,
            "{}ticket {n}, {allowed} steps",
            self.case
        );
        self.compare_text(rt, n)?;
        Ok(found)
    }

    // Compares the text of a term with that of its tree.
    fn compare_text(&self, rt: &impl Abort, n: usize) -> Result<(), Fail> {
        let twin = self.twins.get(n).ok_or("no ticket")?;
        let signature = &self.rules.signature;
        let mut expected = String::new(self.heap);
        twin.tree.write(signature, &mut expected)?;
        let mut buffer = [0; 8192];
        let len = write_text(signature, &self.pool, twin.place, &mut buffer)?;
        let found = std::str::from_utf8(buffer.get(..len).ok_or("past the buffer")?)?;
        assert_eq!(rt; found, expected.as_str(), "{}ticket {n}", self.case);
        Ok(())
    }
}

// Reduces tickets of a sheet in turns, in four pools.
pub(crate) fn compare_on_a_sheet(
    rt: &impl Abort,
    heap: Global,
    seed: u64,
    lent: &mut [Node],
    tally: &mut Tally,
) -> Result<(), Fail> {
    let mut generator = Generator::new(heap, seed)?;
    let rules = Rules::read(heap, generator.sheet(heap)?)?;
    for _ in 0..4 {
        let mut round = Round::new(heap, &rules, &mut generator, lent)?;
        for _ in 0..=generator.dice.below(5) {
            let n = generator.dice.below(round.twins.len());
            let allowed = generator.dice.pick(&[0, 1, 2, 5, 20, 100, 300]);
            tally.count(round.reduce(rt, n, allowed)?);
        }
        for n in 0..round.twins.len() {
            round.compare_text(rt, n)?;
        }
    }
    Ok(())
}
