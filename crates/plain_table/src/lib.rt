// Another rewriter, of trees on the heap and in the plainest way, beside the pool: on sheets and tickets that are generated, both
// make the same steps.
#![tactic(auto)]

#[cfg(test)]
mod comparing;
#[cfg(test)]
mod dice;
#[cfg(test)]
mod generating;
#[cfg(test)]
mod rewriter;
#[cfg(test)]
mod tree;

#[cfg(test)]
mod tests {
    use crate::comparing::{Tally, compare_on_a_sheet};
    use std::test::Fail;
    use terms::node::Node;

    #[test]
    fn the_pool_makes_the_plain_steps(rt: HostRuntime) -> Result<(), Fail> {
        let mut nodes = [Node::VACANT; 512];
        let mut tally = Tally::new();
        for seed in 0..2500 {
            compare_on_a_sheet(&rt, rt.alloc(), seed, &mut nodes, &mut tally)?;
        }
        // were all of them finished, or without a step, little would be compared
        assert!(rt; tally.finished.min(tally.spent).min(tally.short) > 4000);
        assert!(rt; tally.steps > 200_000);
        Ok(())
    }
}
