// Sets of rule numbers.
#![tactic(auto)]

// A set of rule numbers from 0 to 31 in one word: bit i is 1 where i is a member.
#[derive(Clone, Copy, PartialEq, Eq)]
pub struct RuleSet {
    bits: u32,
}

#[tactic(auto, using(crate::proofs::Words::word_bits), unfolding(crate::specs::Members::has))]
impl RuleSet {
    ghost use Rattle.std.specs.Prelude.{◌≡◌, ℕ, ◌<◌, ◌≤◌, ◌↔◌, true, not, ◌&&◌, ◌||◌, ◌==◌, IsTrue, IfSome, IfNone, nat_lt};
    ghost use Rattle.rule_set.specs.Members.{has, HasNone, HasNoneBelow};

    // With no member.
    pub fn none() -> RuleSet
        ensures { HasNone result }
    {
        RuleSet { bits: 0 }
    }

    // With every number from 0 to 31.
    pub fn all() -> RuleSet
        ensures { (j : ℕ) → has result j ≡ nat_lt j 32 }
    {
        RuleSet { bits: u32::MAX }
    }

    // Its members and one more number; a number past 31 changes nothing.
    pub fn with(self, i: usize) -> RuleSet
        ensures added { i < 32 → (j : ℕ) → has result j ≡ ((j == i) || has self j) }
        ensures past { 32 ≤ i → result ≡ self }
    {
        let mut bits = self.bits;
        if i < 32 {
            bits |= 1 << i;
        }
        RuleSet { bits }
    }

    // Its members but one number.
    pub fn without(self, i: usize) -> RuleSet
        ensures { (j : ℕ) → has result j ≡ (has self j && not (j == i)) }
    {
        let mut bits = self.bits;
        if i < 32 {
            bits &= !(1 << i);
        }
        RuleSet { bits }
    }

    // The members of both.
    pub fn both(self, other: RuleSet) -> RuleSet
        ensures { (j : ℕ) → has result j ≡ (has self j && has other j) }
    {
        RuleSet {
            bits: self.bits & other.bits,
        }
    }

    // Whether it has no member.
    pub fn is_empty(self) -> bool
        ensures { IsTrue result ↔ HasNone self }
    {
        self.bits == 0
    }

    // Its least member, if it has one.
    pub fn first(self) -> Option<usize>
        ensures within { IfSome result (λ i. i < 32) }
        ensures member { IfSome result (λ i. has self i ≡ true) }
        ensures least { IfSome result (HasNoneBelow self) }
        ensures none { IfNone result (HasNone self) }
    {
        if self.is_empty() {
            return None;
        }
        Some(self.bits.trailing_zeros() as usize)
    }
}

#[cfg(test)]
mod tests {
    use super::*;

    #[test]
    fn members_come_least_first(rt: HostRuntime) {
        let mut rest = RuleSet::none().with(31).with(4).with(32).with(9).with(4);
        for least in [4, 9, 31] {
            assert!(rt; !rest.is_empty());
            assert_eq!(rt; rest.first(), Some(least));
            rest = rest.without(least);
        }
        assert!(rt; rest.is_empty());
        assert_eq!(rt; rest.first(), None);
        assert!(rt; rest == RuleSet::none());
    }

    #[test]
    fn both_keeps_common_members(rt: HostRuntime) {
        let small = RuleSet::none().with(0).with(3);
        let others = RuleSet::all().without(0).without(64);
        assert_eq!(rt; others.first(), Some(1));
        assert_eq!(rt; small.both(others).first(), Some(3));
        assert!(rt; small.both(others).without(3).is_empty());
    }
}
