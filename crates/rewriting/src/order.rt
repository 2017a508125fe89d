// Orders on tickets.
ghost use Rattle.terms.specs.Rule.{Rule};
ghost use Rattle.terms.specs.Signature.{Sig, Declared};
ghost use Rattle.terms.specs.Term.{Term};
ghost use Rattle.rewriting.specs.Order.{OrderLaws};
ghost use Rattle.rewriting.specs.Laws.{NoEndlessDescent, StrictlyOrientedEnd, StepsDescend, TestedConverge};

// An order: two relations of tickets, and the rules that it orients strictly and weakly. Its laws hold over every signature.
pub trait ReductionOrder {
    ghost greater: { Self → Term → Term → Type 0 };

    ghost at_least: { Self → Term → Term → Type 0 };

    ghost strict: { Self → Rule → Type 0 };

    ghost weak: { Self → Rule → Type 0 };

    ghost laws: { (o : Self) (sig : Sig) → Declared sig → OrderLaws sig (greater o) (at_least o) (strict o) (weak o) };
}

// There is no endless list of tickets each greater than the next.
pub fn no_descent_is_endless<O: ReductionOrder>(order: &O)
    ensures { NoEndlessDescent (O.greater order.now) }
{}

// Of rules that an order orients strictly, each step leads from a ticket to one that it is greater than, and so steps from tickets end.
pub fn strictly_oriented_steps_end<O: ReductionOrder>(order: &O)
    ensures descend { StepsDescend (O.greater order.now) (O.strict order.now) }
    ensures end { StrictlyOrientedEnd (O.strict order.now) }
{}

// Of rules that an order orients weakly, each step leads from a ticket to one that it is at least.
pub fn weakly_oriented_steps_descend<O: ReductionOrder>(order: &O)
    ensures { StepsDescend (O.at_least order.now) (O.weak order.now) }
{}

// Rules that an order orients strictly and whose overlaps agree, their variables standing as leaves, are convergent.
pub fn tested_rules_converge<O: ReductionOrder>(order: &O)
    ensures { TestedConverge (O.strict order.now) }
{}
