//! The law that each valid instance is exactly one problem, with one cost from each node to each.
//! Because of it, the promise can speak of the problem of a file (`specs/Problems.antt`).
//! `instance.rt` calls it when it makes an instance.

ghost use Rattle.tsp_cost.specs.Prelude.{None, IsTrue, Fields, RoutingProblem, Problem};
ghost use Rattle.std.specs.Prelude.{◌≡◌};
ghost use Rattle.tsp_file.specs.Rules.{fault_of, is_instance};
ghost use Rattle.tsp_cost.specs.Problems.{IsProblemOf, IsRoutingOf, IsProblem, AreSame, AreSameRouting, problem_of, routing_of};

use tsp_file::{costs_are_by_inequalities, valid_fields_are_in_range, valid_files_are_complete};

/// Each valid instance is one problem, with one cost from each node to each.
pub fn instances_are_problems()
    ensures some { (f : Fields) → fault_of f ≡ None → IsTrue (is_instance f.kind) → IsProblem f }
    ensures one { (f : Fields) (problem : Problem) → IsProblemOf f problem → AreSame problem (problem_of f) }
    ensures one_routing { (f : Fields) (problem : RoutingProblem) → IsRoutingOf f problem
        → AreSameRouting problem (routing_of f) }
{
    valid_fields_are_in_range();
    valid_files_are_complete();
    costs_are_by_inequalities();
}
