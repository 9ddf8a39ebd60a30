//! A test that growing a minimum 1-tree in tsp_bound asks for each cost only once. Contracts don't
//! count calls, and each call computes the cost of two points.

ghost use Rattle.std.specs.Prelude.{refl, pos};

use crate::asserts::{holds, same};
use std::alloc::Global;
use std::cell::Cell;
use std::test::Fail;
use tsp_bound::{Multipliers, OneTree, Potentials, one_tree};
use tsp_cost::{Costs, Symmetric};

/// The 1-tree under potentials, if there is one for each of three or more nodes.
fn tree_under<C: Symmetric>(
    alloc: Global,
    costs: &C,
    scale: i64,
    numbers: &[i64],
) -> Result<OneTree, Fail> {
    let potentials = Potentials::new(scale, numbers).ok_or("no potentials")?;
    let count = costs.count();
    if count < 3 || numbers.len() != count as usize {
        return Err(Fail::from("no potential for each node"));
    }
    let none = Multipliers::new(&[]).ok_or("no multipliers")?;
    Ok(one_tree(alloc, costs, &potentials, &none)?)
}

/// Costs of 1 between 300 nodes, which count how often they are asked for.
#[derive(Drop)]
struct Counted {
    calls: Cell<u32>,
}

impl Costs for Counted {
    ghost nodes = { λ c. 300 };

    ghost at = { λ c i j. pos 1 };

    fn count(&self) -> u32 {
        300
    }

    fn cost(&self, _i: u32, _j: u32) -> i64 {
        self.calls.set(self.calls.get().saturating_add(1));
        1
    }
}

impl Symmetric for Counted {
    ghost even = { λ c i j other. refl };
}

#[test]
fn a_tree_asks_for_each_cost_once(rt: HostRuntime) -> Result<(), Fail> {
    let costs = Counted {
        calls: Cell::new(0),
    };
    let numbers = vec![in rt.alloc(); 0i64; 300]?;
    let tree = tree_under(rt.alloc(), &costs, 1, &numbers)?;
    same(&rt, tree.edges.len(), 300);
    same(&rt, tree.weight, 300);
    same(&rt, tree.bound, 300);
    holds(&rt, costs.calls.get() <= 90_000);
    Ok(())
}
