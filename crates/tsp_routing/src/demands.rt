//! The depot, demands and capacity of a CVRP: how many routes a set of customers needs, and the
//! load of each customer in a certificate's unit. `plan_verdict.rt` asks for both. `IsCapacityCut`,
//! `IsFewest` and `RoutesFitCapacity` in `specs/PlanLinks.antt` pin them: no number of routes may
//! be too large, and demands are rounded down to units, so that a larger unit gives smaller tables
//! and weaker bounds.

ghost use Rattle.std.specs.Prelude.{◌≡◌, ◌≤◌, ◌<◌, ◌+◌, ◌*◌, ◌/◌, ◌==◌, ◌^◌, ℕ, ℤ, if◌then◌else◌, length, pos, nat_abs, ◌≤ℤ◌, IfOk, max, min};
ghost use Rattle.tsp_format.specs.Limits.{most_nodes};
ghost use Rattle.tsp_format.specs.Nodes.{IsNode};
ghost use Rattle.tsp_routing.specs.PlanLinks.{units_of, AreUnits, load_in, capacity_in_parts};
ghost use Rattle.tsp_routing.specs.states.Demands.{loads_problem, AreDemands, load_at, AreUnitLoads, light_in};

use std::alloc::Global;
use tsp_format::MOST_NODES;
use tsp_io::{Refused, filled};

/// The nodes 1 to `nodes`, including the depot, with their demands, and the capacity of a route.
#[derive(Clone, Copy)]
pub(crate) struct Demands<'a> {
    pub(crate) nodes: u32,
    pub(crate) depot: u32,
    pub(crate) demands: &'a [i64],
    pub(crate) capacity: i64,
}

impl Demands<'_> {
    ghost use Rattle.tsp_routing.specs.Prelude.{pos, IsNode, most_demand, IsFromTo, demand_of};
    ghost use Rattle.std.specs.Prelude.{◌≡◌};
    ghost use Rattle.tsp_routing.specs.states.Demands.{AreDemands};

    /// The demand of a node.
    pub(crate) fn demand(&self, node: u32) -> i64
        requires demands { AreDemands self.now }
        requires node { IsNode self.now.nodes node }
        ensures value { result ≡ demand_of self.now.demands.now node }
        ensures size { IsFromTo (pos 0) (pos most_demand) result }
    {
        self.demands[node as usize - 1]
    }
}

// ---- how many routes a set of customers needs

impl Demands<'_> {
    ghost use Rattle.tsp_routing.specs.Prelude.{ℕ, ℤ, [], length, pos, All, AllPairs, IsNode, IsFromTo, most_nodes, most_demand, has, IsCustomer, demand_of, load_of, IsLeastRoutes};
    ghost use Rattle.std.specs.Prelude.{◌≡◌, ◌≢◌, ◌≤◌, ◌≤ℤ◌};
    ghost use Rattle.tsp_routing.specs.PlanLinks.{sum_of_customers};
    ghost use Rattle.tsp_routing.specs.PlanLinks.{IsFewest};
    ghost use Rattle.tsp_routing.specs.PlanLinks.{IsCapacityCut};
    ghost use Rattle.tsp_routing.specs.states.Demands.{loads_problem, AreDemands, of_others};

    /// How many routes a set of customers needs: as many as can carry their demands, and at least
    /// one. The count stops at 100,000.
    ///
    /// # Requires
    ///
    /// Some customers, none twice.
    pub(crate) fn need(&self, customers: &[u32]) -> u32
        requires demands { AreDemands self.now }
        requires customers { All (IsCustomer self.now.nodes self.now.depot) customers.now }
        requires once { AllPairs (λ a b. a ≢ b) customers.now }
        requires some { customers.now ≢ [] }
        requires few { length customers.now ≤ most_nodes }
        ensures cut { (cost : ℕ → ℕ → ℤ) → IsCapacityCut (loads_problem self.now cost) (has customers.now) result }
        ensures size { result ≤ most_nodes }
    {
        counted(self.least_routes(customers))
    }

    /// How many routes a plan has at least: as many as can carry all demands, and at least one. The
    /// count stops at 100,000.
    pub(crate) fn fewest(&self) -> u32
        requires demands { AreDemands self.now }
        ensures fewest { (cost : ℕ → ℕ → ℤ) → IsFewest (loads_problem self.now cost) result }
        ensures size { result ≤ most_nodes }
    {
        counted(self.routes_of(self.all()))
    }

    /// The sum of the demands of all customers.
    fn all(&self) -> i64
        requires demands { AreDemands self.now }
        ensures value { result ≡ sum_of_customers self.now.nodes self.now.depot (demand_of self.now.demands.now) }
        ensures low { pos 0 ≤ℤ result }
        ensures high { result ≤ℤ pos 100000000000000 }
    {
        let mut sum = 0;
        'nodes: for index in 0..self.nodes {
            sum += self.of_customer(index + 1);
        }
        sum
    }

    /// The demand of a customer; 0 for the depot.
    fn of_customer(&self, node: u32) -> i64
        requires demands { AreDemands self.now }
        requires node { IsNode self.now.nodes node }
        ensures value { result ≡ of_others self.now.depot (demand_of self.now.demands.now) node }
        ensures size { IsFromTo (pos 0) (pos most_demand) result }
    {
        if node == self.depot {
            return 0;
        }
        self.demand(node)
    }

    /// The least number of routes that can carry this.
    fn routes_of(&self, total: i64) -> u64
        requires demands { AreDemands self.now }
        requires low { pos 0 ≤ℤ total }
        requires high { total ≤ℤ pos 100000000000000 }
        ensures { IsLeastRoutes total self.now.capacity result }
    {
        let total = total as u64;
        let capacity = self.capacity as u64;
        (total + (capacity - 1)) / capacity
    }

    /// The least number of routes that can carry these customers' demands.
    fn least_routes(&self, customers: &[u32]) -> u64
        requires demands { AreDemands self.now }
        requires customers { All (IsCustomer self.now.nodes self.now.depot) customers.now }
        requires few { length customers.now ≤ most_nodes }
        ensures { IsLeastRoutes (load_of self.now.demands.now customers.now) self.now.capacity result }
    {
        self.routes_of(self.load(customers))
    }

    /// The sum of the demands of these customers.
    fn load(&self, customers: &[u32]) -> i64
        requires demands { AreDemands self.now }
        requires customers { All (IsCustomer self.now.nodes self.now.depot) customers.now }
        requires few { length customers.now ≤ most_nodes }
        ensures value { result ≡ load_of self.now.demands.now customers.now }
        ensures low { pos 0 ≤ℤ result }
        ensures high { result ≤ℤ pos 100000000000000 }
    {
        let mut sum = 0;
        'nodes: for node in customers {
            sum += self.demand(*node);
        }
        sum
    }
}

/// The number of routes, but at least one and at most 100,000.
fn counted(least: u64) -> u32
    ensures value { result ≡ max (min least most_nodes) 1 }
    ensures size { result ≤ most_nodes }
{
    if least == 0 {
        return 1;
    }
    if least > u64::from(MOST_NODES) {
        return MOST_NODES;
    }
    least as u32
}

// ---- loads and the capacity, counted in a unit

/// The load of each node, at its place, the capacity of a route, and how many customers demand less
/// than a unit.
#[derive(Drop)]
pub(crate) struct UnitLoads {
    pub(crate) light: u64,
    pub(crate) loads: Vec<u64>,
    pub(crate) room: u64,
}

/// The load of each node and the capacity, counted in a unit.
///
/// # Errors
///
/// If memory runs out. It allocates an entry for each node.
pub(crate) fn unit_loads(alloc: Global, demands: &Demands, unit: u64) -> Result<UnitLoads, Refused>
    requires demands { AreDemands demands.now }
    requires unit { 1 ≤ unit }
    ensures { IfOk result (λ units. AreUnitLoads demands.now unit units) }
{
    let light = count_light(demands, unit);
    let parts = light + 1;
    let mut loads = filled(alloc, 0, demands.nodes as usize + 1)?;
    'nodes: for node in 1..demands.nodes + 1 {
        loads[node as usize] = load_of(whole_units(demands, unit, node), parts);
    }
    let room = demands.capacity as u64 / unit * parts + light;
    Ok(UnitLoads { light, loads, room })
}

/// How many customers demand less than a unit.
fn count_light(demands: &Demands, unit: u64) -> u64
    requires demands { AreDemands demands.now }
    requires unit { 1 ≤ unit }
    ensures units { (cost : ℕ → ℕ → ℤ) → AreUnits (loads_problem demands.now cost) unit result }
    ensures few { result ≤ 100000 }
{
    let mut count = 0;
    'nodes: for index in 0..demands.nodes {
        count += light(demands, unit, index + 1);
    }
    count
}

/// 1 for a customer that demands less than a unit, otherwise 0.
fn light(demands: &Demands, unit: u64, node: u32) -> u64
    requires demands { AreDemands demands.now }
    requires unit { 1 ≤ unit }
    requires node { IsNode demands.now.nodes node }
    ensures value { (cost : ℕ → ℕ → ℤ) → pos result ≡ light_in (loads_problem demands.now cost) unit node }
    ensures few { result ≤ 1 }
{
    if node == demands.depot {
        return 0;
    }
    if whole_units(demands, unit, node) > 0 {
        return 0;
    }
    1
}

/// The whole units that a node demands.
fn whole_units(demands: &Demands, unit: u64, node: u32) -> u64
    requires demands { AreDemands demands.now }
    requires unit { 1 ≤ unit }
    requires node { IsNode demands.now.nodes node }
    ensures value { (cost : ℕ → ℕ → ℤ) → result ≡ units_of (loads_problem demands.now cost) unit node }
    ensures size { result ≤ 1000000000 }
{
    demands.demand(node) as u64 / unit
}

/// The load for this number of units, each worth `parts`; 1 if there is no unit.
fn load_of(units: u64, parts: u64) -> u64
    requires units { units ≤ 1000000000 }
    requires parts { parts ≤ 100001 }
    ensures { result ≡ (if units == 0 then 1 else (units * parts)) }
{
    if units == 0 {
        return 1;
    }
    units * parts
}
