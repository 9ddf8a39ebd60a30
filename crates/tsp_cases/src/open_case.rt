//! `OpenCase`: the case that is open while `case_tree.rt` goes over the steps of a tree, as the
//! decisions above it, in a stack and by node. `next` goes from a leaf to the next case, in the
//! order of BRANCH_SECTION, which `specs/Cases.antt` pins.

ghost use Rattle.std.specs.Global.{Vec};
ghost use Rattle.std.specs.Prelude.{◌≡◌, ◌≤◌, ◌<◌, ◌+◌, ◌-◌, ℕ, [], length, slice_index_or, IfOk};
ghost use Rattle.tsp_cases.specs.Cases.{is_same};
ghost use Rattle.tsp_cases.specs.declared.decision.Decision.{Decision};
ghost use Rattle.tsp_cases.specs.states.OpenCases.{HaveOneMore, HaveOneLess};

use crate::decision::Decision;
use std::alloc::Global;
use tsp_io::{Refused, push, with_capacity};

/// The decisions of the open case.
#[derive(Drop)]
pub struct OpenCase<'a> {
    /// The decisions of all cases, such as the fixed pairs of an instance.
    pub given: &'a [Decision],
    /// The decisions of the branches above the open case, the last one last.
    pub stack: Vec<Decision>,
    /// All of these, by node.
    pub by_node: NodeDecisions,
}

impl<'a> OpenCase<'a> {
    ghost use Rattle.std.specs.Prelude.{◌≡◌, ◌≤◌, ◌<◌, ◌+◌, ◌-◌, ◌++◌, ℕ, [], ◌∷◌, true, length, IfOk};
    ghost use Rattle.std.specs.List.{All, filter};
    ghost use Rattle.tsp_cases.specs.declared.decision.Decision.{Decision};
    ghost use Rattle.tsp_cases.specs.states.OpenCases.{IsDecision, IsNextStack, stack_of};
    ghost use Rattle.tsp_cases.specs.states.OpenCases.{IsOpenCase, bears_on, decisions_in};
    ghost use Rattle.tsp_cases.specs.ListedCases.{is_decided};

    /// The case with the given decisions and no others.
    ///
    /// # Errors
    ///
    /// If memory runs out. It allocates an entry for each node and each given decision.
    pub fn new(
        alloc: Global,
        nodes: u32,
        directed: bool,
        given: &'a [Decision],
    ) -> Result<OpenCase<'a>, Refused>
        requires { All (IsDecision nodes) given.now }
        ensures case { IfOk result (λ case. IsOpenCase nodes case) }
        ensures given { IfOk result (λ case. case.given.now ≡ given.now) }
        ensures stack { IfOk result (λ case. case.stack.items ≡ []) }
        ensures directed { IfOk result (λ case. case.by_node.directed ≡ directed) }
    {
        let mut by_node = NodeDecisions::new(alloc, nodes, directed)?;
        let mut left = given.len();
        'given: while left > 0 {
            left -= 1;
            by_node.add(given[left])?;
        }
        Ok(OpenCase {
            given,
            stack: Vec::new(alloc),
            by_node,
        })
    }

    /// Goes on to the first case of a branch: these decisions, and the pair taken.
    ///
    /// # Errors
    ///
    /// Out of memory.
    pub fn take(&mut self, pair: (u32, u32)) -> Result<(), Refused>
        requires case { (n : ℕ) × IsOpenCase n self.old × IsDecision n (record { pair = pair; taken = true }) }
        ensures case { IfOk result (λ unit. (n : ℕ) → IsOpenCase n self.old
            → IsDecision n (record { pair = pair; taken = true }) → IsOpenCase n self.new) }
        ensures stack { IfOk result (λ unit. self.new.stack.items
            ≡ self.old.stack.items ++ record { pair = pair; taken = true } ∷ []) }
        ensures given { IfOk result (λ unit. self.new.given.now ≡ self.old.given.now) }
        ensures directed { IfOk result (λ unit. self.new.by_node.directed ≡ self.old.by_node.directed) }
    {
        let decision = Decision { pair, taken: true };
        self.by_node.add(decision)?;
        push(&mut self.stack, decision)?;
        Ok(())
    }

    /// The decisions that affect the row of a node, the last one last.
    pub fn at(&self, node: u32) -> &[Decision]
        requires { node < length self.now.by_node.lists.items }
        ensures { (n : ℕ) → IsOpenCase n self.now → node ≤ n
            → stack_of result.now ≡ filter (bears_on self.now.by_node.directed node) (decisions_in self.now) }
    {
        self.by_node.lists[node as usize].as_slice()
    }

    /// Whether the case decides this pair of its nodes.
    pub(crate) fn decides(&self, pair: (u32, u32)) -> bool
        requires { (n : ℕ) × IsOpenCase n self.now × (pair.0 ≤ n) }
        ensures { result ≡ is_decided self.now.by_node.directed (decisions_in self.now) pair }
    {
        let own = self.at(pair.0);
        'decisions: for decision in own {
            if is_same(self.by_node.directed, pair, decision.pair) {
                return true;
            }
        }
        false
    }

    /// Goes on from a leaf to the next case. `false` if that was the last one.
    ///
    /// The decisions above the last taken pair are dropped, and this pair is avoided from now on.
    /// If no pair is taken, no case is left, and the stack is emptied.
    ///
    /// # Errors
    ///
    /// Out of memory.
    pub fn next(&mut self) -> Result<bool, Refused>
        requires { (n : ℕ) × IsOpenCase n self.old }
        ensures case { IfOk result (λ is_open. (n : ℕ) → IsOpenCase n self.old → IsOpenCase n self.new) }
        ensures next { IfOk result (λ is_open. IsNextStack self.old.stack.items is_open self.new.stack.items) }
        ensures few { IfOk result (λ is_open. length self.new.stack.items ≤ length self.old.stack.items) }
        ensures given { IfOk result (λ is_open. self.new.given.now ≡ self.old.given.now) }
        ensures directed { IfOk result (λ is_open. self.new.by_node.directed ≡ self.old.by_node.directed) }
    {
        'leave: while let Some(last) = self.stack.pop() {
            self.by_node.drop_last(last);
            if last.taken {
                let turned = Decision {
                    pair: last.pair,
                    taken: false,
                };
                self.by_node.add(turned)?;
                push(&mut self.stack, turned)?;
                return Ok(true);
            }
        }
        Ok(false)
    }
}

/// Whether two pairs are the same: in the same order of nodes if pairs are directed, in either
/// order if they aren't.
fn is_same(directed: bool, pair: (u32, u32), other: (u32, u32)) -> bool
    ensures { result ≡ is_same directed pair other }
{
    let straight = pair.0 == other.0 && pair.1 == other.1;
    if directed {
        return straight;
    }
    straight || (pair.1 == other.0 && pair.0 == other.1)
}

// ---- the decisions of a case, listed at the nodes whose rows they change

/// For each node, the decisions that affect its row, and all decisions that take a pair, the last
/// one last.
///
/// A decision affects the row of its first node and, if pairs have no direction, also that of its
/// second node.
#[derive(Drop)]
pub struct NodeDecisions {
    pub directed: bool,
    pub lists: Vec<Vec<Decision>>,
    pub taken: Vec<Decision>,
}

impl NodeDecisions {
    ghost use Rattle.std.specs.Prelude.{◌≡◌, ◌<◌, ◌-◌, ℕ, List, [], ◌∷◌, IfOk, length};
    ghost use Rattle.tsp_cases.specs.declared.decision.Decision.{Decision};
    ghost use Rattle.tsp_cases.specs.states.OpenCases.{IsOnPlaces};
    ghost use Rattle.tsp_cases.specs.states.OpenCases.{AreByNode};

    /// Empty lists for these nodes.
    ///
    /// # Errors
    ///
    /// If memory runs out. It allocates an entry for each node.
    pub(crate) fn new(alloc: Global, nodes: u32, directed: bool) -> Result<NodeDecisions, Refused>
        ensures none { IfOk result (λ made. AreByNode nodes made []) }
        ensures directed { IfOk result (λ made. made.directed ≡ directed) }
    {
        Ok(NodeDecisions {
            directed,
            lists: empty_lists(alloc, nodes)?,
            taken: Vec::new(alloc),
        })
    }

    /// Adds a decision.
    ///
    /// # Errors
    ///
    /// Out of memory.
    pub(crate) fn add(&mut self, decision: Decision) -> Result<(), Refused>
        requires { IsOnPlaces (length self.old.lists.items) decision }
        ensures more { IfOk result (λ unit. (n : ℕ) (case : List Decision) → AreByNode n self.old case
            → AreByNode n self.new (decision ∷ case)) }
        ensures places { IfOk result (λ unit. length self.new.lists.items ≡ length self.old.lists.items) }
        ensures directed { IfOk result (λ unit. self.new.directed ≡ self.old.directed) }
    {
        let (first, second) = decision.pair;
        list_at(&mut self.lists, first, decision)?;
        if !self.directed {
            list_at(&mut self.lists, second, decision)?;
        }
        if decision.taken {
            push(&mut self.taken, decision)?;
        }
        Ok(())
    }

    /// Drops the decision that was added last.
    pub(crate) fn drop_last(&mut self, decision: Decision)
        requires { IsOnPlaces (length self.old.lists.items) decision }
        ensures less { (n : ℕ) (case : List Decision) → AreByNode n self.old (decision ∷ case)
            → AreByNode n self.new case }
        ensures places { length self.new.lists.items ≡ length self.old.lists.items }
        ensures directed { self.new.directed ≡ self.old.directed }
    {
        let (first, second) = decision.pair;
        unlist_at(&mut self.lists, first);
        if !self.directed {
            unlist_at(&mut self.lists, second);
        }
        if decision.taken {
            self.taken.pop();
        }
    }
}

/// Adds a decision to the list of a node.
fn list_at(lists: &mut Vec<Vec<Decision>>, node: u32, decision: Decision) -> Result<(), Refused>
    requires { node < length lists.old.items }
    ensures { IfOk result (λ unit. HaveOneMore node decision lists.old.items lists.new.items) }
{
    push(&mut lists[node as usize], decision)?;
    Ok(())
}

/// Drops the last decision of a node's list.
fn unlist_at(lists: &mut Vec<Vec<Decision>>, node: u32)
    requires { node < length lists.old.items }
    ensures { HaveOneLess node lists.old.items lists.new.items }
{
    lists[node as usize].pop();
}

// ---- an empty list for each node

/// An empty list for each node, and one for the unused index 0.
///
/// # Errors
///
/// If memory runs out. It allocates an entry for each node.
pub(crate) fn empty_lists<T: Drop>(alloc: Global, nodes: u32) -> Result<Vec<Vec<T>>, Refused>
    ensures many { IfOk result (λ lists. length lists.items ≡ nodes + 1) }
    ensures empty { IfOk result (λ lists. (x : ℕ) (default : Vec T) → x ≤ nodes
        → (slice_index_or lists.items x default).items ≡ []) }
{
    let places = nodes as usize + 1;
    let mut lists = with_capacity(alloc, places)?;
    'lists: for _ in 0..places {
        push(&mut lists, Vec::new(alloc))?;
    }
    Ok(lists)
}
