//! The components of a graph: two places lead to each other exactly if they are in one component
//! (R. Tarjan, Depth-First Search and Linear Graph Algorithms, 1972). No contract here says so:
//! `cycles` tests the levels, and the order of the places decides only how long a search takes.

use std::alloc::{AllocError, Global};

/// The components of a graph, in an order.
#[derive(Drop)]
pub(crate) struct Components {
    /// For each place, the number of its component. No edge leads to a component of a higher
    /// number.
    pub(crate) levels: Vec<usize>,
    /// The places, those of a lower component first.
    pub(crate) callees_first: Vec<usize>,
}

/// A place on the path of a walk, with how many of its edges the walk took.
#[derive(Clone, Copy)]
struct Visit {
    place: usize,
    taken: usize,
}

/// A walk over a graph. It keeps its path in a list, so that no graph is too deep for it.
#[derive(Drop)]
struct Walk<'g> {
    graph: &'g [Vec<usize>],
    /// For each place: when the walk entered it, counted from 1, or 0 before that.
    entered: Vec<usize>,
    /// For each place: when the walk entered the earliest open place that it is known to lead to.
    earliest: Vec<usize>,
    /// The places that the walk entered and whose component is not complete.
    open: Vec<usize>,
    path: Vec<Visit>,
    /// How many places the walk entered.
    count: usize,
    /// How many components are complete.
    level: usize,
    found: Components,
}

/// The number at a place, or 0.
fn number_at(numbers: &[usize], place: usize) -> usize {
    match numbers.get(place) {
        Some(number) => *number,
        None => 0,
    }
}

/// Sets the number at a place, if there is one.
fn set_number(numbers: &mut Vec<usize>, place: usize, number: usize) {
    if let Some(old) = numbers.get_mut(place) {
        *old = number;
    }
}

impl<'g> Walk<'g> {
    /// A walk that has entered no place.
    fn new(alloc: Global, graph: &'g [Vec<usize>]) -> Result<Walk<'g>, AllocError> {
        let entered = vec![in alloc; 0usize; graph.len()]?;
        let earliest = vec![in alloc; 0usize; graph.len()]?;
        let levels = vec![in alloc; graph.len(); graph.len()]?;
        Ok(Walk {
            graph,
            entered,
            earliest,
            open: Vec::new(alloc),
            path: Vec::new(alloc),
            count: 0,
            level: 0,
            found: Components {
                levels,
                callees_first: Vec::new(alloc),
            },
        })
    }

    /// Enters a place.
    fn enter(&mut self, place: usize) -> Result<(), AllocError> {
        self.count = self.count.saturating_add(1);
        set_number(&mut self.entered, place, self.count);
        set_number(&mut self.earliest, place, self.count);
        self.open.push(place)?;
        self.path.push(Visit { place, taken: 0 })?;
        Ok(())
    }

    /// Lowers the earliest open place that a place leads to, if it was entered later than that.
    fn lower_earliest(&mut self, place: usize, entered: usize) {
        if entered < number_at(&self.earliest, place) {
            set_number(&mut self.earliest, place, entered);
        }
    }

    /// Takes an edge from a place.
    fn take_edge(&mut self, place: usize, to: usize) -> Result<(), AllocError> {
        let entered = number_at(&self.entered, to);
        if entered == 0 {
            return self.enter(to);
        }
        if number_at(&self.found.levels, to) == self.graph.len() {
            self.lower_earliest(place, entered);
        }
        Ok(())
    }

    /// Completes the component of a place: the open places from it on.
    fn complete(&mut self, place: usize) -> Result<(), AllocError> {
        for _ in 0..self.open.len() {
            if let Some(last) = self.open.pop() {
                set_number(&mut self.found.levels, last, self.level);
                self.found.callees_first.push(last)?;
                if last == place {
                    break;
                }
            }
        }
        self.level = self.level.saturating_add(1);
        Ok(())
    }

    /// Leaves a place, all edges of which were taken.
    fn leave(&mut self, place: usize) -> Result<(), AllocError> {
        let earliest = number_at(&self.earliest, place);
        if earliest == number_at(&self.entered, place) {
            return self.complete(place);
        }
        let before = match self.path.last() {
            Some(visit) => visit.place,
            None => return Ok(()),
        };
        self.lower_earliest(before, earliest);
        Ok(())
    }

    /// Goes on from the last place of the path until it has left the whole path.
    fn go_on(&mut self, limit: usize) -> Result<(), AllocError> {
        for _ in 0..limit {
            let Some(visit) = self.path.pop() else {
                return Ok(());
            };
            match edge_at(self.graph, visit) {
                Some(to) => {
                    let taken = visit.taken.saturating_add(1);
                    self.path.push(Visit {
                        place: visit.place,
                        taken,
                    })?;
                    self.take_edge(visit.place, to)?;
                }
                None => self.leave(visit.place)?,
            }
        }
        Ok(())
    }
}

/// The next edge of a place, if there is one.
fn edge_at(graph: &[Vec<usize>], visit: Visit) -> Option<usize> {
    let row = graph.get(visit.place)?;
    row.get(visit.taken).copied()
}

/// The steps that a walk takes at most: one for each edge and each place, and one to see the end.
fn most_steps(graph: &[Vec<usize>]) -> usize {
    let mut steps: usize = 1;
    for row in graph {
        steps = steps.saturating_add(row.len()).saturating_add(1);
    }
    steps
}

/// The components of a graph, in time in proportion to its places and edges.
pub(crate) fn components_of(alloc: Global, graph: &[Vec<usize>]) -> Result<Components, AllocError> {
    let limit = most_steps(graph);
    let mut walk = Walk::new(alloc, graph)?;
    for place in 0..graph.len() {
        if number_at(&walk.entered, place) == 0 {
            walk.enter(place)?;
            walk.go_on(limit)?;
        }
    }
    let Walk {
        graph: _,
        entered: _,
        earliest: _,
        open: _,
        path: _,
        count: _,
        level: _,
        found,
    } = walk;
    Ok(found)
}
