//! The order of elimination: nodes of an approximately least degree first (Amestoy, Davis and Duff
//! 1996, An approximate minimum degree ordering algorithm).
ghost use Rattle.std.specs.Prelude.{◌≡◌, IfOk, vec_len};

use crate::queue::Queue;
use crate::stages::{DEEPEST, stages_of};
use std::alloc::{AllocError as OutOfMemory, Global};

/// A node that left the graph, and the neighbours that it had then. These are a clique: from then
/// on any two of them are neighbours.
#[derive(Drop)]
pub(crate) struct Eliminated {
    pub node: u32,
    pub neighbours: Vec<u32>,
}

/// So many empty lists.
pub(crate) fn empty_lists<T>(alloc: Global, count: u32) -> Result<Vec<Vec<T>>, OutOfMemory>
where
    T: Drop,
    ensures { IfOk result (λ lists. vec_len lists ≡ count) }
{
    let mut lists = Vec::new(alloc);
    for _ in 0..count {
        lists.push(Vec::new(alloc))?;
    }
    Ok(lists)
}

/// The list of a node.
fn list_of(lists: &[Vec<u32>], node: u32) -> &[u32] {
    match lists.get(node as usize) {
        Some(list) => list.as_slice(),
        None => &[],
    }
}

/// Appends a number to the list of a node.
fn push_at(lists: &mut [Vec<u32>], node: u32, number: u32) -> Result<(), OutOfMemory> {
    if let Some(list) = lists.get_mut(node as usize) {
        list.push(number)?;
    }
    Ok(())
}

/// For each node the newest clique that is known to hold it.
#[derive(Drop)]
struct Marks {
    newest: Vec<Option<u32>>,
}

impl Marks {
    fn is_in(&self, node: u32, clique: u32) -> bool {
        self.newest.get(node as usize).copied().flatten() == Some(clique)
    }

    fn put(&mut self, node: u32, clique: u32) {
        if let Some(mark) = self.newest.get_mut(node as usize) {
            *mark = Some(clique);
        }
    }

    /// Appends those of the nodes that the clique isn't known to hold, and marks them.
    fn gather(
        &mut self,
        found: &mut Vec<u32>,
        nodes: &[u32],
        clique: u32,
    ) -> Result<(), OutOfMemory> {
        for node in nodes {
            if !self.is_in(*node, clique) {
                self.put(*node, clique);
                found.push(*node)?;
            }
        }
        Ok(())
    }
}

/// The nodes that are left. Two of them are neighbours where a link joins them or a clique holds
/// both. A clique is named by its place among the eliminated nodes.
#[derive(Drop)]
struct Graph {
    alloc: Global,
    eliminated: Vec<Eliminated>,
    /// For each node, those joined to it by a link and held with it by no clique.
    links: Vec<Vec<u32>>,
    /// For each node, the cliques that hold it.
    cliques: Vec<Vec<u32>>,
    marks: Marks,
    /// For each clique that holds a node of the newest one, how many of its nodes that one lacks.
    outside: Vec<usize>,
    /// For each node that is left, a bound on the number of its neighbours.
    degrees: Vec<Option<usize>>,
    /// For each node the stage in which it leaves, and the stage that stands.
    stages: Vec<u32>,
    stage: u32,
    /// The nodes of the stages up to this one.
    queue: Queue,
}

impl Graph {
    fn new(alloc: Global, nodes: u32) -> Result<Graph, OutOfMemory> {
        let size = nodes as usize;
        Ok(Graph {
            alloc,
            eliminated: Vec::with_capacity(alloc, size)?,
            links: empty_lists(alloc, nodes)?,
            cliques: empty_lists(alloc, nodes)?,
            marks: Marks {
                newest: vec![in alloc; None; size]?,
            },
            outside: vec![in alloc; 0usize; size]?,
            degrees: vec![in alloc; None; size]?,
            stages: Vec::new(alloc),
            stage: 0,
            queue: Queue::new(alloc),
        })
    }

    /// Joins nodes by links. A link with an end that is no node, or with one node at both ends, is
    /// passed over.
    fn join(&mut self, links: &[(u32, u32)]) -> Result<(), OutOfMemory> {
        let size = self.links.len();
        for (one, other) in links {
            let inside = (*one as usize) < size && (*other as usize) < size;
            if inside && one != other {
                push_at(&mut self.links, *one, *other)?;
                push_at(&mut self.links, *other, *one)?;
            }
        }
        Ok(())
    }

    fn stage_of(&self, node: u32) -> u32 {
        self.stages.get(node as usize).copied().unwrap_or(0)
    }

    fn set_degree(&mut self, node: u32, degree: usize) -> Result<(), OutOfMemory> {
        let waits = self.stage_of(node) > self.stage;
        if let Some(entry) = self.degrees.get_mut(node as usize) {
            if *entry != Some(degree) {
                *entry = Some(degree);
                if !waits {
                    self.queue.push(node, degree)?;
                }
            }
        }
        Ok(())
    }

    /// Leaves each neighbour once in the lists of links, in order.
    fn sort_links(&mut self) {
        for list in self.links.iter_mut() {
            list.sort_unstable();
            list.dedup();
        }
    }

    /// Queues the nodes of the first stage, so that of those with one degree the lowest comes first.
    fn enqueue(&mut self, nodes: u32) -> Result<(), OutOfMemory> {
        for node in (0..nodes).rev() {
            let degree = list_of(&self.links, node).len();
            self.set_degree(node, degree)?;
        }
        Ok(())
    }

    /// Goes on to the next stage, and queues its nodes.
    fn begin_stage(&mut self, nodes: u32) -> Result<(), OutOfMemory> {
        self.stage = self.stage.saturating_add(1);
        for node in (0..nodes).rev() {
            if self.stage_of(node) == self.stage {
                if let Some(degree) = self.degrees.get(node as usize).copied().flatten() {
                    self.queue.push(node, degree)?;
                }
            }
        }
        Ok(())
    }

    /// A node of the least degree of the first stage that has nodes left.
    fn next_by_stage(&mut self, nodes: u32) -> Result<Option<u32>, OutOfMemory> {
        for _ in self.stage..DEEPEST {
            if let Some(node) = self.next() {
                return Ok(Some(node));
            }
            self.begin_stage(nodes)?;
        }
        Ok(self.next())
    }

    /// A node of the least degree, which is no longer left. Entries of the queue that are older
    /// than their node's degree are passed over.
    fn next(&mut self) -> Option<u32> {
        for _ in 0..u64::MAX {
            let (node, degree) = self.queue.pop()?;
            if let Some(entry) = self.degrees.get_mut(node as usize) {
                if *entry == Some(degree) {
                    *entry = None;
                    return Some(node);
                }
            }
        }
        None
    }

    /// The neighbours of a node. The newest clique is marked as holding them and the node.
    fn neighbours_of(&mut self, node: u32, newest: u32) -> Result<Vec<u32>, OutOfMemory> {
        let mut found = Vec::new(self.alloc);
        self.marks.put(node, newest);
        self.marks
            .gather(&mut found, list_of(&self.links, node), newest)?;
        for clique in list_of(&self.cliques, node) {
            if let Some(eliminated) = self.eliminated.get(*clique as usize) {
                self.marks
                    .gather(&mut found, &eliminated.neighbours, newest)?;
            }
        }
        Ok(found)
    }

    /// Starts the counts of a node's cliques at the numbers of their nodes.
    fn start_counts(&mut self, node: u32) {
        for clique in list_of(&self.cliques, node) {
            let place = *clique as usize;
            if let Some(count) = self.outside.get_mut(place) {
                *count = match self.eliminated.get(place) {
                    Some(eliminated) => eliminated.neighbours.len(),
                    None => 0,
                };
            }
        }
    }

    fn start_all_counts(&mut self, nodes: &[u32]) {
        for node in nodes {
            self.start_counts(*node);
        }
    }

    /// Takes a node, which the newest clique holds, from the counts of its cliques.
    fn count_off(&mut self, node: u32) {
        for clique in list_of(&self.cliques, node) {
            if let Some(count) = self.outside.get_mut(*clique as usize) {
                *count = count.saturating_sub(1);
            }
        }
    }

    fn count_all_off(&mut self, nodes: &[u32]) {
        for node in nodes {
            self.count_off(*node);
        }
    }

    /// The nodes that a node's cliques hold outside the newest one, those of two counted twice.
    fn outside_of(&self, node: u32) -> usize {
        let mut sum = 0usize;
        for clique in list_of(&self.cliques, node) {
            let count = self.outside.get(*clique as usize).copied().unwrap_or(0);
            sum = sum.saturating_add(count);
        }
        sum
    }

    /// Puts a node into the newest clique, which holds so many nodes. The links to nodes of that
    /// clique and the cliques that lie inside it say nothing more, and are taken away.
    fn enter(&mut self, node: u32, newest: u32, size: usize) -> Result<(), OutOfMemory> {
        let place = node as usize;
        let marks = &self.marks;
        let outside = &self.outside;
        if let Some(list) = self.links.get_mut(place) {
            list.retain(|other| !marks.is_in(*other, newest));
        }
        if let Some(list) = self.cliques.get_mut(place) {
            list.retain(|clique| outside.get(*clique as usize).copied().unwrap_or(0) > 0);
        }
        let joined = list_of(&self.links, node).len();
        let degree = joined
            .saturating_add(self.outside_of(node))
            .saturating_add(size);
        push_at(&mut self.cliques, node, newest)?;
        self.set_degree(node, degree.saturating_sub(1))
    }

    /// Takes a node out of the graph, and leaves its neighbours as the newest clique.
    fn eliminate(&mut self, node: u32, newest: u32) -> Result<(), OutOfMemory> {
        let neighbours = self.neighbours_of(node, newest)?;
        self.start_all_counts(&neighbours);
        self.count_all_off(&neighbours);
        self.count_off(node);
        for neighbour in &neighbours {
            self.enter(*neighbour, newest, neighbours.len())?;
        }
        self.eliminated.push(Eliminated { node, neighbours })?;
        Ok(())
    }
}

/// The nodes in the order of elimination.
pub(crate) fn eliminate_nodes(
    alloc: Global,
    nodes: u32,
    links: &[(u32, u32)],
) -> Result<Vec<Eliminated>, OutOfMemory> {
    let mut graph = Graph::new(alloc, nodes)?;
    graph.join(links)?;
    graph.sort_links();
    graph.stages = stages_of(alloc, nodes, &graph.links)?;
    graph.enqueue(nodes)?;
    for newest in 0..nodes {
        let Some(node) = graph.next_by_stage(nodes)? else {
            break;
        };
        graph.eliminate(node, newest)?;
    }
    Ok(graph.eliminated)
}
