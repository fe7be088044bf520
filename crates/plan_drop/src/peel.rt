// In which order the vertices of a forest can be hung on one another: a vertex with one picked edge left is taken away
// with that edge, until none is left. That a forest comes apart so is claimed nowhere: whoever uses the order tries
// what comes out (`plan_drop::sides::is_alone`).
ghost use Rattle.std.specs.Prelude.{◌≡◌, ℕ, ◌+◌, ◌%◌, ◌^◌, length, if◌then◌else◌, slice_index_or};
ghost use Rattle.base_finite.specs.Below.{count_below};
ghost use Rattle.base_limits.specs.Limits.{max_vertices};
ghost use Rattle.survey_components.specs.Labels.{picked_in};
ghost use Rattle.plan_drop.specs.Peel.{ends_of, queue_of, peel_of, end_turned, edge_noted, edges_noted};
ghost use Rattle.plan_drop.specs.Peel.{leaf_queued, leaves_queued, leaf_taken, peeled};

use base_buffer::{at, put};
use base_limits::MAX_VERTICES;

// One edge more or less at a vertex is one more, or 2^32 - 1 more: degrees are counted modulo 2^32.
const ONE_LESS: u32 = 4294967295;

// The vertices in the order in which they were taken away, and how many they are; for each vertex the other end of the
// edge that it went with, and 1 more than the edge's index, or 0 for one that has none.
#[derive(Drop)]
pub struct Peeling {
    pub count: usize,
    pub order: [u32; MAX_VERTICES],
    pub others: [u32; MAX_VERTICES],
    pub marks: [u32; MAX_VERTICES],
}

// An edge between v and w comes to v, or goes from it: the degree, and the exclusive ors of other ends and of marks.
fn turn_end(
    degrees: &mut [u32; MAX_VERTICES],
    others: &mut [u32; MAX_VERTICES],
    marks: &mut [u32; MAX_VERTICES],
    v: u32,
    w: u32,
    mark: u32,
    more: u32,
)
    ensures { let before = ends_of degrees.old others.old marks.old in
        ends_of degrees.new others.new marks.new ≡ end_turned v w mark more before }
{
    let i = v as usize;
    let degree = at(degrees, i).wrapping_add(more);
    let other = at(others, i) ^ w;
    let sum = at(marks, i) ^ mark;
    put(degrees, i, degree);
    put(others, i, other);
    put(marks, i, sum);
}

// Edge e comes to both its ends, if it is picked; the answer is the next index.
fn note_edge(
    firsts: &[u32],
    seconds: &[u32],
    picked: &[u8],
    degrees: &mut [u32; MAX_VERTICES],
    others: &mut [u32; MAX_VERTICES],
    marks: &mut [u32; MAX_VERTICES],
    e: usize,
    i: u32,
) -> u32
    ensures value { result ≡ (if picked_in picked.now e then (i + 1) % 2 ^ 32 else i) }
    ensures marks_value { let first = slice_index_or firsts.now e 0 in
        let second = slice_index_or seconds.now e 0 in
        let before = ends_of degrees.old others.old marks.old in
        let noted = edge_noted first second ((i + 1) % 2 ^ 32) before in
        ends_of degrees.new others.new marks.new ≡ (if picked_in picked.now e then noted else before) }
{
    if survey_components::is_picked(picked, e) {
        let a = at(firsts, e);
        let b = at(seconds, e);
        let mark = i.wrapping_add(1);
        turn_end(degrees, others, marks, a, b, mark, 1);
        turn_end(degrees, others, marks, b, a, mark, 1);
        return mark;
    }
    i
}

// All edges; answers how many are picked, modulo 2^32.
fn note_edges(
    firsts: &[u32],
    seconds: &[u32],
    picked: &[u8],
    degrees: &mut [u32; MAX_VERTICES],
    others: &mut [u32; MAX_VERTICES],
    marks: &mut [u32; MAX_VERTICES],
) -> u32
    ensures value { result ≡ count_below (length firsts.now) (picked_in picked.now) % 2 ^ 32 }
    ensures marks_value { let first : ℕ → ℕ = λ e. slice_index_or firsts.now e 0 in
        let second : ℕ → ℕ = λ e. slice_index_or seconds.now e 0 in
        let before = ends_of degrees.old others.old marks.old in
        ends_of degrees.new others.new marks.new
        ≡ edges_noted first second (picked_in picked.now) (length firsts.now) before }
{
    let mut i = 0;
    for e in 0..firsts.len() {
        i = note_edge(firsts, seconds, picked, degrees, others, marks, e, i);
    }
    i
}

// Vertex v comes next, if it has one edge left; the answer is how many there are then.
fn queue_leaf(
    degrees: &[u32; MAX_VERTICES],
    order: &mut [u32; MAX_VERTICES],
    v: u32,
    count: usize,
) -> usize
    ensures { queue_of order.new result ≡ leaf_queued max_vertices degrees.now v (queue_of order.old count) }
{
    if at(degrees, v as usize) != 1 {
        return count;
    }
    if count < MAX_VERTICES {
        order[count] = v;
        return count + 1;
    }
    count
}

// The vertices below n that have one edge from the start.
fn queue_leaves(degrees: &[u32; MAX_VERTICES], order: &mut [u32; MAX_VERTICES], n: u32) -> usize
    ensures { queue_of order.new result ≡ leaves_queued max_vertices degrees.now n (queue_of order.old 0) }
{
    let mut count = 0;
    for v in 0..n {
        count = queue_leaf(degrees, order, v, count);
    }
    count
}

// Vertex k of the order goes with its edge, if that is still there, and the other end may come next.
fn take_leaf(
    degrees: &mut [u32; MAX_VERTICES],
    others: &mut [u32; MAX_VERTICES],
    marks: &mut [u32; MAX_VERTICES],
    order: &mut [u32; MAX_VERTICES],
    k: usize,
    count: usize,
) -> usize
    ensures { let before = peel_of (ends_of degrees.old others.old marks.old) (queue_of order.old count) in
        let after = peel_of (ends_of degrees.new others.new marks.new) (queue_of order.new result) in
        after ≡ leaf_taken max_vertices k before }
{
    let v = at(order, k);
    if at(degrees, v as usize) != 1 {
        return count;
    }
    let w = at(others, v as usize);
    let mark = at(marks, v as usize);
    turn_end(degrees, others, marks, w, v, mark, ONE_LESS);
    queue_leaf(degrees, order, w, count)
}

// The order for the picked edges between n vertices.
pub fn peel(firsts: &[u32], seconds: &[u32], picked: &[u8], n: u32) -> Peeling
    ensures { let first : ℕ → ℕ = λ e. slice_index_or firsts.now e 0 in
        let second : ℕ → ℕ = λ e. slice_index_or seconds.now e 0 in
        let end = peeled max_vertices n first second (picked_in picked.now) (length firsts.now) in
        (result.count ≡ end.queue.count) × (result.order ≡ end.queue.order)
        × (result.others ≡ end.ends.others) × (result.marks ≡ end.ends.marks) }
{
    let mut degrees = [0u32; MAX_VERTICES];
    let mut others = [0u32; MAX_VERTICES];
    let mut marks = [0u32; MAX_VERTICES];
    let mut order = [0u32; MAX_VERTICES];
    note_edges(
        firsts,
        seconds,
        picked,
        &mut degrees,
        &mut others,
        &mut marks,
    );
    let mut count = queue_leaves(&degrees, &mut order, n);
    let mut k = 0;
    // Stays a while: each turn may add to the queue, so that its end moves.
    while k < count {
        count = take_leaf(&mut degrees, &mut others, &mut marks, &mut order, k, count);
        k += 1;
    }
    Peeling {
        count,
        order,
        others,
        marks,
    }
}
