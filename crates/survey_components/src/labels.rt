// Component labels in a lent buffer, and what an edge between two components makes of them; and the climb in trees
// there, by which many edges are joined sooner.
ghost use Rattle.std.specs.Prelude.{◌≡◌, get_or};
ghost use Rattle.theory_graph.specs.Component.{merged};
ghost use Rattle.base_limits.specs.Limits.{max_vertices};
ghost use Rattle.base_buffer.specs.Store.{remade};
ghost use Rattle.survey_components.specs.Buffer.{relabelled};
ghost use Rattle.survey_components.specs.Roots.{climbed};

use base_buffer::{at, put};
use base_limits::MAX_VERTICES;

// Each vertex is its own component.
pub fn own_labels(labels: &mut [u32])
    ensures { labels.new ≡ remade (λ v x. v) max_vertices labels.old }
{
    for v in 0..MAX_VERTICES {
        put(labels, v, v as u32);
    }
}

// z for x and y, any other label as it is.
fn merged_label(label: u32, x: u32, y: u32, z: u32) -> u32
    ensures { result ≡ merged x y z (λ l. l) label }
{
    if label == x {
        return z;
    }
    if label == y {
        return z;
    }
    label
}

// The components x and y become z.
pub fn relabel(labels: &mut [u32], x: u32, y: u32, z: u32)
    ensures { labels.new ≡ relabelled x y z labels.old }
{
    for label in labels.iter_mut() {
        *label = merged_label(*label, x, y, z);
    }
}

// The components of two vertices become z.
pub fn merge(labels: &mut [u32], first: u32, second: u32, z: u32)
    ensures { labels.new ≡ relabelled (get_or labels.old first 0) (get_or labels.old second 0) z labels.old }
{
    let x = at(labels, first as usize);
    let y = at(labels, second as usize);
    relabel(labels, x, y, z);
}

// The root above v, within a number of steps; a vertex that a step leaves hangs where the step goes.
pub fn climb(parents: &mut [u32], v: u32, steps: usize) -> u32
    ensures root { result ≡ (climbed steps parents.old v).root }
    ensures left { parents.new ≡ (climbed steps parents.old v).parents }
{
    let mut x = v;
    for _ in 0..steps {
        let up = at(parents, x as usize);
        if up == x {
            return x;
        }
        let above = at(parents, up as usize);
        put(parents, x as usize, above);
        x = above;
    }
    x
}
