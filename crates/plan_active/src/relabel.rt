// The labels of the first vertices where two components become one. Definitions in specs/.
ghost use Rattle.std.specs.Prelude.{◌≡◌};
ghost use Rattle.plan_active.specs.Flags.{relabelled_first};

// The components x and y become z among the first n labels.
pub fn relabel_first(labels: &mut [u32], n: usize, x: u32, y: u32, z: u32)
    ensures { labels.new ≡ relabelled_first n x y z labels.old }
{
    if labels.len() < n {
        survey_components::relabel(labels, x, y, z);
        return;
    }
    survey_components::relabel(&mut labels[0..n], x, y, z);
}
