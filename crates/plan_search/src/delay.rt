// The ends of an edge, and what remains of it; types of its ends and of a winner. Definitions in specs/.
ghost use Rattle.std.specs.Prelude.{◌≡◌, ◌+◌, ◌*◌, ◌-◌, eqb};
ghost use Rattle.plan_search.specs.Held.{settled_by};
ghost use Rattle.plan_search.specs.Between.{vertex_end};

// The ends of an edge between two components, by how many are active.
#[derive(Clone, Copy)]
pub enum ActiveEnds {
    Neither,
    One,
    Both,
}

// The winner of a round: an edge, and its delay.
#[derive(Clone, Copy)]
pub struct Winner {
    pub e: usize,
    pub d: u64,
}

// One end of an edge: the number of its component, 1 if that is active, and its load.
#[derive(Clone, Copy)]
pub struct End {
    pub label: u32,
    pub flag: u8,
    pub load: u64,
}

// A value in place of what is held for it, or the other way round.
pub fn settled(held: u64, flag: u8, time: u64) -> u64
    ensures { result ≡ settled_by time (eqb flag 1) held }
{
    if flag == 1 {
        return time.saturating_sub(held);
    }
    held
}

// The end at vertex v, whose load is held by time.
pub fn end_at(labels: &[u32], loads: &[u64], flags: &[u8], time: u64, v: usize) -> End
    ensures { result ≡ vertex_end labels.now loads.now flags.now time v }
{
    let label = base_buffer::at(labels, v);
    let c = label as usize;
    let flag = base_buffer::at(flags, c);
    let load = settled(base_buffer::at(loads, v), flag, time);
    End { label, flag, load }
}

// What remains of an edge between two loads.
pub fn edge_slack(weight: u32, first_load: u64, second_load: u64) -> u64
    ensures { result ≡ 2 * weight - (first_load + second_load) }
{
    let whole = 2 * u64::from(weight);
    whole.saturating_sub(first_load).saturating_sub(second_load)
}
