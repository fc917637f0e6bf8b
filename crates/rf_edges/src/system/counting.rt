// The count of faults of an edge over the system.
ghost use Rattle.std.specs.Prelude.{◌<◌};
ghost use Rattle.rf_edges.specs.Faults.{Rose, Lasts};

// Counts so many faults more. The count stands still at its type's end.
pub(crate) fn count_faults(faults: &mut u64, count: u64)
    ensures rose { 0 < count → Rose faults.old faults.new }
    ensures lasting { Lasts faults.old faults.new }
{
    *faults = faults.saturating_add(count);
}
