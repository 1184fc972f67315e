// Marks of indices, one after the other.
ghost use Rattle.std.specs.Prelude.{◌≡◌, map, length};
ghost use Rattle.model.specs.Bytes.{join};
ghost use Rattle.set_table.specs.Places.{AllBelow};
ghost use Rattle.set_needs.specs.Rows.{row_in};
ghost use Rattle.set_readiness.specs.Ready.{marks_size};
ghost use Rattle.compose_dependencies.specs.Marks.{marked, RowsFit};

use set_needs::rows::ROW;

// Marks each of some indices.
#[tactic(auto, using(set_table::specs::PlaceLaws::below_at))]
pub fn mark(marks: &mut [u8], indices: &[u8])
    requires { AllBelow (length marks.old) indices.now }
    ensures { marks.new ≡ marked marks.old indices.now }
{
    for i in indices {
        marks[*i as usize] = 1;
    }
}

// Marks what the deltas at some places need.
pub fn mark_needs(marks: &mut [u8], rows: &[u8], counts: &[u8], places: &[u8])
    requires { (length marks.old ≡ marks_size) × RowsFit rows.now counts.now places.now }
    ensures { marks.new ≡ marked marks.old (join (map (row_in rows.now counts.now) places.now)) }
{
    for place in places {
        let i = *place as usize;
        let from = ROW * i;
        let end = from + counts[i] as usize;
        mark(marks, &rows[from..end]);
    }
}
