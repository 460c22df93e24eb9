ghost use Rattle.std.specs.Prelude.{◌≡◌, ◌<◌, ◌≤◌, ◌^◌, length};
ghost use Rattle.tables.specs.View.{view};
ghost use Rattle.sound.specs.Core.{Core};
ghost use Rattle.runs.specs.Runs.{runs_of};
ghost use Rattle.runs.specs.Places.{AllInOrder};
ghost use Rattle.runs.specs.Marks.{Marked, marks_over};

use crate::marks::mark_of;
use crate::pieces::piece_at;
use words::{Line, Partition};

// A piece whose deepest holder is not that of the piece before begins a run: it gets a mark of its first line and its deepest holder.
fn mark(marks: &mut [u32; 513], n: usize, last: Partition, start: Line, deepest: Partition) -> usize
    requires { (length marks.old ≡ 513) × (n ≤ 512) × (start.0 < 2 ^ 27) × (deepest.0 < 16) }
    ensures { Marked marks.old n last.0 start.0 deepest.0 result marks.new }
{
    if deepest == last {
        return n;
    }
    marks[n] = mark_of(start, deepest);
    n + 1
}

// The number of runs, and their marks; after the last, one of the end of memory, with the root, which the way begins with too. Before the first run no partition is the deepest holder.
fn mark_runs(t: &[u64; 641], order: &[u8; 512], marks: &mut [u32; 513]) -> usize
    requires { Core (view t.now).k × AllInOrder (view t.now).k order.now × (length marks.old ≡ 513) }
    ensures { (result ≡ length (runs_of (view t.now).k)) × (marks.new ≡ marks_over 513 (view t.now).k marks.old) }
{
    let f = tables::read::first(t);
    let mut places = [0u32; 16];
    let end = f.end;
    let top = mark_of(end, Partition(0));
    let mut way = [top; 16];
    let mut depth = 0usize;
    let mut at = f.base;
    let mut last = Partition(16);
    let mut n = 0usize;
    while at.0 < f.end.0 {
        let c = piece_at(t, order, &mut places, &mut way, depth, at);
        let deepest = c.deepest;
        n = mark(marks, n, last, at, deepest);
        last = deepest;
        depth = c.depth;
        at = c.end;
    }
    marks[n] = mark_of(at, Partition(0));
    n
}

// The number of runs; their marks are left in place of the table's first words. So the array that the walk fills is not there
// while the table is decided, nor while the runs are written: the deepest stack has it beside the words alone.
pub fn leave_marks(t: &mut [u64; 641], order: &[u8; 512]) -> usize
    requires { Core (view t.old).k × AllInOrder (view t.old).k order.now }
    ensures { (result ≡ length (runs_of (view t.old).k)) × (t.new ≡ marks_over 641 (view t.old).k t.old) }
{
    tables::sized(t);
    let mut marks = [0u32; 513];
    let n = mark_runs(t, order, &mut marks);
    keeping::keep(&marks, n, t);
    n
}
