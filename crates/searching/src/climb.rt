ghost use Rattle.std.specs.Prelude.{◌≤◌, ◌<◌, length};
ghost use Rattle.tables.specs.View.{view};
ghost use Rattle.tables.specs.WayUp.{HasRoom, WentUp, WayWritten};

use words::Partition;

// Climbs from p to its parent and on: whether it gets to the root within so many steps.
// Who stands on the way goes into a number to the base 16, each in front as the new lowest digit, the root last.
pub fn climb(t: &[u64; 641], p: Partition, steps: u32, way: &mut u64) -> bool
    requires { (p.0 < 16) × HasRoom steps way.old }
    ensures { WentUp (view t.now).k.parent p.0 steps way.old result way.new }
{
    if p.0 == 0 {
        *way = *way * 16;
        return true;
    }
    if steps == 0 {
        return false;
    }
    let h = tables::read::header(t, p);
    *way = *way * 16 + p.0 as u64;
    climb(t, h.parent, steps - 1, way)
}

// Writes who stands on the way that the number tells, topmost first, and tells how many: the loop ends where the number is used up, and no range tells where that is.
pub fn write_way(way: u64, list: &mut [u8]) -> usize
    requires { 16 ≤ length list.old }
    ensures { WayWritten way list.old result list.new }
{
    let mut n = 0usize;
    let mut left = way;
    loop {
        list[n] = (left % 16) as u8;
        n += 1;
        left = left / 16;
        if left == 0 {
            return n;
        }
    }
}
