#![tactic(auto)]

ghost use Rattle.std.specs.Prelude.{◌≡◌};
ghost use Rattle.verdict.specs.Verdict.{failing, verdict, image_verdict};

// The lowest clause that a table fails, and the lowest partition where it fails.
mod bits;
mod early;
mod late;

use ordering::order::Order;
use settling::areas::Areas;
use shapes::Board;
use words::Partition;

// What is said of an image: it is sound; or this clause fails, at this partition; or it is no table.
#[derive(Clone, Copy)]
pub enum Verdict {
    Accepted,
    Fails(u32, Partition),
    Length,
}

// by the number of the lowest test that fails
#[tactic(auto, unfolding(crate::specs::Verdict::failing))]
fn failing(m: u32) -> Verdict
    ensures { result ≡ failing m }
{
    Verdict::Fails(1 + m / 16, Partition(m % 16))
}

// The entries are put in order and the areas gathered once S1 to S6 are known to hold: S7, S9 and S11 walk along them.
pub fn of_table(board: Board, t: &[u64; 641]) -> Verdict
    ensures { result ≡ verdict board t.now }
{
    if let Some(m) = early::lowest(board, t) {
        return failing(m);
    }
    let mut order = Order::none();
    order.arrange(t, 16);
    let mut areas = Areas::none();
    areas.gather(t, 16);
    match late::lowest(board, t, &order, &areas) {
        Some(m) => failing(m),
        None => Verdict::Accepted,
    }
}

// .. of the bytes of an image
pub fn of_image(board: Board, b: &[u8]) -> Verdict
    ensures { result ≡ image_verdict board b.now }
{
    if b.len() != 5128 {
        return Verdict::Length;
    }
    let mut a = [0u64; 641];
    memory::load(b, &mut a);
    of_table(board, &a)
}
