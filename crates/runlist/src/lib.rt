#![tactic(auto)]

ghost use Rattle.std.specs.Prelude.{◌≡◌};
ghost use Rattle.tables.specs.Top.{Top};
ghost use Rattle.runs.specs.Marks.{run_at, MarksAt};
ghost use Rattle.runlist.specs.Listing.{refusal, plan_of, marks_in};

use ordering::order::Order;
use runs::Run;
use shapes::Board;
use tables::Outcome;
use words::mark_word::MarkFields;
use words::{Packed, Refusal};

// What is settled before a record is written: how many runs are written, and the outcome.
// No Result: who lists writes so many runs whatever the outcome is, none where it is refused, and would else take it apart twice.
#[derive(Clone, Copy)]
pub struct Plan {
    pub number: usize,
    pub outcome: Outcome,
}

// Refused: no run is written.
fn refuse(why: Refusal) -> Plan
    ensures { result ≡ refusal why }
{
    Plan {
        number: 0,
        outcome: Err(why),
    }
}

// Refused: NotSound, or ShortList for a list shorter than the runs. The marks of a sound table are left in place of its words in any case.
pub fn plan_of(board: Board, t: &mut [u64; 641], top: u32, size: usize) -> Plan
    requires { Top t.old top }
    ensures { (result ≡ plan_of board t.old size) × (t.new ≡ marks_in board t.old) }
{
    let mut order = Order::none();
    if !decide::is_ordered(board, t, top, &mut order) {
        return refuse(Refusal::NotSound);
    }
    let n = runs::walk::leave_marks(t, &order.slots);
    if size < n {
        return refuse(Refusal::ShortList);
    }
    Plan {
        number: n,
        outcome: Ok((n as u64, 0)),
    }
}

// Run i of those that the marks were made for: from its mark to the next.
pub fn run_at(marks: &[u64; 641], i: usize) -> Run
    requires { MarksAt marks.now i }
    ensures { result ≡ run_at marks.now i }
{
    let here = MarkFields::fields(keeping::number(marks, i) as u64);
    let next = MarkFields::fields(keeping::number(marks, i + 1) as u64);
    let start = here.line;
    let end = next.line;
    let deepest = here.holder;
    Run {
        start: start,
        end: end,
        deepest: deepest,
    }
}
