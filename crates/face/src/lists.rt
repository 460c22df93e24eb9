ghost use Rattle.std.specs.Prelude.{◌≡◌, replicate};
ghost use Rattle.face.specs.Face.{result_of};
ghost use Rattle.face.specs.Lists.{Small, ready_of, left_of, RunsLent, PiecesLent};

use runlist::run_at;
use runs::Run;
use shapes::Board;
use tables::Outcome;
use words::{Partition, Refusal};

// What is settled before a record is written: how many runs are written, and the answer.
#[derive(Clone, Copy)]
pub struct Ready {
    pub number: usize,
    pub answer: u64,
}

// There is no caller here.
fn answer_word(o: Outcome) -> u64
    requires { Small o }
    ensures { result ≡ result_of 0 o }
{
    match o {
        Ok((first, _)) => crate::packed(0, Partition(0), first),
        Err(why) => crate::refused(why, Partition(0)),
    }
}

// The plan of a list of so many records; the marks that its runs are read from are left in the words, which are zero so far.
pub fn plan_bytes(board: Board, table: &[u8], size: usize, words: &mut [u64; 641]) -> Ready
    requires { words.old ≡ replicate 641 0 }
    ensures { (result ≡ ready_of board table.now size) × (words.new ≡ left_of board table.now) }
{
    if table.len() != 5128 {
        return Ready {
            number: 0,
            answer: crate::refused(Refusal::NotSound, Partition(0)),
        };
    }
    let top = memory::load(table, words);
    let p = runlist::plan_of(board, words, top, size);
    let n = p.number;
    let outcome = p.outcome;
    let answer = answer_word(outcome);
    Ready { number: n, answer }
}

// The runs of a table, written into a list of records. This is the one writer of them: it calls and stores, and settles nothing itself.
pub fn runs_bytes(board: Board, table: &[u8], records: &mut [Run]) -> u64
    ensures { RunsLent board table.now records.old result records.new }
{
    let mut words = [0u64; 641];
    let p = plan_bytes(board, table, records.len(), &mut words);
    for i in 0..p.number {
        records[i] = run_at(&words, i);
    }
    p.answer
}

// The pieces of an entry: `holders::pieces` on bytes.
pub fn pieces_bytes(board: Board, table: &[u8], partition: u64, slot: u64, list: &mut [u64]) -> u64
    ensures { PiecesLent board table.now partition slot list.old result list.new }
{
    if table.len() != 5128 {
        return answer_word(Err(Refusal::NotSound));
    }
    let mut a = [0u64; 641];
    let top = memory::load(table, &mut a);
    let outcome = holders::pieces::pieces_table(board, &a, top, partition, slot, list);
    answer_word(outcome)
}
