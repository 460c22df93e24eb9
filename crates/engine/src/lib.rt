#![tactic(auto)]

ghost use Rattle.std.specs.Prelude.{◌≡◌, ◌≤◌, length};
ghost use Rattle.engine.specs.Engine.{between, joined, mask_struck, memory_right, child_right, members_right, block_right, lines_right, strike_right, StartLent, GiveLent, TakeLent, StrikeLent};

// The ledger as masks, one a line, bit p for partition p. It knows nothing of slots. Each operation answers 0, or 21 and writes nothing:
// a number, since `StartLent` and the theorems of `engines` speak of it, and C gets it word for word.

// Writes 1 from mask a to b - 1: the root alone.
fn reset(masks: &mut [u16], a: usize, b: usize)
    requires { (a ≤ b) × (b ≤ length masks.old) }
    ensures { masks.new ≡ between a b (λ m. 1) masks.old }
{
    for mask in masks[a..b].iter_mut() {
        *mask = 1;
    }
}

// Sets the bits of w from mask a to b - 1.
fn enter(masks: &mut [u16], a: usize, b: usize, w: u16)
    requires { (a ≤ b) × (b ≤ length masks.old) }
    ensures { masks.new ≡ between a b (joined w) masks.old }
{
    for mask in masks[a..b].iter_mut() {
        *mask |= w;
    }
}

// Clears the bits of w from mask a to b - 1.
fn clear(masks: &mut [u16], a: usize, b: usize, w: u16)
    requires { (a ≤ b) × (b ≤ length masks.old) }
    ensures { masks.new ≡ between a b (mask_struck w) masks.old }
{
    for mask in masks[a..b].iter_mut() {
        *mask &= !w;
    }
}

fn memory_right(n: usize, base: u64, end: u64) -> bool
    ensures { result ≡ memory_right n base end }
{
    if base >= end {
        return false;
    }
    let lines = end - base;
    if lines > 2048 {
        return false;
    }
    lines <= n as u64
}

fn child_right(child: u64) -> bool
    ensures { result ≡ child_right child }
{
    if child < 1 {
        return false;
    }
    child <= 15
}

fn members_right(members: u64) -> bool
    ensures { result ≡ members_right members }
{
    if members % 2 != 0 {
        return false;
    }
    members < 0x1_0000
}

fn block_right(base: u64, end: u64, from: u64, to: u64) -> bool
    ensures { result ≡ block_right base end from to }
{
    if base > from {
        return false;
    }
    if from >= to {
        return false;
    }
    to <= end
}

fn lines_right(n: usize, base: u64, end: u64, child: u64, from: u64, to: u64) -> bool
    ensures { result ≡ lines_right n base end child from to }
{
    if !memory_right(n, base, end) {
        return false;
    }
    if !child_right(child) {
        return false;
    }
    block_right(base, end, from, to)
}

fn strike_right(n: usize, base: u64, end: u64, members: u64) -> bool
    ensures { result ≡ strike_right n base end members }
{
    if !memory_right(n, base, end) {
        return false;
    }
    members_right(members)
}

// The root alone holds every line of base to end.
pub fn start(masks: &mut [u16], base: u64, end: u64) -> u64
    ensures { StartLent base end masks.old result masks.new }
{
    if !memory_right(masks.len(), base, end) {
        return 21;
    }
    reset(masks, 0, (end - base) as usize);
    0
}

// The child holds the lines from to to - 1 too.
pub fn give(masks: &mut [u16], base: u64, end: u64, child: u64, from: u64, to: u64) -> u64
    ensures { GiveLent base end child from to masks.old result masks.new }
{
    if !lines_right(masks.len(), base, end, child, from, to) {
        return 21;
    }
    enter(
        masks,
        (from - base) as usize,
        (to - base) as usize,
        1u16 << child,
    );
    0
}

// The child holds them no more.
pub fn take(masks: &mut [u16], base: u64, end: u64, child: u64, from: u64, to: u64) -> u64
    ensures { TakeLent base end child from to masks.old result masks.new }
{
    if !lines_right(masks.len(), base, end, child, from, to) {
        return 21;
    }
    clear(
        masks,
        (from - base) as usize,
        (to - base) as usize,
        1u16 << child,
    );
    0
}

// The members, bit p for partition p, hold no line.
pub fn strike(masks: &mut [u16], base: u64, end: u64, members: u64) -> u64
    ensures { StrikeLent base end members masks.old result masks.new }
{
    if !strike_right(masks.len(), base, end, members) {
        return 21;
    }
    clear(masks, 0, (end - base) as usize, members as u16);
    0
}
